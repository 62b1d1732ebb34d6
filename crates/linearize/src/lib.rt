// Modules 6, 5 and 7 of document 01 as a call: linearize. It checks its own input and leaves the room as it was where it refuses. What
// pays best for its size comes first, with all that it needs. Most clusters of a pool are one transaction, which costs the checks alone;
// 64 members take some hundreds to some thousands of compares (docs/SPEED.md).

#![tactic(auto)]

ghost use Rattle.std.specs.Prelude.{◌≤◌, ◌≡◌, ◌++◌, length, drop};
ghost use Rattle.lists.specs.Lists.{overwrite};
ghost use Rattle.txset.specs.Sets.{positions, mem_at};
ghost use Rattle.refusals.specs.Refusals.{refusal, success, reply_from, reply_of, kept_unless};
ghost use Rattle.linearize.specs.Linearize.{linear_order, last_refusals, reply, room_after};
ghost use Rattle.linearize.specs.Steps.{steps_of, Checked, Ready};

use depgraph::DepGraph;
use refusals::Refusal;
use txset::POSITIONS;

// Up to this many members the arrays are small.
const FEW: usize = 8;

// Writes the order of a cluster's members, as positions of the slices, to the room's start.
// stays: the tests that post_linearize has too stand here again, since that of the room comes between them: shared, they would be two functions.
pub fn linearize(
    fees: &[i64],
    sizes: &[u64],
    parents: &[u64],
    room: &mut [usize],
) -> Result<usize, Refusal>
    ensures value { reply_from result ≡ reply fees.now sizes.now parents.now room.old }
    ensures room_after { room.new ≡ room_after fees.now sizes.now parents.now room.old }
{
    let n = fees.len();
    if sizes.len() != n {
        return Err(Refusal::LengthsDiffer);
    }
    if parents.len() != n {
        return Err(Refusal::LengthsDiffer);
    }
    if POSITIONS < n {
        return Err(Refusal::TooManyMembers);
    }
    if room.len() < n {
        return Err(Refusal::RoomTooShort);
    }
    if refusals::first_outside(fees).is_some() {
        return Err(Refusal::OutOfRange);
    }
    // A member alone, the most common cluster, needs no graph: it has one order.
    if n == 0 {
        return Ok(0);
    }
    if n == 1 {
        room[0] = 0;
        return Ok(1);
    }
    order_cluster(fees, sizes, parents, room)
}

// Small arrays for few members, since clearing large ones would cost more than the steps.
fn order_cluster(
    fees: &[i64],
    sizes: &[u64],
    parents: &[u64],
    room: &mut [usize],
) -> Result<usize, Refusal>
    requires { Checked fees.now parents.now room.old }
    ensures value { reply_from result ≡ reply_of refusal (last_refusals parents.now)
        (success (length (linear_order fees.now sizes.now parents.now))) }
    ensures room_after { room.new ≡ kept_unless (last_refusals parents.now) room.old
        (overwrite (linear_order fees.now sizes.now parents.now) room.old) }
{
    if fees.len() <= FEW {
        return in_arrays::<FEW>(fees, sizes, parents, room);
    }
    in_arrays::<POSITIONS>(fees, sizes, parents, room)
}

// Makes the graph in tables of N sets, and orders its members in a list of N places where it has no cycle.
fn in_arrays<const N: usize>(
    fees: &[i64],
    sizes: &[u64],
    parents: &[u64],
    room: &mut [usize],
) -> Result<usize, Refusal>
    requires checked { Checked fees.now parents.now room.old }
    requires few { length fees.now ≤ N }
    requires small { N ≤ positions }
    ensures value { reply_from result ≡ reply_of refusal (last_refusals parents.now)
        (success (length (linear_order fees.now sizes.now parents.now))) }
    ensures room_after { room.new ≡ kept_unless (last_refusals parents.now) room.old
        (overwrite (linear_order fees.now sizes.now parents.now) room.old) }
{
    let n = fees.len();
    let mut ancestors = [0u64; N];
    let mut descendants = [0u64; N];
    let graph = DepGraph::new(parents, &mut ancestors, &mut descendants);
    if graph.cyclic {
        return Err(Refusal::Cycle);
    }
    let mut order = [0usize; N];
    Ok(order_members(fees, sizes, &ancestors, &descendants, &mut order[..n], room))
}

// The four steps: ancestor sets by feerate into `order`, the two post passes there, and the output order into the room.
fn order_members<'g>(
    fees: &[i64],
    sizes: &[u64],
    ancestors: &'g [u64],
    descendants: &'g [u64],
    order: &mut [usize],
    room: &mut [usize],
) -> usize
    requires { Ready fees.now ancestors.now order.old room.old }
    ensures value { result ≡ length (steps_of fees.now sizes.now (mem_at ancestors.now) (mem_at descendants.now)) }
    ensures room_after { room.new ≡ steps_of fees.now sizes.now (mem_at ancestors.now) (mem_at descendants.now) ++ drop result room.old }
{
    candidates::ancestor_order(fees, sizes, ancestors, descendants, order);
    passes::back_pass(fees, sizes, descendants, order);
    passes::forward_pass(fees, sizes, ancestors, order);
    output_order::output_order(fees, sizes, ancestors, order, room)
}
