// Module 5 of document 01 as a call: post_linearize. It checks its own input and leaves the order as it was where it refuses. It is for
// orders that come from elsewhere: what pays more moves forward as far as its dependencies let it. Beside the two passes it costs the
// closure of the links.

#![tactic(auto)]

ghost use Rattle.std.specs.Prelude.{◌≡◌, ◌≤◌, length};
ghost use Rattle.txset.specs.Sets.{positions};
ghost use Rattle.refusals.specs.Refusals.{refusal, success, reply_from, reply_of, kept_unless};
ghost use Rattle.post_linearize.specs.PostLinearize.{post_linearize, last_refusals, reply, order_after};

use depgraph::DepGraph;
use refusals::Refusal;
use txset::POSITIONS;

// Up to this many members the tables are small: clearing large ones would cost more than the passes.
const FEW: usize = 8;

// Improves an order of a cluster's members in place; the order lists positions of the slices, topological or not.
pub fn post_linearize(
    fees: &[i64],
    sizes: &[u64],
    parents: &[u64],
    order: &mut [usize],
) -> Result<usize, Refusal>
    ensures value { reply_from result ≡ reply fees.now sizes.now parents.now order.old }
    ensures order_after { order.new ≡ order_after fees.now sizes.now parents.now order.old }
{
    let n = fees.len();
    if sizes.len() != n {
        return Err(Refusal::LengthsDiffer);
    }
    if parents.len() != n {
        return Err(Refusal::LengthsDiffer);
    }
    if POSITIONS < n {
        return Err(Refusal::TooManyMembers);
    }
    if refusals::first_outside(fees).is_some() {
        return Err(Refusal::OutOfRange);
    }
    if n <= FEW {
        return in_tables::<FEW>(fees, sizes, parents, order);
    }
    in_tables::<POSITIONS>(fees, sizes, parents, order)
}

// The two passes with tables of N sets, behind the tests that need the graph or read the order.
fn in_tables<const N: usize>(
    fees: &[i64],
    sizes: &[u64],
    parents: &[u64],
    order: &mut [usize],
) -> Result<usize, Refusal>
    requires parents_len { length parents.now ≡ length fees.now }
    requires few { length fees.now ≤ N }
    requires small { N ≤ positions }
    ensures value { reply_from result ≡ reply_of refusal (last_refusals fees.now parents.now order.old)
        (success (length fees.now)) }
    ensures order_after { order.new ≡ kept_unless (last_refusals fees.now parents.now order.old)
        order.old (post_linearize fees.now sizes.now parents.now order.old) }
{
    let n = fees.len();
    let mut ancestors = [0u64; N];
    let mut descendants = [0u64; N];
    let graph = DepGraph::new(parents, &mut ancestors, &mut descendants);
    if graph.cyclic {
        return Err(Refusal::Cycle);
    }
    if !refusals::is_order(n, order) {
        return Err(Refusal::NotAnOrder);
    }
    passes::back_pass(fees, sizes, &descendants, order);
    passes::forward_pass(fees, sizes, &ancestors, order);
    Ok(n)
}
