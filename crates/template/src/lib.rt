// Module 9 of document 01: the template, which is what a miner is paid by. The chunks of all clusters are tried, the best paying first, and
// each goes out with the ancestors that it needs, or is passed over and leaves no trace. Later, smaller chunks still fill what is left. A
// chunk costs a look at each of its slots, at the parents of what it brings, and a copy of the set of what is selected.

#![tactic(auto)]

ghost use Rattle.std.specs.Prelude.{◌≡◌, Ok, true, not, ◌||◌, eqb, IfOk, List, [], ◌∷◌, ◌≤◌, ◌<◌, length, ℤ};
ghost use Rattle.refusals.specs.Refusals.{answer_of, reply_from, answer_from};
ghost use Rattle.pool_table.specs.Pool.{slot_count};
ghost use Rattle.pool_table.specs.Words.{pool_of};
ghost use Rattle.pool_table.specs.WellFormed.{well_formed};
ghost use Rattle.pool_chunks.specs.Sorted.{delta_refusals, arrays, Sorted};
ghost use Rattle.template_rules.specs.Filling.{settings, template};
ghost use Rattle.template_rules.specs.Calls.{template_refusals, template_reply, template_room};
ghost use Rattle.template.specs.Trying.{Fillable, Filled, Wide};

mod collect;
mod tests;

use feefrac::FeeFrac;
use lists::copy;
use refusals::Refusal;
use template_rules::Terms;
use tests::{Outcome, Turn, Used};

// A pool of up to so many slots has its arrays in a few KiB: where there is little to do, clearing larger ones would be most of it.
const FEW: usize = 64;

// Writes the selected slots, in their order, to the room's start. A refusal says that 0 places are written, and so none is.
pub fn template(
    table: &[u64],
    deltas: &[i64],
    marks: &[u8],
    terms: Terms,
    room: &mut [usize],
) -> Result<usize, Refusal>
    ensures value { reply_from result ≡ template_reply table.now (settings deltas.now marks.now terms) room.old }
    ensures room_after { room.new
        ≡ template_room table.now (settings deltas.now marks.now terms) room.old }
{
    if pool_table::slots(table) <= FEW {
        return in_arrays::<65>(table, deltas, marks, terms, room);
    }
    in_arrays::<1025>(table, deltas, marks, terms, room)
}

// The same in arrays of N places: one for each slot, and one more.
fn in_arrays<const N: usize>(
    table: &[u64],
    deltas: &[i64],
    marks: &[u8],
    terms: Terms,
    room: &mut [usize],
) -> Result<usize, Refusal>
    requires wide { well_formed table.now ≡ true → slot_count (pool_of table.now) < N }
    requires few { N ≤ 1025 }
    ensures value { reply_from result ≡ template_reply table.now (settings deltas.now marks.now terms) room.old }
    ensures room_after { room.new
        ≡ template_room table.now (settings deltas.now marks.now terms) room.old }
{
    let mut members = [0usize; N];
    let mut bounds = [0usize; N];
    let mut firsts = [0usize; N];
    let mut listed = [0usize; N];
    let mut starts = [0usize; N];
    let mut order = [0usize; N];
    let mut ups = [0u64; N];
    let mut sizes = [0u64; N];
    let mut fees = [0i64; N];
    select_block_template(
        table,
        deltas,
        marks,
        terms,
        room,
        &mut members,
        &mut bounds,
        &mut firsts,
        &mut listed,
        &mut starts,
        &mut order,
        &mut ups,
        &mut sizes,
        &mut fees,
    )
}

// The call in lent arrays, each with a place for each slot and one more. What is selected stands at the start of `bounds`, which nothing
// else needs by then, until it is written.
fn select_block_template(
    table: &[u64],
    deltas: &[i64],
    marks: &[u8],
    terms: Terms,
    room: &mut [usize],
    members: &mut [usize],
    bounds: &mut [usize],
    firsts: &mut [usize],
    listed: &mut [usize],
    starts: &mut [usize],
    order: &mut [usize],
    ups: &mut [u64],
    sizes: &mut [u64],
    fees: &mut [i64],
) -> Result<usize, Refusal>
    requires { Wide table.now (length fees.old ∷ length members.old ∷ length bounds.old ∷ length firsts.old ∷ length listed.old
        ∷ length starts.old ∷ length order.old ∷ length ups.old ∷ length sizes.old ∷ []) }
    ensures value { reply_from result ≡ template_reply table.now (settings deltas.now marks.now terms) room.old }
    ensures room_after { room.new
        ≡ template_room table.now (settings deltas.now marks.now terms) room.old }
{
    let made = pool_chunks::all_chunks(
        table, deltas, members, bounds, firsts, listed, starts, order, ups, sizes, fees,
    );
    let count = checked(table, marks, room, made)?;
    let n = fill(
        table, marks, terms, count, members, firsts, ups, listed, starts, fees, sizes, order,
        bounds,
    );
    copy(&bounds[..n], &mut room[..n]);
    Ok(n)
}

// How many chunks there are, or the call's refusal, by what the table and the deltas come to by themselves. Of the room only its length is
// asked.
fn checked(
    table: &[u64],
    marks: &[u8],
    room: &[usize],
    made: Result<usize, Refusal>,
) -> Result<usize, Refusal>
    ensures told { (ds : List ℤ) (terms : Terms) → answer_from made ≡ answer_of (delta_refusals (well_formed table.now) table.now ds)
        → answer_from result ≡ answer_of (template_refusals table.now (settings ds marks.now terms) room.now) }
    ensures kept { IfOk result (λ n. made ≡ Ok n) }
{
    if goes_first(made) {
        return made;
    }
    if marks.len() != pool_table::slots(table) {
        return Err(Refusal::LengthsDiffer);
    }
    if room.len() < pool_rules::count_entries(table) {
        return Err(Refusal::RoomTooShort);
    }
    made
}

// Whether it is refused before the marks and the room are asked about: a delta out of its range is refused behind them.
fn goes_first(made: Result<usize, Refusal>) -> bool
    ensures { result ≡ not (eqb (answer_from made) 0 || eqb (answer_from made) 3) }
{
    match made {
        Ok(_) | Err(Refusal::OutOfRange) => false,
        Err(_) => true,
    }
}

// Tries the chunks in their order; answers how many slots are selected, which stand at the start of `picked`.
fn fill(
    table: &[u64],
    marks: &[u8],
    terms: Terms,
    count: usize,
    members: &[usize],
    firsts: &[usize],
    ups: &[u64],
    listed: &[usize],
    starts: &[usize],
    fees: &[i64],
    sizes: &[u64],
    order: &[usize],
    picked: &mut [usize],
) -> usize
    requires fillable { Fillable (pool_of table.now) (arrays count listed.now starts.now fees.now sizes.now order.now
        members.now firsts.now ups.now) }
    requires table_in_bounds { slot_count (pool_of table.now) < length picked.old }
    ensures { (ds : List ℤ) → Sorted (pool_of table.now) ds (arrays count listed.now starts.now
        fees.now sizes.now order.now members.now firsts.now ups.now)
        → Filled (template (pool_of table.now) (settings ds marks.now terms)) picked.new result }
{
    let mut taken = [0u64; 16];
    let mut used = Used::nothing();
    // The chunks passed were tried; `taken` has what is selected.
    for &c in &order[..count] {
        let from = starts[c];
        let to = starts[c + 1];
        let rate = FeeFrac::at(fees, sizes, c);
        let turn = Turn { terms, rate, used };
        let mut trial = taken;
        let outcome = tests::try_chunk(
            table,
            marks,
            members,
            firsts,
            ups,
            &listed[from..to],
            turn,
            &mut trial,
            picked,
        );
        let Outcome::Taken(more) = outcome else {
            continue;
        };
        taken = trial;
        used = more;
    }
    used.count
}
