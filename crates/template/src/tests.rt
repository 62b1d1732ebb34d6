// The test of one chunk: the seven reasons of document 01 to pass it over, in its order, and what is selected where none holds.
ghost use Rattle.std.specs.Prelude.{◌≡◌, true, ◌+◌, ◌≤◌, min, [], length, take};
ghost use Rattle.lists.specs.Lists.{any_of, all_of};
ghost use Rattle.txset.specs.Sets.{has_in};
ghost use Rattle.weights.specs.Weights.{most};
ghost use Rattle.slotsets.specs.SlotSets.{capacity};
ghost use Rattle.pool_table.specs.Words.{pool_of};
ghost use Rattle.pool_table.specs.WellFormed.{sound};
ghost use Rattle.template_rules.specs.Filling.{settings, withheld};
ghost use Rattle.template.specs.Selecting.{Occupied, Laid};
ghost use Rattle.template.specs.Trying.{nothing_used, sums_of, Stands, chunk_with, Tried};

use crate::collect::collect_all;
use chunk_tests::{is_below, is_negative, over_budget, over_sigops};
use feefrac::FeeFrac;
use pool_table::Entry;
use slotsets::contains;
use template_rules::{Reason, Terms};
use weights::RawWeight;

// Some slots in sums: how many, their raw weight, and their sigop cost, held at 2^64 - 1.
#[derive(Clone, Copy)]
pub struct Used {
    pub count: usize,
    pub weight: RawWeight,
    pub cost: u64,
}

// A chunk is taken, with what is selected then, or passed over.
// stays: document 01 names this form ("an enum outcome whose Passed case holds a reason enum").
#[derive(Clone, Copy)]
pub enum Outcome {
    Taken(Used),
    Passed(Reason),
}

// What a chunk is tried with: the block's terms, its feerate, and what is selected, in sums.
#[derive(Clone, Copy)]
pub struct Turn {
    pub terms: Terms,
    pub rate: FeeFrac,
    pub used: Used,
}

impl Used {
    pub fn nothing() -> Used
        ensures { result ≡ nothing_used }
    {
        Used {
            count: 0,
            weight: RawWeight(0),
            cost: 0,
        }
    }
}

fn is_withheld(marks: &[u8], s: usize) -> bool
    ensures { result ≡ withheld marks.now s }
{
    if s < marks.len() {
        return marks[s] != 0;
    }
    false
}

// Whether a mark withholds one of the slots.
pub fn any_withheld(marks: &[u8], slots: &[usize]) -> bool
    ensures { result ≡ any_of (withheld marks.now) slots.now }
{
    slots.iter().any(|&s| is_withheld(marks, s))
}

// Whether each of the slots is in the set.
pub fn all_taken(taken: &[u64], slots: &[usize]) -> bool
    ensures { result ≡ all_of (has_in taken.now) slots.now }
{
    slots.iter().all(|&s| contains(taken, s))
}

// Some slots in sums. Raw weights are small in a sound pool, so that their sum fits; a sigop cost can be any.
pub fn sum_slots(table: &[u64], slots: &[usize]) -> Used
    requires table_value { sound (pool_of table.now) ≡ true }
    requires occupied { Occupied (pool_of table.now) slots.now × (length slots.now ≤ capacity) }
    ensures { result ≡ sums_of (pool_of table.now) slots.now }
{
    let mut weight: u64 = 0;
    let mut cost: u64 = 0;
    // The sums of those passed.
    for &s in slots {
        let entry = Entry::at(table, s);
        weight += entry.weight.0;
        cost = cost.saturating_add(entry.cost);
    }
    Used {
        count: slots.len(),
        weight: RawWeight(weight),
        cost,
    }
}

// The outcome of one chunk at its turn. What it would bring stands in `picked` behind what is selected, and in `taken` with it.
pub fn try_chunk(
    table: &[u64],
    marks: &[u8],
    members: &[usize],
    firsts: &[usize],
    ups: &[u64],
    slots: &[usize],
    turn: Turn,
    taken: &mut [u64],
    picked: &mut [usize],
) -> Outcome
    requires laid { Laid (pool_of table.now) members.now firsts.now ups.now }
    requires occupied { Occupied (pool_of table.now) slots.now }
    requires stands { Stands (pool_of table.now) (take turn.used.count picked.old) turn.used taken.old picked.old }
    ensures { Tried (pool_of table.now) (settings [] marks.now turn.terms)
        (take turn.used.count picked.old) (chunk_with slots.now turn.rate)
        result taken.new picked.new }
{
    let terms = turn.terms;
    let rate = turn.rate;
    let used = turn.used;
    if is_negative(rate) {
        return Outcome::Passed(Reason::NegativeFee);
    }
    if is_below(terms.minimum, rate) {
        return Outcome::Passed(Reason::BelowMinimum);
    }
    if any_withheld(marks, slots) {
        return Outcome::Passed(Reason::Withheld);
    }
    if all_taken(taken, slots) {
        return Outcome::Passed(Reason::NothingUnselected);
    }
    let n = used.count;
    let end = collect_all(table, members, firsts, ups, slots, taken, picked, n);
    let added = &picked[n..end];
    if any_withheld(marks, added) {
        return Outcome::Passed(Reason::WithheldAncestor);
    }
    let more = sum_slots(table, added);
    if over_budget(terms.budget.0, used.weight, more.weight) {
        return Outcome::Passed(Reason::OverBudget);
    }
    if over_sigops(terms.reserve, used.cost, more.cost) {
        return Outcome::Passed(Reason::OverSigops);
    }
    Outcome::Taken(Used {
        count: used.count + more.count,
        weight: RawWeight(used.weight.0 + more.weight.0),
        cost: used.cost + more.cost,
    })
}
