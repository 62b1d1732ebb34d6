// Module 3 of document 01: the closure of a cluster's parent links. A transaction can be mined only after all its ancestors, and one that
// pays well pays for them too, so every rule above asks who is above whom. The closure is worked out once, in n rounds of at most n set
// operations; each question is one operation then.

#![tactic(auto)]

ghost use Rattle.std.specs.Prelude.{ℕ, ◌≤◌, length, take, ◌≡◌, Bool, true, ◌&&◌};
ghost use Rattle.ways.specs.Ways.{reach};
ghost use Rattle.txset.specs.Sets.{mem, set_at, Joined};
ghost use Rattle.depgraph.specs.Graph.{is_parent};
ghost use Rattle.depgraph.specs.Closed.{Room, Closed, placed};
ghost use Rattle.depgraph.specs.Steps.{Holds, Within, nothing, Owning, Placed};

use txset::{POSITIONS, TxSet};

// A graph whose two tables are lent: a set of ancestors and one of descendants for each position, each with the position itself.
// `cyclic` says whether some member is above itself.
#[derive(Clone, Copy)]
pub struct DepGraph {
    pub cyclic: bool,
}

impl DepGraph {
    // The graph of the members with these parents, or of the first of them where they are more than the positions or the sets of a table.
    // Past the members the tables are empty, whatever they held.
    pub fn new(parents: &[u64], ancestors: &mut [u64], descendants: &mut [u64]) -> DepGraph
        ensures { Closed (placed parents.now ancestors.old descendants.old)
            ancestors.new descendants.new result }
    {
        let n = places(parents, ancestors, descendants);
        ancestors.fill(0);
        descendants.fill(0);
        link(parents, n, ancestors, descendants);
        close(n, ancestors, descendants);
        let cyclic = include_self(n, ancestors, descendants);
        DepGraph { cyclic }
    }
}

// How many of the members have a place.
fn places(parents: &[u64], ancestors: &[u64], descendants: &[u64]) -> usize
    ensures { Placed parents.now ancestors.now descendants.now result }
{
    parents
        .len()
        .min(POSITIONS)
        .min(ancestors.len())
        .min(descendants.len())
}

// Enters each member's parents, and the member with each of them.
fn link(parents: &[u64], n: usize, ancestors: &mut [u64], descendants: &mut [u64])
    requires n_in_bounds { n ≤ length parents.now }
    requires room { Room n ancestors.old descendants.old }
    requires holds { Holds nothing ancestors.old descendants.old }
    ensures { Holds (is_parent (take n parents.now)) ancestors.new descendants.new }
{
    let all = TxSet::full(n);
    // The links of the first i members are entered, in both tables.
    for i in 0..n {
        let own = TxSet::at(parents, i).intersection(all).remove(i);
        own.put(ancestors, i);
        join(TxSet::singleton(i), descendants, own);
    }
}

// Closes the links by way of one member after the other: who is below it gains all that is above it.
fn close(n: usize, ancestors: &mut [u64], descendants: &mut [u64])
    requires { (f : ℕ → ℕ → Bool) × Holds f ancestors.old descendants.old }
    ensures { (f : ℕ → ℕ → Bool) → Holds f ancestors.old descendants.old
        → Holds (reach f n) ancestors.new descendants.new }
{
    // Whoever reaches another by way of members before k has it in its set.
    for k in 0..n {
        let above = TxSet::at(ancestors, k);
        let below = TxSet::at(descendants, k);
        join(above, ancestors, gaining(below, above));
        join(below, descendants, gaining(above, below));
    }
}

// Adds the set's members to the i-th of the sets for each i in `walk`. Each has one, so no index is tested.
fn join(set: TxSet, sets: &mut [u64], walk: TxSet)
    requires { Within walk sets.old }
    ensures { Joined walk set sets.old sets.new }
{
    // The sets of those passed have taken the members of this one; all others are as they were.
    for i in walk.iter() {
        let old = TxSet { word: sets[i] };
        let new = old.union(set);
        sets[i] = new.word;
    }
}

// Those of a walk that gain something of a set: none where it is empty, as it is for who has no parents or no children.
fn gaining(walk: TxSet, set: TxSet) -> TxSet
    ensures by_index { (i a : ℕ) → (mem result i && mem set a) ≡ (mem walk i && mem set a) }
    ensures by_index_2 { (i : ℕ) → mem result i ≡ true → mem walk i ≡ true }
{
    if set.is_empty() {
        return set;
    }
    walk
}

// Adds each member to its own sets, and answers whether one was above itself.
fn include_self(n: usize, ancestors: &mut [u64], descendants: &mut [u64]) -> bool
    requires { Room n ancestors.old descendants.old }
    ensures { (f : ℕ → ℕ → Bool) → Holds f ancestors.old descendants.old
        → Owning f n ancestors.new descendants.new result }
{
    let mut cyclic = false;
    // The first i are in their own sets; `cyclic` says whether one of them was there before.
    for i in 0..n {
        let above = TxSet::at(ancestors, i);
        cyclic |= above.contains(i);
        above.insert(i).put(ancestors, i);
        TxSet::at(descendants, i).insert(i).put(descendants, i);
    }
    cyclic
}
