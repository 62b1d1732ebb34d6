// The links of a pool's table, whatever it holds: whether parents and children name each other, and whether no chain of parents closes.

#![tactic(auto)]

ghost use Rattle.std.specs.Prelude.{◌≡◌, true, false, not, ◌&&◌, List, ℕ, ◌+◌, ◌*◌, ◌<◌, ◌≤◌, eqb, length, get_or, take, replicate, MatchBool};
ghost use Rattle.lists.specs.Below.{count_from};
ghost use Rattle.txset.specs.Sets.{has_in, mem};
ghost use Rattle.slotsets.specs.SlotSets.{capacity, set_words};
ghost use Rattle.pool_table.specs.Pool.{slot_at, slot_count};
ghost use Rattle.pool_table.specs.Words.{is_legal, pool_of};
ghost use Rattle.pool_table.specs.Links.{has_links};
ghost use Rattle.pool_table.specs.WellFormed.{links_mutual, acyclic};
ghost use Rattle.pool_links.specs.Steps.{is_tied, no_link, of_done, children_to, Walk, Walking};

use pool_table::{Side, is_legal, is_linked, is_occupied, links, names, slots};
use slotsets::CAPACITY;
use txset::TxSet;

// The walk: of each slot, how many links from its parents are to come, and the queue of those slots with links that wait for none.
#[derive(Clone, Copy)]
struct Queue {
    needs: [u16; CAPACITY],
    slots: [u16; CAPACITY],
    end: usize,
}

// Whether a table of a legal length has mutual links and no chain of parents that comes back to where it started. Each link is walked once,
// from the parent to the child, and each slot with links is queued when all links that it names from its parents were walked. Those on a
// chain that closes wait for each other, and one that names a parent that does not answer waits for it: not all get into the queue.
pub fn links_stand(table: &[u64]) -> bool
    ensures { result ≡ (is_legal (length table.now)
        && (links_mutual (pool_of table.now) && acyclic (pool_of table.now))) }
{
    if !is_legal(table) {
        return false;
    }
    let mut queue = Queue {
        needs: [0u16; CAPACITY],
        slots: [0u16; CAPACITY],
        end: 0,
    };
    let linked = queue.survey(table);
    let mut at: usize = 0;
    // stays: the queue grows while it is walked, so its end is not that of a range.
    while at < queue.end {
        if !queue.release(table, at) {
            return false;
        }
        at += 1;
    }
    queue.end == linked
}

impl Queue {
    // Notes how many parents each slot names, and queues those that have links and name none. How many slots have links.
    fn survey(&mut self, table: &[u64]) -> usize
        requires { (is_legal (length table.now) ≡ true) × (self.old.needs ≡ replicate capacity 0) × (self.old.end ≡ 0) }
        ensures { Walk (pool_of table.now) no_link self.new.needs self.new.slots self.new.end
            × (result ≡ count_from (λ c. has_links (slot_at (pool_of table.now) c)) (slot_count (pool_of table.now)) 0) }
    {
        let mut linked: usize = 0;
        for s in 0..slots(table) {
            if !is_linked(table, s) {
                continue;
            }
            let parents = count(links(table, Side::Parents, s));
            self.needs[s] = parents as u16;
            linked += 1;
            if parents != 0 {
                continue;
            }
            self.slots[self.end] = s as u16;
            self.end += 1;
        }
        linked
    }

    // Walks the links from the slot at one place of the queue to its children: whether they are mutual.
    fn release(&mut self, table: &[u64], at: usize) -> bool
        requires { Walk (pool_of table.now) (of_done (pool_of table.now) (take at self.old.slots)) self.old.needs self.old.slots self.old.end
            × (at < self.old.end) }
        ensures { MatchBool result
            (Walk (pool_of table.now) (of_done (pool_of table.now) (take (at + 1) self.new.slots)) self.new.needs self.new.slots self.new.end
            × (at < self.new.end))
            (links_mutual (pool_of table.now) ≡ false) }
    {
        let a = usize::from(self.slots[at]);
        let words = links(table, Side::Children, a);
        for j in filled(words).iter() {
            let word = TxSet { word: words[j] };
            if !self.release_word(table, at, a, j, word) {
                return false;
            }
        }
        true
    }

    // Walks the links to the children in one word: 64 slots, from 64 j on.
    fn release_word(&mut self, table: &[u64], at: usize, a: usize, j: usize, word: TxSet) -> bool
        requires j_lt_set_words { (j < set_words) × (word.word ≡ get_or (slot_at (pool_of table.now) a).children j 0) }
        requires walking { Walking (pool_of table.now) at a (children_to (pool_of table.now) a (64 * j)) self.old.needs self.old.slots self.old.end }
        ensures { MatchBool result
            (Walking (pool_of table.now) at a (children_to (pool_of table.now) a (64 * (j + 1))) self.new.needs self.new.slots self.new.end)
            (links_mutual (pool_of table.now) ≡ false) }
    {
        for i in word.iter() {
            let c = 64 * j + i;
            if !is_tied(table, a, c) {
                return false;
            }
            let left = self.needs[c] - 1;
            self.needs[c] = left;
            if left != 0 {
                continue;
            }
            self.slots[self.end] = c as u16;
            self.end += 1;
        }
        true
    }
}

// How many members a set has: those of its filled words.
fn count(set: &[u64]) -> usize
    requires { length set.now ≡ set_words }
    ensures { result ≡ count_from (has_in set.now) capacity 0 }
{
    let mut members: usize = 0;
    // Those of the words passed.
    for j in filled(set).iter() {
        members += TxSet { word: set[j] }.count();
    }
    members
}

// Which words of a set have members. Few have, and which ones a processor can't guess: a branch at each word would go wrong too often. So each
// word gives a bit without one, and who asks walks the bits that are set.
fn filled(words: &[u64]) -> TxSet
    requires { length words.now ≡ set_words }
    ensures { (k : ℕ) → mem result k ≡ not (eqb (get_or words.now k 0) 0) }
{
    let mut some = TxSet::empty();
    // Those of the first k words. An `if` that only inserts compiles to a choice; with `continue` it is a branch.
    for (k, &word) in words.iter().enumerate() {
        if word != 0 {
            some = some.insert(k);
        }
    }
    some
}

// Whether both slots are occupied, and c names a as its parent.
#[tactic(auto, unfolding(crate::specs::Steps::is_tied))]
fn is_tied(table: &[u64], a: usize, c: usize) -> bool
    ensures { result ≡ is_tied (pool_of table.now) a c }
{
    is_occupied(table, a) && is_occupied(table, c) && names(table, Side::Parents, c, a)
}
