// Sets of a pool's slots as words in a slice, by membership. Every function is total: a slot past the last word is in no set, and adding
// it changes nothing.

#![tactic(auto)]

ghost use Rattle.std.specs.Prelude.{◌≡◌, not, ◌&&◌, ◌||◌, ℕ, eqb, ltb, length};
ghost use Rattle.lists.specs.Below.{some_below};
ghost use Rattle.txset.specs.Sets.{has_in};
ghost use Rattle.slotsets.specs.SlotSets.{capacity, span, lowest_in};

use txset::TxSet;

// How many slots a pool can have, and the words of a set of them.
pub const CAPACITY: usize = 1024;

pub const SET_WORDS: usize = 16;

pub fn contains(set: &[u64], a: usize) -> bool
    ensures { result ≡ has_in set.now a }
{
    let j = a / 64;
    if j < set.len() {
        return set[j] >> (a % 64) & 1 == 1;
    }
    false
}

pub fn insert(set: &mut [u64], a: usize)
    ensures set_len_unchanged { length set.new ≡ length set.old }
    ensures by_index { (i : ℕ) → has_in set.new i ≡ (has_in set.old i || (ltb i (span set.old) && eqb i a)) }
{
    let j = a / 64;
    if j < set.len() {
        set[j] |= 1u64 << (a % 64);
    }
}

pub fn remove(set: &mut [u64], a: usize)
    ensures set_len_unchanged { length set.new ≡ length set.old }
    ensures by_index { (i : ℕ) → has_in set.new i ≡ (has_in set.old i && not (eqb i a)) }
{
    let j = a / 64;
    if j < set.len() {
        set[j] &= !(1u64 << (a % 64));
    }
}

// Adds the members of another set, as far as the first has words.
pub fn join(set: &mut [u64], more: &[u64])
    ensures set_len_unchanged { length set.new ≡ length set.old }
    ensures by_index { (i : ℕ) → has_in set.new i ≡ (has_in set.old i || (ltb i (span set.old) && has_in more.now i)) }
{
    for j in 0..set.len().min(more.len()) {
        set[j] |= more[j];
    }
}

// The lowest member of the slots that a pool can have.
pub fn lowest(set: &[u64]) -> Option<usize>
    ensures { result ≡ some_below capacity (lowest_in set.now) }
{
    for j in 0..set.len().min(SET_WORDS) {
        let w = set[j];
        if w != 0 {
            return Some(64 * j + u64::trailing_zeros(w) as usize);
        }
    }
    None
}

// The slots below n.
pub fn below(n: usize) -> [u64; SET_WORDS]
    ensures { (i : ℕ) → has_in result i ≡ (ltb i capacity && ltb i n) }
{
    let mut all = [0u64; SET_WORDS];
    for j in 0..SET_WORDS {
        all[j] = TxSet::full(n.saturating_sub(64 * j)).word;
    }
    all
}
