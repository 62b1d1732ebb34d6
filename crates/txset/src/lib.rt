// Module 2 of document 01: sets of cluster positions. Their meaning is membership, `mem` of specs/Sets.antt; that a
// set is one word is known in this crate alone. A position that no set can hold is in none, and adding it changes nothing.
// An operation on whole sets costs as much as one on a number, which is why ancestors are kept as sets.

#![tactic(auto)]

ghost use Rattle.std.specs.Prelude.{◌≡◌, Bool, true, false, not, ◌&&◌, ◌||◌, ℕ, eqb, ltb};
ghost use Rattle.std.specs.Iterator.{YieldsFirst, item_count};
ghost use Rattle.txset.specs.Sets.{members, mem, is_position, size, is_empty, is_subset, overlap, lowest_of, set_at, put_at, Joined};

// How many positions a set can hold.
pub const POSITIONS: usize = 64;

// How many words an array has that holds a set for each position.
pub const SET_WORDS: usize = POSITIONS;

#[derive(Clone, Copy)]
pub struct TxSet {
    pub word: u64,
}

impl TxSet {
    pub fn empty() -> TxSet
        ensures { (i : ℕ) → mem result i ≡ false }
    {
        TxSet { word: 0 }
    }

    // The positions 0..n-1. A shift by 64 is undefined, so the full set is its own case.
    pub fn full(n: usize) -> TxSet
        ensures { (i : ℕ) → mem result i ≡ (is_position i && ltb i n) }
    {
        if POSITIONS <= n {
            return TxSet { word: u64::MAX };
        }
        TxSet {
            word: (1u64 << n) - 1,
        }
    }

    pub fn singleton(k: usize) -> TxSet
        ensures { (i : ℕ) → mem result i ≡ (is_position i && eqb i k) }
    {
        if POSITIONS <= k {
            return TxSet { word: 0 };
        }
        TxSet { word: 1u64 << k }
    }

    pub fn contains(self, k: usize) -> bool
        ensures { result ≡ mem self k }
    {
        if POSITIONS <= k {
            return false;
        }
        self.word >> k & 1 == 1
    }

    pub fn insert(self, k: usize) -> TxSet
        ensures { (i : ℕ) → mem result i ≡ (mem self i || (is_position i && eqb i k)) }
    {
        self.union(TxSet::singleton(k))
    }

    pub fn remove(self, k: usize) -> TxSet
        ensures { (i : ℕ) → mem result i ≡ (mem self i && not (eqb i k)) }
    {
        self.subtract(TxSet::singleton(k))
    }

    pub fn union(self, other: TxSet) -> TxSet
        ensures { (i : ℕ) → mem result i ≡ (mem self i || mem other i) }
    {
        TxSet {
            word: self.word | other.word,
        }
    }

    pub fn intersection(self, other: TxSet) -> TxSet
        ensures { (i : ℕ) → mem result i ≡ (mem self i && mem other i) }
    {
        TxSet {
            word: self.word & other.word,
        }
    }

    pub fn subtract(self, other: TxSet) -> TxSet
        ensures { (i : ℕ) → mem result i ≡ (mem self i && not (mem other i)) }
    {
        TxSet {
            word: self.word & !other.word,
        }
    }

    pub fn is_empty(self) -> bool
        ensures { result ≡ is_empty self }
    {
        self.word == 0
    }

    pub fn is_subset(self, other: TxSet) -> bool
        ensures { result ≡ is_subset self other }
    {
        self.subtract(other).is_empty()
    }

    pub fn overlaps(self, other: TxSet) -> bool
        ensures { result ≡ overlap self other }
    {
        !self.intersection(other).is_empty()
    }

    pub fn count(self) -> usize
        ensures { result ≡ size self }
    {
        u64::count_ones(self.word) as usize
    }

    // The lowest member, or POSITIONS where there is none.
    // stays: every caller has a set that is not empty, and would have a None to throw away.
    pub fn lowest(self) -> usize
        ensures { result ≡ lowest_of self }
    {
        u64::trailing_zeros(self.word) as usize
    }

    pub fn without_lowest(self) -> TxSet
        ensures { (i : ℕ) → mem result i ≡ (mem self i && not (eqb i (lowest_of self))) }
    {
        let word = self.word;
        if word == 0 {
            return self;
        }
        TxSet {
            word: word & (word - 1),
        }
    }

    // The members, upwards.
    pub fn iter(self) -> Members
        ensures { result.rest ≡ self }
    {
        Members { rest: self }
    }

    // The i-th set of a list of sets; past its end, the empty set.
    pub fn at(sets: &[u64], i: usize) -> TxSet
        ensures { result ≡ set_at sets.now i }
    {
        if i < sets.len() {
            return TxSet { word: sets[i] };
        }
        TxSet { word: 0 }
    }

    // Writes the set as the i-th of a list of sets; past its end, nothing.
    pub fn put(self, sets: &mut [u64], i: usize)
        ensures { sets.new ≡ put_at sets.old i self }
    {
        if i < sets.len() {
            sets[i] = self.word;
        }
    }

    // Adds the set's members to the i-th of a list of sets for each i in `walk`; past the list's end, nothing.
    // stays: it promises `Joined` for any list; depgraph's own asks that each set of the walk has a place, and tests no index.
    pub fn join(self, sets: &mut [u64], walk: TxSet)
        ensures { Joined walk self sets.old sets.new }
    {
        // The sets of those passed have taken the members of this one; all others are as they were.
        for i in walk.iter() {
            let old = TxSet::at(sets, i);
            old.union(self).put(sets, i);
        }
    }
}

// A walk over the members of a set, upwards.
#[derive(Clone, Copy)]
pub struct Members {
    rest: TxSet,
}

impl Iterator for Members {
    type Item = usize;

    ghost next_gives = { YieldsFirst (λ m. members m.rest) };

    ghost remaining = { item_count (λ m. members m.rest) };

    fn next(&mut self) -> Option<usize> {
        let rest = self.rest;
        if rest.is_empty() {
            return None;
        }
        self.rest = rest.without_lowest();
        Some(rest.lowest())
    }
}
