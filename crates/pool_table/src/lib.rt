// Module 8 of document 01, the lent table: where its words stand, and one function for each thing that is read or written there. A pool
// operator's whole state is this one block of memory: it is lent, copied or stored as it is. Nothing outside this crate knows an offset;
// what the words mean is the record `Pool` of specs/, and everything above speaks of that record alone.

#![tactic(auto)]

ghost use Rattle.std.specs.Prelude.{◌≡◌, false, ◌&&◌, ◌≤◌, length, get_or, eqb, ltb, MatchOption};
ghost use Rattle.lists.specs.Lists.{all_of};
ghost use Rattle.txset.specs.Sets.{has_in};
ghost use Rattle.pool_table.specs.Pool.{slot_at, slot_count, occupied, free};
ghost use Rattle.pool_table.specs.Words.{is_legal, pool_of, slot_words, IsRow, HasRow, side_at};
ghost use Rattle.pool_table.specs.Ranges.{limits_in_range, entry_in_range};
ghost use Rattle.pool_table.specs.Links.{side_of, links_at, has_links};
ghost use Rattle.pool_table.specs.Changes.{Becomes, changed, with_entry, with_link, unlinked, with_total, made};

use slotsets::{CAPACITY, SET_WORDS};
use txids::Txid;
use weights::RawWeight;

// The header: the count limit, the size limit, the bytes per sigop, the total weight.
const HEADER: usize = 4;

const TOTAL: usize = 3;

// A row: the txid's four words, the fee, the raw weight, the sigop cost, the sets of parents and of children.
const ROW: usize = 39;

const FEE: usize = 4;

const RAW: usize = 5;

const COST: usize = 6;

const PARENTS: usize = 7;

const CHILDREN: usize = 23;

// What making a pool stores.
#[derive(Clone, Copy)]
pub struct Limits {
    pub count: u64,
    pub size: u64,
    pub bytes_per_sigop: u64,
}

// What an entry holds besides its links.
#[derive(Clone, Copy)]
pub struct Entry {
    pub txid: Txid,
    pub fee: u64,
    pub weight: RawWeight,
    pub cost: u64,
}

// The two sets of links of a slot.
#[derive(Clone, Copy)]
pub enum Side {
    Parents,
    Children,
}

impl Limits {
    #[tactic(auto, unfolding(crate::specs::Ranges::limits_in_range))]
    pub fn in_range(self) -> bool
        ensures { result ≡ limits_in_range self }
    {
        1 <= self.count && self.count <= 64 && 1 <= self.size && self.size <= 101_000
    }

    pub fn of(table: &[u64]) -> Limits
        ensures { result ≡ (pool_of table.now).limits }
    {
        Limits {
            count: header_word(table, 0),
            size: header_word(table, 1),
            bytes_per_sigop: header_word(table, 2),
        }
    }
}

impl Entry {
    #[tactic(auto, unfolding(crate::specs::Ranges::entry_in_range))]
    pub fn in_range(self) -> bool
        ensures { result ≡ entry_in_range self }
    {
        let raw = self.weight.0;
        self.fee <= 2_100_000_000_000_000 && 1 <= raw && raw <= 4_000_000
    }

    // What slot s holds; past the last slot, what a free one does.
    pub fn at(table: &[u64], s: usize) -> Entry
        ensures { result ≡ (slot_at (pool_of table.now) s).entry }
    {
        let txid = txid(table, s);
        let Some(row) = row(table, s) else {
            return Entry {
                txid,
                fee: 0,
                weight: RawWeight(0),
                cost: 0,
            };
        };
        Entry {
            txid,
            fee: row[FEE],
            weight: RawWeight(row[RAW]),
            cost: row[COST],
        }
    }
}

// How many whole slots a table has.
pub fn slots(table: &[u64]) -> usize
    ensures { result ≡ slot_count (pool_of table.now) }
{
    table.len().saturating_sub(HEADER) / ROW
}

// Whether a table is a header and 1 to 1,024 whole slots.
pub fn is_legal(table: &[u64]) -> bool
    ensures { result ≡ is_legal (length table.now) }
{
    let n = slots(table);
    if n < 1 || CAPACITY < n {
        return false;
    }
    HEADER + n * ROW == table.len()
}

// The words of a slot's row; none where there is no such slot. Every read of a slot asks this once. Of a slot that a pool can have it asks the
// row's end, since a compare of two txids in a sort would divide each time.
fn row(table: &[u64], s: usize) -> Option<&[u64]>
    ensures { MatchOption result (slot_count (pool_of table.now) ≤ s) (λ r. IsRow (pool_of table.now) s r.now) }
{
    if CAPACITY <= s && slots(table) <= s {
        return None;
    }
    let from = HEADER + s * ROW;
    let end = from + ROW;
    if table.len() < end {
        return None;
    }
    Some(&table[from..end])
}

// The word at a place of the header; past the table's end, 0.
fn header_word(table: &[u64], at: usize) -> u64
    ensures { result ≡ get_or table.now at 0 }
{
    table.get(at).copied().unwrap_or(0)
}

pub fn total(table: &[u64]) -> u64
    ensures { result ≡ (pool_of table.now).total }
{
    header_word(table, TOTAL)
}

// What is read of a slot; past the last slot it is that of a free one.
pub fn txid(table: &[u64], s: usize) -> Txid
    ensures { result ≡ (slot_at (pool_of table.now) s).entry.txid }
{
    let Some(row) = row(table, s) else {
        return Txid {
            w0: 0,
            w1: 0,
            w2: 0,
            w3: 0,
        };
    };
    Txid {
        w0: row[0],
        w1: row[1],
        w2: row[2],
        w3: row[3],
    }
}

pub fn weight(table: &[u64], s: usize) -> RawWeight
    ensures { result ≡ (slot_at (pool_of table.now) s).entry.weight }
{
    let Some(row) = row(table, s) else {
        return RawWeight(0);
    };
    RawWeight(row[RAW])
}

pub fn is_occupied(table: &[u64], s: usize) -> bool
    ensures { result ≡ occupied (pool_of table.now) s }
{
    weight(table, s).0 != 0
}

// Whether every word is 0: their digits together, so that no word waits for a test of the one before.
fn are_zero(words: &[u64]) -> bool
    ensures { result ≡ all_of (eqb 0) words.now }
{
    let mut digits: u64 = 0;
    for &word in words {
        digits |= word;
    }
    digits == 0
}

// Whether every word of a slot's row is 0.
pub fn is_zeroed(table: &[u64], s: usize) -> bool
    ensures { result ≡ all_of (eqb 0) (slot_words (slot_at (pool_of table.now) s)) }
{
    let Some(row) = row(table, s) else {
        return true;
    };
    are_zero(row)
}

// Whether slot s names any slot as its parent or its child.
pub fn is_linked(table: &[u64], s: usize) -> bool
    ensures { result ≡ has_links (slot_at (pool_of table.now) s) }
{
    let Some(row) = row(table, s) else {
        return false;
    };
    !are_zero(&row[PARENTS..])
}

// Where a side's set starts in a row.
fn offset(side: Side) -> usize
    ensures { result ≡ side_at side }
{
    match side {
        Side::Parents => PARENTS,
        Side::Children => CHILDREN,
    }
}

// The words of a slot's set on a side; past the last slot, none.
pub fn links(table: &[u64], side: Side, s: usize) -> &[u64]
    ensures { result.now ≡ links_at (pool_of table.now) side s }
{
    let Some(row) = row(table, s) else {
        return &[];
    };
    let from = offset(side);
    let end = from + SET_WORDS;
    &row[from..end]
}

// Word j of a slot's parents or children: 64 slots, from 64 j on; past the set's end, 0.
pub fn link_word(table: &[u64], side: Side, s: usize, j: usize) -> u64
    ensures { result ≡ get_or (side_of side (slot_at (pool_of table.now) s)) j 0 }
{
    if SET_WORDS <= j {
        return 0;
    }
    let Some(row) = row(table, s) else {
        return 0;
    };
    row[offset(side) + j]
}

// Whether slot s names slot b on a side.
pub fn names(table: &[u64], side: Side, s: usize, b: usize) -> bool
    ensures { result ≡ has_in (side_of side (slot_at (pool_of table.now) s)) b }
{
    link_word(table, side, s, b / 64) >> (b % 64) & 1 == 1
}

// Where the row of a slot starts, in a table of a legal length; none where there is no such slot. Every write of a slot asks this first: a
// table that is not of a legal length stays as it is, and so does one that has no such slot.
fn row_of(table: &[u64], s: usize) -> Option<usize>
    ensures { MatchOption result ((is_legal (length table.now) && ltb s (slot_count (pool_of table.now))) ≡ false)
        (λ at. HasRow table.now s at) }
{
    if !is_legal(table) || slots(table) <= s {
        return None;
    }
    Some(HEADER + s * ROW)
}

pub fn put_entry(table: &mut [u64], s: usize, e: Entry)
    ensures { Becomes (changed s (with_entry e)) table.old table.new }
{
    let Some(at) = row_of(table, s) else {
        return;
    };
    let end = at + PARENTS;
    let id = e.txid;
    let words = [id.w0, id.w1, id.w2, id.w3, e.fee, e.weight.0, e.cost];
    table[at..end].copy_from_slice(&words);
}

pub fn put_total(table: &mut [u64], weight: u64)
    ensures { Becomes (with_total weight) table.old table.new }
{
    if !is_legal(table) {
        return;
    }
    table[TOTAL] = weight;
}

// One link more; a slot that no set can hold is not linked.
pub fn link(table: &mut [u64], side: Side, s: usize, b: usize)
    ensures { Becomes (changed s (with_link side b)) table.old table.new }
{
    let Some(at) = row_of(table, s) else {
        return;
    };
    let from = at + offset(side);
    let end = from + SET_WORDS;
    slotsets::insert(&mut table[from..end], b);
}

// Takes slot b out of both sets of slot s.
pub fn unlink(table: &mut [u64], s: usize, b: usize)
    ensures { Becomes (changed s (unlinked b)) table.old table.new }
{
    let Some(at) = row_of(table, s) else {
        return;
    };
    let from = at + PARENTS;
    let mid = from + SET_WORDS;
    let end = mid + SET_WORDS;
    slotsets::remove(&mut table[from..mid], b);
    slotsets::remove(&mut table[mid..end], b);
}

pub fn free_slot(table: &mut [u64], s: usize)
    ensures { Becomes (changed s (λ x. free)) table.old table.new }
{
    let Some(at) = row_of(table, s) else {
        return;
    };
    let end = at + ROW;
    table[at..end].fill(0);
}

// Every slot free, and the limits put anew.
pub fn make_empty(table: &mut [u64], limits: Limits)
    ensures { Becomes (λ p. made limits (slot_count p)) table.old table.new }
{
    if !is_legal(table) {
        return;
    }
    table.fill(0);
    table[0] = limits.count;
    table[1] = limits.size;
    table[2] = limits.bytes_per_sigop;
}
