// Module 8 of document 01 as definitions (specs/Module8.antt, specs/Calls.antt), with the look-ups that its calls share: where a txid stands,
// the lowest free slot, how many entries there are, and which slots a list of parents names. A look-up reads every slot at most once,
// less than the test of refusal 12 before it; a list of parents takes a look-up for each.

#![tactic(auto)]

ghost use Rattle.std.specs.Prelude.{◌≡◌, cond, ◌||◌, length};
ghost use Rattle.lists.specs.Below.{some_below};
ghost use Rattle.txset.specs.Sets.{has_in};
ghost use Rattle.slotsets.specs.SlotSets.{set_words, set_of};
ghost use Rattle.pool_table.specs.Pool.{slot_count, entries};
ghost use Rattle.pool_table.specs.Words.{pool_of};
ghost use Rattle.pool_rules.specs.Module8.{holds, is_in, slot_of, lowest_free, is_place_of, is_listed};
ghost use Rattle.pool_rules.specs.Calls.{placed, no_slot, placed_from, totals_from, placed_of};

use refusals::Refusal;
use txids::Txid;

// What add, remove and set_cost answer C: 0 and the entry's slot, or a refusal's number and 0.
#[repr(C)]
#[derive(Clone, Copy)]
pub struct Placed {
    pub answer: u64,
    pub slot: usize,
}

impl From<Result<usize, Refusal>> for Placed {
    ghost from_gives = { λ r placed. placed ≡ placed_from r };

    fn from(outcome: Result<usize, Refusal>) -> Placed {
        match outcome {
            Ok(slot) => Placed { answer: 0, slot },
            Err(refusal) => Placed {
                answer: refusal.number(),
                slot: 0,
            },
        }
    }
}

// A pool in sums: its entries, and their raw weight together.
#[derive(Clone, Copy)]
pub struct Sums {
    pub entries: usize,
    pub weight: u64,
}

// What totals answers C: 0 and the sums, or a refusal's number and zeros.
#[repr(C)]
#[derive(Clone, Copy)]
pub struct Totals {
    pub answer: u64,
    pub entries: usize,
    pub weight: u64,
}

impl From<Result<Sums, Refusal>> for Totals {
    ghost from_gives = { λ r totals. totals ≡ totals_from r };

    fn from(outcome: Result<Sums, Refusal>) -> Totals {
        match outcome {
            Ok(sums) => Totals {
                answer: 0,
                entries: sums.entries,
                weight: sums.weight,
            },
            Err(refusal) => Totals {
                answer: refusal.number(),
                entries: 0,
                weight: 0,
            },
        }
    }
}

// Whether slot s holds the entry with this txid. A free slot's words are those of the txid of 32 zero bytes, which may be an entry's.
fn holds(table: &[u64], s: usize, txid: Txid) -> bool
    ensures { result ≡ holds (pool_of table.now) txid s }
{
    if pool_table::is_occupied(table, s) {
        return pool_table::txid(table, s) == txid;
    }
    false
}

// Where a txid stands. By cases, the number of document 01 and the slot.
pub fn find(table: &[u64], txid: Txid) -> Option<usize>
    ensures { placed_of result ≡ cond (is_in (pool_of table.now) txid) (placed (slot_of (pool_of table.now) txid)) (no_slot 10) }
{
    for s in 0..pool_table::slots(table) {
        if holds(table, s, txid) {
            return Some(s);
        }
    }
    None
}

// The lowest free slot, if there is one.
pub fn lowest_free(table: &[u64]) -> Option<usize>
    ensures { result ≡ some_below (slot_count (pool_of table.now)) (lowest_free (pool_of table.now)) }
{
    for slot in 0..pool_table::slots(table) {
        if !pool_table::is_occupied(table, slot) {
            return Some(slot);
        }
    }
    None
}

// How many entries the pool has.
pub fn count_entries(table: &[u64]) -> usize
    ensures { result ≡ entries (pool_of table.now) }
{
    let mut count: usize = 0;
    // Those below s are counted.
    for s in 0..pool_table::slots(table) {
        if pool_table::is_occupied(table, s) {
            count += 1;
        }
    }
    count
}

// Enters the place of a listed txid, unless it is the own one or stands nowhere.
fn enter(set: &mut [u64], table: &[u64], own: Txid, txid: Txid)
    requires { length set.old ≡ set_words }
    ensures { set.new ≡ set_of (λ i. has_in set.old i || is_place_of (pool_of table.now) own txid i) }
{
    if txid == own {
        return;
    }
    let Some(s) = find(table, txid) else {
        return;
    };
    slotsets::insert(set, s);
}

// The places of the listed txids that stand in the pool, the own one left out. `listed` has 32 bytes for each; what is left of a last one
// that is not whole is not read.
pub fn listed_slots(table: &[u64], own: Txid, listed: &[u8]) -> [u64; 16]
    ensures { result ≡ set_of (is_listed (pool_of table.now) own listed.now) }
{
    let mut set = [0u64; 16];
    // `set` has the places of the first j.
    for j in 0..listed.len() / 32 {
        enter(&mut set, table, own, Txid::at(listed, 32 * j));
    }
    set
}
