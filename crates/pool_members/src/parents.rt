// Parents as positions in their cluster: modules 4 to 7 take a word for each member.
ghost use Rattle.std.specs.Prelude.{◌≡◌, true, ◌&&◌, ℕ, ◌<◌, length, get_or};
ghost use Rattle.txset.specs.Sets.{mem, is_position, has_in};
ghost use Rattle.pool_table.specs.Pool.{slot_at, slot_count};
ghost use Rattle.pool_table.specs.Words.{pool_of};
ghost use Rattle.pool_check.specs.Linked.{Linked};
ghost use Rattle.pool_members.specs.Members.{parents_of};
ghost use Rattle.pool_members.specs.Steps.{StoredAt, Within, is_rank, Closed};

use crate::listing::rank_all;
use pool_table::Side;
use slotsets::{SET_WORDS, lowest, remove};
use txset::TxSet;

// Notes for each member its place in the cluster, where the cluster starts, and its parents.
pub fn note_all(
    table: &[u64],
    members: &[usize],
    first: usize,
    places: &mut [usize],
    firsts: &mut [usize],
    ups: &mut [u64],
)
    requires linked { Linked table.now }
    requires closed { Closed (pool_of table.now) members.now }
    requires table_in_bounds { slot_count (pool_of table.now) < length places.old }
    requires table_in_bounds_2 { (slot_count (pool_of table.now) < length firsts.old) × (slot_count (pool_of table.now) < length ups.old) }
    ensures stored_at { StoredAt members.now (λ k. first) firsts.old firsts.new }
    ensures stored_at_2 { StoredAt members.now
        (λ k. parents_of (pool_of table.now) members.now (get_or members.now k 0))
        ups.old ups.new }
{
    rank_all(members, places);
    for &s in members {
        let above = parents_at(table, s, places);
        firsts[s] = first;
        ups[s] = above.word;
    }
}

// The places of the parents of slot s.
fn parents_at(table: &[u64], s: usize, places: &[usize]) -> TxSet
    requires { Within (slot_at (pool_of table.now) s).parents places.now }
    ensures { (i : ℕ) → mem result i
        ≡ (is_position i && is_rank places.now (has_in (slot_at (pool_of table.now) s).parents) i) }
{
    let mut left = parent_slots(table, s);
    let mut set = TxSet::empty();
    while let Some(a) = lowest(&left) {
        remove(&mut left, a);
        set = set.insert(places[a]);
    }
    set
}

fn parent_slots(table: &[u64], s: usize) -> [u64; SET_WORDS]
    ensures { (i : ℕ) → has_in result i ≡ has_in (slot_at (pool_of table.now) s).parents i }
{
    let mut set = [0u64; SET_WORDS];
    for j in 0..SET_WORDS {
        set[j] = pool_table::link_word(table, Side::Parents, s, j);
    }
    set
}
