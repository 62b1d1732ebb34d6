// Module 8 of document 01: add. The newcomer takes the lowest free slot and is linked with its parents in the pool, both ways; a
// cluster that would pass a limit is refused before anything is written.

#![tactic(auto)]

ghost use Rattle.std.specs.Prelude.{◌≡◌, ◌+◌, ◌^◌, ◌<◌};
ghost use Rattle.txset.specs.Sets.{has_in};
ghost use Rattle.pool_table.specs.Pool.{slot_count};
ghost use Rattle.pool_table.specs.Words.{pool_of};
ghost use Rattle.pool_table.specs.Changes.{Becomes};
ghost use Rattle.pool_rules.specs.Calls.{placed_from, entry_of, add_reply, after_add};
ghost use Rattle.pool_add.specs.Steps.{linked_to, put_in};

use pool_table::{Entry, Limits, Side};
use refusals::Refusal;
use txids::Txid;
use weights::RawWeight;

// Adds an entry with the parents that are listed, 32 bytes each; answers its slot.
pub fn add(
    table: &mut [u64],
    txid: [u8; 32],
    fee: u64,
    weight: u64,
    cost: u64,
    parents: &[u8],
) -> Result<usize, Refusal>
    ensures value { placed_from result ≡ add_reply table.old (entry_of txid fee weight cost) parents.now }
    ensures table_after { table.new ≡ after_add table.old (entry_of txid fee weight cost) parents.now }
{
    if !pool_check::is_well_formed(table) {
        return Err(Refusal::TableIllFormed);
    }
    if parents.len() % 32 != 0 {
        return Err(Refusal::LengthsDiffer);
    }
    let id = Txid::from(txid);
    let entry = Entry {
        txid: id,
        fee,
        weight: RawWeight(weight),
        cost,
    };
    if !entry.in_range() {
        return Err(Refusal::OutOfRange);
    }
    if pool_rules::find(table, id).is_some() {
        return Err(Refusal::TxidPresent);
    }
    let slot = pool_rules::lowest_free(table).ok_or(Refusal::NoSlotFree)?;
    let linked = pool_rules::listed_slots(table, id, parents);
    let union = pool_clusters::clusters_of(table, &linked);
    let limits = Limits::of(table);
    if limits.count <= union.count as u64 {
        return Err(Refusal::ClusterTooMany);
    }
    let together = RawWeight(union.weight.0 + weight);
    if limits.size < together.virtual_size() {
        return Err(Refusal::ClusterTooLarge);
    }
    put_in(table, slot, entry, &linked);
    Ok(slot)
}

// Writes an entry into a slot and links it with its parents.
fn put_in(table: &mut [u64], slot: usize, entry: Entry, parents: &[u64])
    requires { (pool_of table.old).total + entry.weight.0 < 2 ^ 64 }
    ensures { Becomes (put_in slot entry (has_in parents.now)) table.old table.new }
{
    let sum = pool_table::total(table) + entry.weight.0;
    pool_table::put_total(table, sum);
    pool_table::put_entry(table, slot, entry);
    link_parents(table, slot, parents);
}

// Links a slot with each of its parents: it names the parent, and the parent names it as a child.
fn link_parents(table: &mut [u64], slot: usize, parents: &[u64])
    ensures { Becomes (λ p. linked_to (has_in parents.now) slot (slot_count p) p) table.old table.new }
{
    // Those of the parents below s are linked.
    for s in 0..pool_table::slots(table) {
        if slotsets::contains(parents, s) {
            pool_table::link(table, Side::Parents, slot, s);
            pool_table::link(table, Side::Children, s, slot);
        }
    }
}
