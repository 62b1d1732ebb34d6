// Module 8 of document 01: the calls on a pool but for add. The pool is a table that the caller lends; every call but make tests it whole
// first (12), answers, and leaves in it just what the rules say, so that a miner's template never rests on a table that something else
// wrote into. A refusal leaves it word for word as it was.

#![tactic(auto)]

ghost use Rattle.std.specs.Prelude.{◌≡◌};
ghost use Rattle.refusals.specs.Refusals.{answer_from};
ghost use Rattle.txids.specs.Txids.{txid_at};
ghost use Rattle.pool_table.specs.Words.{pool_of, table_of};
ghost use Rattle.pool_table.specs.Changes.{Becomes};
ghost use Rattle.pool_rules.specs.Module8.{removed};
ghost use Rattle.pool_rules.specs.Calls.{placed_from, totals_from, make_answer, after_make, named_reply, after_remove, after_set_cost};
ghost use Rattle.pool_rules.specs.Calls.{clear_answer, after_clear, totals_reply};
ghost use Rattle.pool_calls.specs.Steps.{unlinked_all, Takable};

use pool_rules::Sums;
use pool_table::{Entry, Limits};
use refusals::Refusal;
use txids::Txid;

// Empties the table and stores the limits. What stood there before does not matter.
pub fn make(table: &mut [u64], limits: Limits) -> Result<(), Refusal>
    ensures value { answer_from result ≡ make_answer table.old limits }
    ensures table_after { table.new ≡ after_make table.old limits }
{
    if !pool_table::is_legal(table) || !limits.in_range() {
        return Err(Refusal::OutOfRange);
    }
    pool_table::make_empty(table, limits);
    Ok(())
}

// Takes an entry out of the pool, with its links; answers the slot where it stood.
pub fn remove(table: &mut [u64], txid: [u8; 32]) -> Result<usize, Refusal>
    ensures value { placed_from result ≡ named_reply table.old (txid_at txid 0) }
    ensures table_after { table.new ≡ after_remove table.old (txid_at txid 0) }
{
    let slot = place_of(table, txid)?;
    take_out(table, slot);
    Ok(slot)
}

// Puts an entry's sigop cost anew, and nothing else; answers its slot.
pub fn set_cost(table: &mut [u64], txid: [u8; 32], cost: u64) -> Result<usize, Refusal>
    ensures value { placed_from result ≡ named_reply table.old (txid_at txid 0) }
    ensures table_after { table.new ≡ after_set_cost table.old (txid_at txid 0) cost }
{
    let slot = place_of(table, txid)?;
    let mut entry = Entry::at(table, slot);
    entry.cost = cost;
    pool_table::put_entry(table, slot, entry);
    Ok(slot)
}

// Empties the pool and keeps its limits.
pub fn clear(table: &mut [u64]) -> Result<(), Refusal>
    ensures value { answer_from result ≡ clear_answer table.old }
    ensures table_after { table.new ≡ after_clear table.old }
{
    if !pool_check::is_well_formed(table) {
        return Err(Refusal::TableIllFormed);
    }
    let limits = Limits::of(table);
    pool_table::make_empty(table, limits);
    Ok(())
}

// How many entries there are, and their raw weight together.
pub fn totals(table: &[u64]) -> Result<Sums, Refusal>
    ensures { totals_from result ≡ totals_reply table.now }
{
    if !pool_check::is_well_formed(table) {
        return Err(Refusal::TableIllFormed);
    }
    Ok(Sums {
        entries: pool_rules::count_entries(table),
        weight: pool_table::total(table),
    })
}

// The slot of the entry with this txid, in a table that is tested first: how remove and set_cost begin.
fn place_of(table: &[u64], txid: [u8; 32]) -> Result<usize, Refusal>
    ensures { placed_from result ≡ named_reply table.now (txid_at txid 0) }
{
    if !pool_check::is_well_formed(table) {
        return Err(Refusal::TableIllFormed);
    }
    let Some(slot) = pool_rules::find(table, Txid::from(txid)) else {
        return Err(Refusal::TxidAbsent);
    };
    Ok(slot)
}

// The total falls, no slot names the one that goes, and then it is free.
fn take_out(table: &mut [u64], slot: usize)
    requires { Takable table.old slot }
    ensures { table.new ≡ table_of (removed (pool_of table.old) slot) }
{
    let weight = pool_table::weight(table, slot);
    let left = pool_table::total(table) - weight.0;
    pool_table::put_total(table, left);
    unlink_all(table, slot);
    pool_table::free_slot(table, slot);
}

// Every slot is looked at, and not the neighbours alone: the test of the whole table before it costs more.
fn unlink_all(table: &mut [u64], slot: usize)
    ensures { Becomes (unlinked_all slot) table.old table.new }
{
    // The slots below s do not name it any more.
    for s in 0..pool_table::slots(table) {
        pool_table::unlink(table, s, slot);
    }
}
