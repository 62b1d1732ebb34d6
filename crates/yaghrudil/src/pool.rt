// The calls of a pool under their exported names. A txid is lent as its 32 bytes, and the limits are a struct with C's layout, so that no
// caller mixes them up.
ghost use Rattle.std.specs.Prelude.{◌≡◌};
ghost use Rattle.txids.specs.Txids.{txid_at};
ghost use Rattle.pool_rules.specs.Calls.{entry_of, make_answer, after_make, add_reply, after_add, named_reply, after_remove, after_set_cost};
ghost use Rattle.pool_rules.specs.Calls.{clear_answer, after_clear, totals_reply};
ghost use Rattle.yaghrudil.specs.Structs.{limits_of};

use pool_rules::{Placed, Totals};

#[repr(C)]
#[derive(Clone, Copy)]
pub struct Limits {
    pub count: u64,
    pub size: u64,
    pub bytes_per_sigop: u64,
}

impl From<Limits> for pool_table::Limits {
    ghost from_gives = { λ limits r. r ≡ limits_of limits };

    fn from(limits: Limits) -> pool_table::Limits {
        pool_table::Limits {
            count: limits.count,
            size: limits.size,
            bytes_per_sigop: limits.bytes_per_sigop,
        }
    }
}

#[unsafe(no_mangle)]
pub extern "C" fn yaghrudil_pool_make(table: &mut [u64], limits: Limits) -> u64
    ensures value { result ≡ make_answer table.old (limits_of limits) }
    ensures table_after { table.new ≡ after_make table.old (limits_of limits) }
{
    refusals::answer(pool_calls::make(table, limits.into()))
}

#[unsafe(no_mangle)]
pub extern "C" fn yaghrudil_pool_add(
    table: &mut [u64],
    txid: &[u8; 32],
    fee: u64,
    weight: u64,
    cost: u64,
    parents: &[u8],
) -> Placed
    ensures value { result ≡ add_reply table.old (entry_of txid.now fee weight cost) parents.now }
    ensures table_after { table.new ≡ after_add table.old (entry_of txid.now fee weight cost) parents.now }
{
    pool_add::add(table, *txid, fee, weight, cost, parents).into()
}

#[unsafe(no_mangle)]
pub extern "C" fn yaghrudil_pool_remove(table: &mut [u64], txid: &[u8; 32]) -> Placed
    ensures value { result ≡ named_reply table.old (txid_at txid.now 0) }
    ensures table_after { table.new ≡ after_remove table.old (txid_at txid.now 0) }
{
    pool_calls::remove(table, *txid).into()
}

#[unsafe(no_mangle)]
pub extern "C" fn yaghrudil_pool_set_cost(table: &mut [u64], txid: &[u8; 32], cost: u64) -> Placed
    ensures value { result ≡ named_reply table.old (txid_at txid.now 0) }
    ensures table_after { table.new ≡ after_set_cost table.old (txid_at txid.now 0) cost }
{
    pool_calls::set_cost(table, *txid, cost).into()
}

#[unsafe(no_mangle)]
pub extern "C" fn yaghrudil_pool_clear(table: &mut [u64]) -> u64
    ensures value { result ≡ clear_answer table.old }
    ensures table_after { table.new ≡ after_clear table.old }
{
    refusals::answer(pool_calls::clear(table))
}

#[unsafe(no_mangle)]
pub extern "C" fn yaghrudil_pool_totals(table: &[u64]) -> Totals
    ensures { result ≡ totals_reply table.now }
{
    pool_calls::totals(table).into()
}
