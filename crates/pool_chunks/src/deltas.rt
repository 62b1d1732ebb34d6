// The refusals that deltas get on a table that stands: 1 and 3 of document 01.
ghost use Rattle.std.specs.Prelude.{◌≡◌, true, length};
ghost use Rattle.refusals.specs.Refusals.{answer_of, answer_from};
ghost use Rattle.pool_table.specs.Pool.{slot_count};
ghost use Rattle.pool_table.specs.Words.{pool_of};
ghost use Rattle.pool_chunks.specs.Sorted.{delta_in_range, bad_delta, delta_refusals};

use refusals::Refusal;

// The largest delta, either way.
const MAX_DELTA: i64 = 2_100_000_000_000_000;

pub fn check_deltas(table: &[u64], deltas: &[i64]) -> Result<(), Refusal>
    ensures { answer_from result ≡ answer_of (delta_refusals true table.now deltas.now) }
{
    if deltas.len() != pool_table::slots(table) {
        return Err(Refusal::LengthsDiffer);
    }
    if any_bad(table, deltas) {
        return Err(Refusal::OutOfRange);
    }
    Ok(())
}

// Whether some occupied slot has a delta outside its range. What the deltas of free slots are is of no account.
fn any_bad(table: &[u64], deltas: &[i64]) -> bool
    requires { length deltas.now ≡ slot_count (pool_of table.now) }
    ensures { result ≡ bad_delta (pool_of table.now) deltas.now }
{
    // No delta passed is bad.
    for (s, &delta) in deltas.iter().enumerate() {
        if pool_table::is_occupied(table, s) && !delta_in_range(delta) {
            return true;
        }
    }
    false
}

fn delta_in_range(delta: i64) -> bool
    ensures { result ≡ delta_in_range delta }
{
    -MAX_DELTA <= delta && delta <= MAX_DELTA
}
