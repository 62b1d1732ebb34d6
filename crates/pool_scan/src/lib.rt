// Refusal 12 of document 01, row by row: "a range", "the stored total as the sum of weights", "zeroed free slots". One walk over the table:
// a stray word in memory that a host lent is found before any miner is paid by it.

#![tactic(auto)]

ghost use Rattle.std.specs.Prelude.{◌≡◌, ◌&&◌, length};
ghost use Rattle.pool_table.specs.Words.{is_legal, pool_of};
ghost use Rattle.pool_table.specs.WellFormed.{numbers_in_range, total_is_sum, free_zeroed};
ghost use Rattle.pool_scan.specs.Rows.{row_stands};

use pool_table::Entry;

// Whether every occupied slot's numbers are in their ranges, every free slot is zeroed, and the stored total is the sum of the weights.
// The sum can't pass a word: each weight is tested before it is added, and there are at most 1,024.
pub fn rows_stand(table: &[u64]) -> bool
    ensures { result ≡ (is_legal (length table.now) && (numbers_in_range (pool_of table.now)
        && (total_is_sum (pool_of table.now) && free_zeroed (pool_of table.now)))) }
{
    if !pool_table::is_legal(table) {
        return false;
    }
    let mut sum: u64 = 0;
    for s in 0..pool_table::slots(table) {
        if !row_stands(table, s) {
            return false;
        }
        sum += pool_table::weight(table, s).0;
    }
    sum == pool_table::total(table)
}

fn row_stands(table: &[u64], s: usize) -> bool
    ensures { result ≡ row_stands (pool_of table.now) s }
{
    if pool_table::is_occupied(table, s) {
        return Entry::at(table, s).in_range();
    }
    pool_table::is_zeroed(table, s)
}
