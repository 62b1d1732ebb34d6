// What a template asks of a chunk's numbers (document 01, "How a template is filled"): which of two pays better, and the tests against the
// minimum, the budget and the sigop limit. Nothing is rounded and nothing wraps, whatever the numbers.

#![tactic(auto)]

ghost use Rattle.std.specs.Prelude.{◌≡◌};
ghost use Rattle.feefrac.specs.Rate.{is_greater};
ghost use Rattle.chunk_tests.specs.Tests.{pays_order, is_negative, is_below, over_budget, over_sigops};

use feefrac::FeeFrac;
use weights::{AdjustedWeight, RawWeight};

// The limit of a block's sigop cost.
pub const MAX_BLOCK_SIGOPS_COST: u64 = 80_000;

// Whether a chunk is tried before another by what it pays.
pub fn pays_more(a: FeeFrac, b: FeeFrac) -> bool
    ensures { result ≡ is_greater (pays_order a b) }
{
    // All is asked at once: no processor could guess what a sort is told.
    let above = a.higher_rate(b);
    let below = b.higher_rate(a);
    let more = b.fee < a.fee;
    above | (!below & more)
}

pub fn is_negative(rate: FeeFrac) -> bool
    ensures { result ≡ is_negative rate }
{
    rate.fee < 0
}

// Whether a chunk's feerate is below the block's minimum: by two products of two words each.
pub fn is_below(minimum: u64, rate: FeeFrac) -> bool
    ensures { result ≡ is_below minimum rate }
{
    if minimum == 0 {
        return false; // it passes all
    }
    if rate.fee < 0 {
        return true;
    }
    let size = AdjustedWeight(rate.size).virtual_size();
    let paid = wide::mul_wide(rate.fee as u64, 1_000);
    paid.is_below(wide::mul_wide(minimum, size))
}

// Whether two amounts are together above a limit.
fn exceeds(limit: u64, a: u64, b: u64) -> bool
    ensures { result ≡ over_budget limit a b }
{
    if limit < a {
        return true;
    }
    limit - a < b
}

pub fn over_budget(budget: u64, used: RawWeight, added: RawWeight) -> bool
    ensures { result ≡ over_budget budget used.0 added.0 }
{
    exceeds(budget, used.0, added.0)
}

pub fn over_sigops(reserve: u64, used: u64, added: u64) -> bool
    ensures { result ≡ over_sigops reserve used added }
{
    if MAX_BLOCK_SIGOPS_COST < reserve {
        return true;
    }
    exceeds(MAX_BLOCK_SIGOPS_COST - reserve, used, added)
}
