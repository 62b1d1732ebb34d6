// The exact three-way compare of two feerates, the leaf below `higher_rate` and `rank`.
// Fees of up to 35 bits and sizes of up to 28, which serves the sums of 64 of the heaviest transactions, are compared by one-word
// products; the rest by products of two words.
ghost use Rattle.std.specs.Prelude.{◌≡◌, true, ◌+◌, ◌*◌, nat_abs, nat_eq};
ghost use Rattle.feefrac.specs.Rate.{rate_order};
ghost use Rattle.feefrac.specs.Narrow.{Narrow};
ghost use Rattle.wide.specs.Words.{value};

use crate::FeeFrac;
use std::cmp::Ordering;
use wide::{Wide, mul_wide};

// a.fee × b.size against b.fee × a.size. The wide way stands in two places: so the compiler leaves it a call, and puts the rest, which
// is short then, into each scan.
pub fn compare_rates(a: FeeFrac, b: FeeFrac) -> Ordering
    ensures { result ≡ rate_order a b }
{
    if !is_narrow(a) {
        return compare_wide(a, b);
    }
    if !is_narrow(b) {
        return compare_wide(a, b);
    }
    compare_narrow(a, b)
}

// Whether a product of one such fee and one such size fits an i64.
fn is_narrow(a: FeeFrac) -> bool
    ensures { result ≡ true → Narrow a }
{
    let fee = a.fee;
    if fee < -34_359_738_368 {
        return false;
    }
    if 34_359_738_368 < fee {
        return false;
    }
    a.size < 268_435_456
}

fn compare_narrow(a: FeeFrac, b: FeeFrac) -> Ordering
    requires narrow { Narrow a }
    requires narrow_2 { Narrow b }
    ensures { result ≡ rate_order a b }
{
    let x = a.fee * (b.size as i64);
    let y = b.fee * (a.size as i64);
    // stays: `x.cmp(&y)` was tried, and a loop that swaps by `higher_rate` took a third longer.
    if y < x {
        return Ordering::Greater;
    }
    if x < y {
        return Ordering::Less;
    }
    Ordering::Equal
}

// By the signs of the fees, then by the products without sign. Each way makes its own products: so this stays too long to be put
// into its callers.
fn compare_wide(a: FeeFrac, b: FeeFrac) -> Ordering
    ensures { result ≡ rate_order a b }
{
    let af = a.fee;
    let bf = b.fee;
    if af < 0 {
        if bf < 0 {
            return product(bf, a.size).cmp(&product(af, b.size));
        }
        if both_zero(product(af, b.size), product(bf, a.size)) {
            return Ordering::Equal;
        }
        return Ordering::Less;
    }
    if bf < 0 {
        if both_zero(product(af, b.size), product(bf, a.size)) {
            return Ordering::Equal;
        }
        return Ordering::Greater;
    }
    product(af, b.size).cmp(&product(bf, a.size))
}

// The fee without its sign, times the size.
fn product(fee: i64, size: u64) -> Wide
    ensures { value result ≡ nat_abs fee * size }
{
    mul_wide(fee.unsigned_abs(), size)
}

fn both_zero(a: Wide, b: Wide) -> bool
    ensures { result ≡ nat_eq (value a + value b) 0 }
{
    a == Wide::ZERO && b == Wide::ZERO
}
