// Module 1 of document 01: a fee over a size, its held sums, and the exact compare of two feerates. A block has limited room, so what
// counts for a miner is the fee for each unit of size. Rates are compared by products and never rounded: of two that differ by little the
// better one wins, and equal ones are known to be equal. A compare takes two multiplications, and more only for numbers that no ordinary
// cluster has.
// Callers see `FeeFrac` and the methods; how two products are compared is in `compare`.

#![tactic(auto)]

ghost use Rattle.std.specs.Prelude.{◌≡◌, set};
ghost use Rattle.feefrac.specs.Rate.{zero_rate, rate_at, sum, difference, negated, higher, rank_order};

use std::cmp::Ordering;

mod compare;

#[derive(Clone, Copy)]
pub struct FeeFrac {
    pub fee: i64,
    pub size: u64,
}

impl FeeFrac {
    // The empty sum.
    pub fn zero() -> FeeFrac
        ensures { result ≡ zero_rate }
    {
        FeeFrac { fee: 0, size: 0 }
    }

    // The i-th fee over the i-th size; 0 for what is past an end.
    #[tactic(auto, unfolding(crate::specs::Rate::rate_at))]
    pub fn at(fees: &[i64], sizes: &[u64], i: usize) -> FeeFrac
        ensures { result ≡ rate_at fees.now sizes.now i }
    {
        FeeFrac {
            fee: fees.get(i).copied().unwrap_or(0),
            size: sizes.get(i).copied().unwrap_or(0),
        }
    }

    // Writes the fee and the size as the i-th of two lists; past an end, nothing there.
    pub fn put(self, fees: &mut [i64], sizes: &mut [u64], i: usize)
        ensures fees_after { fees.new ≡ set fees.old i self.fee }
        ensures sizes_after { sizes.new ≡ set sizes.old i self.size }
    {
        put_at(fees, i, self.fee);
        put_at(sizes, i, self.size);
    }

    // The sum with `other` taken in; each part stops at the ends of its type instead of wrapping.
    #[tactic(auto, unfolding(crate::specs::Rate::sum))]
    pub fn add(self, other: FeeFrac) -> FeeFrac
        ensures { result ≡ sum self other }
    {
        FeeFrac {
            fee: self.fee.saturating_add(other.fee),
            size: self.size.saturating_add(other.size),
        }
    }

    // The sum with `other` given back.
    #[tactic(auto, unfolding(crate::specs::Rate::difference))]
    pub fn sub(self, other: FeeFrac) -> FeeFrac
        ensures { result ≡ difference self other }
    {
        FeeFrac {
            fee: self.fee.saturating_sub(other.fee),
            size: self.size.saturating_sub(other.size),
        }
    }

    // The same size with the fee's sign turned.
    #[tactic(auto, unfolding(crate::specs::Rate::negated))]
    pub fn negate(self) -> FeeFrac
        ensures { result ≡ negated self }
    {
        FeeFrac {
            fee: 0_i64.saturating_sub(self.fee),
            size: self.size,
        }
    }

    // Whether the feerate is strictly higher than `other`'s.
    pub fn higher_rate(self, other: FeeFrac) -> bool
        ensures { result ≡ higher self other }
    {
        compare::compare_rates(self, other).is_gt()
    }

    // By feerate, then the smaller size ranks above.
    pub fn rank(self, other: FeeFrac) -> Ordering
        ensures { result ≡ rank_order self other }
    {
        // stays: `then` was tried; it compares the sizes each time, and a scan by `rank` took a sixth longer.
        match compare::compare_rates(self, other) {
            Ordering::Equal => other.size.cmp(&self.size),
            by_rate => by_rate,
        }
    }
}

fn put_at<T: Copy>(list: &mut [T], i: usize, value: T)
    ensures { list.new ≡ set list.old i value }
{
    if i < list.len() {
        list[i] = value;
    }
}
