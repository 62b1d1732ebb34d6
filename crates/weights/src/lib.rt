// The two measures of a transaction's weight (document 01), a type each, so that budget sums and ranking sizes are not mixed up, and the
// virtual size of either.

#![tactic(auto)]

ghost use Rattle.std.specs.Prelude.{◌≡◌};
ghost use Rattle.weights.specs.Weights.{virtual_size, adjusted};

#[derive(Clone, Copy)]
pub struct RawWeight(pub u64);

#[derive(Clone, Copy)]
pub struct AdjustedWeight(pub u64);

impl RawWeight {
    // stays: a trait for this method and its twin below would be longer than the two.
    pub fn virtual_size(self) -> u64
        ensures { result ≡ virtual_size self.0 }
    {
        size_of(self.0)
    }
}

impl AdjustedWeight {
    pub fn virtual_size(self) -> u64
        ensures { result ≡ virtual_size self.0 }
    {
        size_of(self.0)
    }
}

// A quarter, rounded up.
#[tactic(auto, unfolding(crate::specs::Weights::virtual_size))]
fn size_of(weight: u64) -> u64
    ensures { result ≡ virtual_size weight }
{
    weight.div_ceil(4)
}

// The larger of the raw weight and what the sigops weigh; their product is held at 2^64 - 1.
#[tactic(auto, unfolding(crate::specs::Weights::adjusted))]
pub fn sigops_adjusted_weight(
    weight: RawWeight,
    sigop_cost: u64,
    bytes_per_sigop: u64,
) -> AdjustedWeight
    ensures { result ≡ adjusted weight sigop_cost bytes_per_sigop }
{
    let sigops = sigop_cost.saturating_mul(bytes_per_sigop);
    AdjustedWeight(weight.0.max(sigops))
}
