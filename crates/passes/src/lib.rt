// Module 5 of document 01 on any dependencies: the backward and the forward pass, which merge groups or move them forward. A group that
// pays more than the one before it should be mined sooner: it steps in front of it, or, where it depends on it, the two go on as one and
// the cheap one is lifted. A pass over n members compares at most n(n - 1) / 2 times; members are moved only where a group merges or
// comes to rest.

#![tactic(auto)]

ghost use Rattle.std.specs.Prelude.{◌≡◌};
ghost use Rattle.txset.specs.Sets.{mem_at};
ghost use Rattle.passes.specs.Pass.{forward_pass, back_pass, if_fits};

mod pass;

use feefrac::FeeFrac;
use txset::POSITIONS;

// From the back, with fees negated and descendants as dependencies. A list longer than a set has positions stays as it is.
pub fn back_pass(fees: &[i64], sizes: &[u64], descendants: &[u64], order: &mut [usize])
    ensures { order.new ≡ if_fits (back_pass fees.now sizes.now (mem_at descendants.now)) order.old }
{
    if POSITIONS < order.len() {
        return;
    }
    order.reverse();
    pass::one_pass(|t| FeeFrac::at(fees, sizes, t).negate(), descendants, order);
    order.reverse();
}

// Forward, with ancestors as dependencies. A list longer than a set has positions stays as it is.
pub fn forward_pass(fees: &[i64], sizes: &[u64], ancestors: &[u64], order: &mut [usize])
    ensures { order.new ≡ if_fits (forward_pass fees.now sizes.now (mem_at ancestors.now)) order.old }
{
    if POSITIONS < order.len() {
        return;
    }
    pass::one_pass(|t| FeeFrac::at(fees, sizes, t), ancestors, order);
}
