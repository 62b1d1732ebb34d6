// The feerate of a set of members, and of a list: what a miner is paid, and for how much size, if all of them are taken. One addition a
// member.

#![tactic(auto)]

ghost use Rattle.std.specs.Prelude.{◌≡◌};
ghost use Rattle.txset.specs.Sets.{members};
ghost use Rattle.feeset.specs.Total.{total};

use feefrac::FeeFrac;
use txset::TxSet;

// The feerate sum of the members of a set, taken in upwards.
pub fn set_feerate(fees: &[i64], sizes: &[u64], set: TxSet) -> FeeFrac
    ensures { result ≡ total fees.now sizes.now (members set) }
{
    let mut sum = FeeFrac::zero();
    // `sum` is that of the members passed.
    for i in set.iter() {
        sum = sum.add(FeeFrac::at(fees, sizes, i));
    }
    sum
}

// The feerate sum of the members of a list, taken in from its start.
pub fn list_feerate(fees: &[i64], sizes: &[u64], list: &[usize]) -> FeeFrac
    ensures { result ≡ total fees.now sizes.now list.now }
{
    let mut sum = FeeFrac::zero();
    // `sum` is that of those passed.
    for &t in list {
        sum = sum.add(FeeFrac::at(fees, sizes, t));
    }
    sum
}
