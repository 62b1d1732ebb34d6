// What every call answers, and the checks of ranges and orders that the cluster calls share. A call tests its whole input before it
// writes anything, so a caller that is refused still has what it lent. Each check is one walk over the input.

#![tactic(auto)]

ghost use Rattle.std.specs.Prelude.{◌≡◌, ◌&&◌, leb, length};
ghost use Rattle.lists.specs.Below.{some_below};
ghost use Rattle.txset.specs.Sets.{positions};
ghost use Rattle.refusals.specs.Refusals.{number_of, reply_from, answer_from, in_range, first_outside, is_order};

use txset::{POSITIONS, TxSet};

// The refusals of document 01, in the order of their numbers.
#[derive(Clone, Copy, Debug, PartialEq, Eq)]
pub enum Refusal {
    LengthsDiffer = 1,
    TooManyMembers,
    OutOfRange,
    Cycle,
    NotAnOrder,
    TxidPresent,
    NoSlotFree,
    ClusterTooMany,
    ClusterTooLarge,
    TxidAbsent,
    RoomTooShort,
    TableIllFormed,
    InputIllFormed,
}

impl Refusal {
    pub fn number(self) -> u64
        ensures { result ≡ number_of self }
    {
        self as u64
    }
}

// 0 and the number of places written from the room's start, or the refusal's number and 0.
#[repr(C)]
#[derive(Clone, Copy)]
pub struct Reply {
    pub answer: u64,
    pub written: usize,
}

// What C is answered: 0 and the places, or the number and 0.
impl From<Result<usize, Refusal>> for Reply {
    ghost from_gives = { λ r reply. reply ≡ reply_from r };

    fn from(outcome: Result<usize, Refusal>) -> Reply {
        match outcome {
            Ok(written) => Reply { answer: 0, written },
            Err(refusal) => Reply {
                answer: refusal.number(),
                written: 0,
            },
        }
    }
}

// The same of a call that writes no places: 0, or the number.
pub fn answer(outcome: Result<(), Refusal>) -> u64
    ensures { result ≡ answer_from outcome }
{
    match outcome {
        Ok(()) => 0,
        Err(refusal) => refusal.number(),
    }
}

// Whether a cluster member's fee is in its range.
pub fn fee_in_range(fee: i64) -> bool
    ensures { result ≡ in_range fee }
{
    if fee < -4_200_000_000_000_000 {
        return false;
    }
    fee <= 4_200_000_000_000_000
}

// The lowest position whose fee is outside its range, if there is one.
pub fn first_outside(fees: &[i64]) -> Option<usize>
    ensures { result ≡ some_below (length fees.now) (first_outside fees.now) }
{
    // No fee before i is outside.
    for (i, fee) in fees.iter().enumerate() {
        if !fee_in_range(*fee) {
            return Some(i);
        }
    }
    None
}

// Whether a list has each of the positions 0..n-1 once; false where n is above POSITIONS.
pub fn is_order(n: usize, order: &[usize]) -> bool
    ensures { result ≡ (leb n positions && is_order n order.now) }
{
    if POSITIONS < n {
        return false;
    }
    if order.len() != n {
        return false;
    }
    let mut seen = TxSet::empty();
    // Those passed are positions below n, no two alike, and `seen` has them.
    for &p in order {
        if n <= p {
            return false;
        }
        if seen.contains(p) {
            return false;
        }
        seen = seen.insert(p);
    }
    true
}
