// Module 9 of document 01, the template, as definitions over a pool, and the types that its call speaks of.

#![tactic(auto)]

use weights::RawWeight;

// What a block has left: the raw weight that a template may fill, the sigop cost that is reserved, and the least feerate of a chunk, in
// sat per 1,000 vbytes.
#[derive(Clone, Copy)]
pub struct Terms {
    pub budget: RawWeight,
    pub reserve: u64,
    pub minimum: u64,
}

// Why a chunk is passed over, in the order of the document.
#[derive(Clone, Copy, PartialEq, Eq)]
pub enum Reason {
    NegativeFee,
    BelowMinimum,
    Withheld,
    NothingUnselected,
    WithheldAncestor,
    OverBudget,
    OverSigops,
}
