use thiserror::Error;

// Why a book refuses a call. Where several reasons apply, the first of this list is told.
#[derive(Clone, Copy, PartialEq, Eq, Debug, Error)]
pub enum Refusal {
    // a ledger, party, account, unit or asset that does not exist
    #[error("out of range")]
    OutOfRange,
    // the ledger would hold more of the unit than it may
    #[error("over the ceiling")]
    OverCeiling,
    // the escrow account holds something already
    #[error("account taken")]
    AccountTaken,
    // the party has less than the asset is worth
    #[error("too little")]
    TooLittle,
    // the escrow account holds nothing
    #[error("account empty")]
    AccountEmpty,
}
