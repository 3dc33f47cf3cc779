use thiserror::Error;

// Why a mempool refuses a transaction. `Full` is told first where both hold.
#[derive(Clone, Copy, PartialEq, Eq, Debug, Error)]
pub enum Refusal {
    #[error("the mempool is full")]
    Full,
    #[error("that number waits already")]
    Duplicate,
}
