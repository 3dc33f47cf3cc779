ghost use Rattle.std.specs.Prelude.{◌≡◌};
ghost use Rattle.swapfile.specs.declared.refusal.Refusal.TheVariants.{Fault as faulty, Memory};

use std::alloc::{AllocError, AllocFailed};
use swap::faults::Fault;
use thiserror::Error;

// Why there is no answer: a rule is broken, or memory ran out.
#[derive(Clone, Copy, PartialEq, Eq, Debug, Error)]
pub enum Refusal {
    #[error("{0}")]
    Fault(Fault),
    #[error("out of memory")]
    Memory,
}

// Each conversion is by hand, since contracts name the refusal that it makes.
impl From<Fault> for Refusal {
    ghost from_gives = { λ f r. r ≡ faulty f };

    fn from(fault: Fault) -> Refusal {
        Refusal::Fault(fault)
    }
}

impl From<AllocError> for Refusal {
    ghost from_gives = { λ _ r. r ≡ Memory };

    fn from(_error: AllocError) -> Refusal {
        Refusal::Memory
    }
}

impl<T: Drop> From<AllocFailed<T>> for Refusal {
    ghost from_gives = { λ _ r. r ≡ Memory };

    fn from(_refused: AllocFailed<T>) -> Refusal {
        Self::Memory
    }
}
