//! Why an expression or a body has no code.

use std::alloc::{AllocError, AllocFailed};
use thiserror::Error;

/// Why there is no code.
#[derive(Clone, Copy, Debug, PartialEq, Eq, Error)]
pub enum CodeFault {
    /// Out of memory.
    #[error("no memory for the code")]
    Memory,
    /// More than 32 operations are nested, so that their intermediate values have no place. No
    /// program's text has such an expression.
    #[error("more than 32 operations inside one another")]
    TooDeep,
}

impl From<AllocError> for CodeFault {
    ghost use Rattle.std.specs.Prelude.{◌≡◌};
    ghost use Rattle.giotto_tasks.specs.declared.faults.CodeFault.TheVariants.{Memory};

    ghost from_gives = { λ _ e. e ≡ Memory };

    fn from(_failed: AllocError) -> CodeFault {
        CodeFault::Memory
    }
}

impl<T: Drop> From<AllocFailed<T>> for CodeFault {
    ghost use Rattle.std.specs.Prelude.{◌≡◌};
    ghost use Rattle.giotto_tasks.specs.declared.faults.CodeFault.TheVariants.{Memory};

    ghost from_gives = { λ _ e. e ≡ Memory };

    fn from(_failed: AllocFailed<T>) -> CodeFault {
        CodeFault::Memory
    }
}
