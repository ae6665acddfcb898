//! Why a row isn't made or removed.

use std::alloc::AllocFailed;
use thiserror::Error;

/// Why a row isn't made or removed. If there are several reasons, the first in this order is reported.
#[derive(Clone, Copy, Debug, PartialEq, Eq, Error)]
pub enum GrantFault {
    /// The roster has no tenant of this name.
    #[error("no such tenant")]
    NoTenant,
    /// The tenant is the rows' owner.
    #[error("the tenant itself")]
    Own,
    /// The row to be made exists already.
    #[error("the row stands already")]
    Twice,
    /// The row to be removed doesn't exist.
    #[error("no such row")]
    NotThere,
    /// One more row is over the budget.
    #[error("over budget")]
    Budget,
    /// Out of memory.
    #[error("out of memory")]
    Memory,
}

impl<T: Drop> From<AllocFailed<T>> for GrantFault {
    ghost use Rattle.std.specs.Prelude.{◌≡◌};
    ghost use Rattle.tenant_grants.specs.declared.faults.GrantFault.TheVariants.{Memory};

    ghost from_gives = { λ _ fault. fault ≡ Memory };

    fn from(_error: AllocFailed<T>) -> GrantFault {
        GrantFault::Memory
    }
}
