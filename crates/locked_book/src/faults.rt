//! Why a desk refuses.

use rig_model::logged::SeatId;
use thiserror::Error;

/// Why no pass is given.
#[derive(Clone, Copy, Debug, PartialEq, Eq, Error)]
pub enum PassFault {
    /// 65,536 seats were given.
    #[error("all seats were given")]
    SeatsEnded,
    /// Out of memory.
    #[error("no memory for another seat")]
    Memory,
}

/// Why a call is refused.
#[derive(Clone, Copy, Debug, PartialEq, Eq, Error)]
pub enum DeskFault {
    /// The pass has 4,096 calls.
    #[error("the pass is full")]
    PassFull,
    /// The desk doesn't know the pass, or has no such tenant. With the number of entries in its log.
    #[error("the desk, with {0} entries, does not know the pass or the tenant")]
    Strange(u128),
    /// Out of memory.
    #[error("no memory for the call")]
    Memory,
}

/// Why a desk doesn't close.
#[derive(Clone, Copy, Debug, PartialEq, Eq, Error)]
pub enum CloseFault {
    /// The seat of the first pass that the log doesn't confirm, or whose seat an earlier pass has.
    #[error("the pass of seat {0} is not the log's")]
    Mismatch(SeatId),
    /// The least seat that has a call in the log and no pass.
    #[error("seat {0} has calls and no pass")]
    Missing(SeatId),
}
