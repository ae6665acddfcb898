//! Faults that end a session before its input ends.

use locked_book::faults::DeskFault;
use text_lines::faults::LinesFault;
use thiserror::Error;

/// The reason why a session ended before its input did.
#[derive(Clone, Copy, Debug, PartialEq, Eq, Error)]
pub enum TalkFault {
    /// A read failed, or there was no memory for a line.
    #[error("reading the input failed")]
    Read,
    /// A write failed.
    #[error("writing a reply failed")]
    Write,
    /// The input had not ended after 1,048,576 reads.
    #[error("the input had not ended after 1048576 reads")]
    Turns,
    /// A call was refused: the pass is full or isn't known.
    #[error("a call was refused: {0}")]
    Desk(DeskFault),
}

impl From<LinesFault> for TalkFault {
    ghost use Rattle.std.specs.Prelude.{◌≡◌};
    ghost use Rattle.rig_sessions.specs.inner.Faults.{fault_of_lines};

    ghost from_gives = { λ lines fault. fault ≡ fault_of_lines lines };

    fn from(fault: LinesFault) -> TalkFault {
        match fault {
            LinesFault::Read | LinesFault::Memory => TalkFault::Read,
            LinesFault::Write => TalkFault::Write,
            LinesFault::Turns => TalkFault::Turns,
        }
    }
}
