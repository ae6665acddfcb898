//! Faults that end a script before its input ends.

ghost use Rattle.std.specs.Prelude.{◌≡◌};
ghost use Rattle.rig_script.specs.inner.Faults.{text_of_fault};

use crate::speakers::Speaker;
use std::alloc::AllocError;
use text_lines::faults::LinesFault;
use thiserror::Error;

/// The reason why a script ended before its input did.
#[derive(Clone, Copy, Debug, PartialEq, Eq, Error)]
pub enum ScriptFault {
    /// A read failed, or there was no memory for a line.
    #[error("reading the input failed")]
    Read,
    /// A write failed.
    #[error("writing a reply failed")]
    Write,
    /// The input had not ended after 1,048,576 reads.
    #[error("the input had not ended after 1048576 reads")]
    Turns,
    /// Out of memory for a reply.
    #[error("no memory for a reply")]
    Memory,
}

impl From<AllocError> for ScriptFault {
    ghost use Rattle.std.specs.Prelude.{◌≡◌};
    ghost use Rattle.rig_script.specs.declared.faults.ScriptFault.TheVariants.{Memory};

    ghost from_gives = { λ _ fault. fault ≡ Memory };

    fn from(_error: AllocError) -> ScriptFault {
        ScriptFault::Memory
    }
}

impl From<LinesFault> for ScriptFault {
    ghost use Rattle.std.specs.Prelude.{◌≡◌};
    ghost use Rattle.rig_script.specs.inner.Faults.{fault_of_lines};

    ghost from_gives = { λ lines fault. fault ≡ fault_of_lines lines };

    fn from(fault: LinesFault) -> ScriptFault {
        match fault {
            LinesFault::Read | LinesFault::Memory => ScriptFault::Read,
            LinesFault::Write => ScriptFault::Write,
            LinesFault::Turns => ScriptFault::Turns,
        }
    }
}

impl ScriptFault {
    /// The line that the program writes to standard error.
    pub fn as_str(self) -> &'static str
        ensures { result.now ≡ text_of_fault self }
    {
        match self {
            ScriptFault::Read => "io: read",
            ScriptFault::Write => "io: write",
            ScriptFault::Turns => "io: turns",
            ScriptFault::Memory => "io: memory",
        }
    }
}

/// There was no memory for the reply to a line.
#[derive(Clone, Copy, Debug, PartialEq, Eq, Error)]
#[error("no memory for the reply")]
pub(crate) struct Unanswered {
    /// The speaker of the line. The error is reported to that name.
    pub(crate) speaker: Speaker,
}
