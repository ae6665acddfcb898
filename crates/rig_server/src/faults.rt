//! Why a server ended, if not by a halt.

ghost use Rattle.std.specs.Prelude.{◌≡◌, ◌++◌, ◌∷◌, [], IsOk, OnOk};
ghost use Rattle.std.specs.Io.KnownBytes.{Appends};
ghost use Rattle.rig_server.specs.inner.Faults.{text_of_fault};

use rig_operator::faults::OperatorFault;
use std::alloc::AllocError;
use std::io;
use std::io::Write;
use thiserror::Error;

/// Why a server ended, if not by a halt.
#[derive(Clone, Copy, Debug, PartialEq, Eq, Error)]
pub enum ServeFault {
    /// The listener has no address, or no second handle of it can be made.
    #[error("listening failed")]
    Listen,
    /// A read of the operator's lines failed, or memory ran out for one.
    #[error("reading the operator's lines failed")]
    Read,
    /// A write to the operator failed.
    #[error("writing to the operator failed")]
    Write,
    /// The last part of the history could not be written.
    #[error("writing the history failed")]
    History,
    /// Out of memory or threads before the first line, or out of memory for the last one.
    #[error("no memory for the server")]
    Memory,
}

impl From<AllocError> for ServeFault {
    ghost use Rattle.std.specs.Prelude.{◌≡◌};
    ghost use Rattle.rig_server.specs.declared.faults.ServeFault.TheVariants.{Memory};

    ghost from_gives = { λ _ fault. fault ≡ Memory };

    fn from(_error: AllocError) -> ServeFault {
        ServeFault::Memory
    }
}

impl From<OperatorFault> for ServeFault {
    ghost use Rattle.std.specs.Prelude.{◌≡◌};
    ghost use Rattle.rig_server.specs.inner.Faults.{fault_of_operator};

    ghost from_gives = { λ operator fault. fault ≡ fault_of_operator operator };

    fn from(fault: OperatorFault) -> ServeFault {
        match fault {
            OperatorFault::Read => ServeFault::Read,
            OperatorFault::Write => ServeFault::Write,
        }
    }
}

impl ServeFault {
    /// The line that the program writes to standard error.
    pub fn as_str(self) -> &'static str
        ensures { result.now ≡ text_of_fault self }
    {
        match self {
            ServeFault::Listen => "io: listen",
            ServeFault::Read => "io: read",
            ServeFault::Write => "io: write",
            ServeFault::History => "io: history",
            ServeFault::Memory => "io: memory",
        }
    }

    /// Writes this line.
    ///
    /// # Errors
    /// Those of the writer.
    pub(crate) fn write<W: Write>(self, writer: &mut W) -> io::Result<()>
        ensures { OnOk result (Appends (W.contents writer.old) (W.contents writer.new) (text_of_fault self ++ 10 ∷ [])) }
    {
        writer.write_all(self.as_str().as_bytes())?;
        writer.write_all(b"\n")
    }
}

/// Reports the fault of a result, if it has one, and returns the result. A report that fails is ignored.
pub(crate) fn reported<T, W: Write>(
    errors: &mut W,
    outcome: Result<T, ServeFault>,
) -> Result<T, ServeFault>
    ensures same { result ≡ outcome }
    ensures quiet { IsOk outcome → errors.new ≡ errors.old }
{
    if let Err(fault) = &outcome {
        let _ = fault.write(errors);
    }
    outcome
}
