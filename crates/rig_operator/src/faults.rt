//! Faults that end the answering of an operator's lines.

use text_lines::faults::LinesFault;
use thiserror::Error;

/// The reason why an operator's lines are no longer answered.
#[derive(Clone, Copy, Debug, PartialEq, Eq, Error)]
pub enum OperatorFault {
    /// A read failed, there was no memory for a line, or a line took 1,048,576 reads, which is more than it has bytes.
    #[error("reading the operator's lines failed")]
    Read,
    /// A write failed.
    #[error("writing to the operator failed")]
    Write,
}

impl From<LinesFault> for OperatorFault {
    ghost use Rattle.std.specs.Prelude.{◌≡◌};
    ghost use Rattle.rig_operator.specs.inner.Faults.{fault_of_lines};

    ghost from_gives = { λ lines fault. fault ≡ fault_of_lines lines };

    fn from(fault: LinesFault) -> OperatorFault {
        match fault {
            LinesFault::Read | LinesFault::Memory | LinesFault::Turns => OperatorFault::Read,
            LinesFault::Write => OperatorFault::Write,
        }
    }
}
