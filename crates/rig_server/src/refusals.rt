//! Refusals: why a connection gets no session, and the line that it gets instead.

ghost use Rattle.std.specs.Prelude.{◌≡◌, OnOk};
ghost use Rattle.std.specs.Io.KnownBytes.{Appends};
ghost use Rattle.rig_server.specs.inner.Refusals.{text_of_refusal};

use locked_book::faults::PassFault;
use std::io;
use std::io::Write;

/// Why a connection gets no session.
#[derive(Clone, Copy, Debug, PartialEq, Eq)]
pub(crate) enum Refusal {
    /// No further connection is taken.
    Closed,
    /// All seats were given.
    Seats,
    /// Out of memory.
    Memory,
    /// There is no thread for it.
    Thread,
}

impl From<PassFault> for Refusal {
    ghost use Rattle.std.specs.Prelude.{◌≡◌};
    ghost use Rattle.rig_server.specs.inner.Refusals.{refusal_of};

    ghost from_gives = { λ fault refusal. refusal ≡ refusal_of fault };

    fn from(fault: PassFault) -> Refusal {
        match fault {
            PassFault::SeatsEnded => Refusal::Seats,
            PassFault::Memory => Refusal::Memory,
        }
    }
}

impl Refusal {
    /// The line that the client gets, with its LF. Empty if the server has been halted.
    pub(crate) fn as_str(self) -> &'static str
        ensures { result.now ≡ text_of_refusal self }
    {
        match self {
            Refusal::Closed => "",
            Refusal::Seats => "bye seats\n",
            Refusal::Memory => "bye memory\n",
            Refusal::Thread => "bye memory\n",
        }
    }

    /// Writes the line that the client gets.
    ///
    /// # Errors
    /// Those of the writer.
    pub(crate) fn write<W: Write>(self, writer: &mut W) -> io::Result<()>
        ensures { OnOk result (Appends (W.contents writer.old) (W.contents writer.new) (text_of_refusal self)) }
    {
        writer.write_all(self.as_str().as_bytes())
    }
}
