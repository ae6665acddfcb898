//! Why a client ended, if not by `bye`.

ghost use Rattle.std.specs.Prelude.{◌≡◌};
ghost use Rattle.rig_client.specs.inner.Faults.{text_of_fault};

use std::alloc::AllocError;
use text_lines::faults::LinesFault;
use thiserror::Error;

/// Why a client ended, if not by `bye`.
#[derive(Clone, Copy, Debug, PartialEq, Eq, Error)]
pub enum ClientFault {
    /// There is no connection to the port.
    #[error("no server answers on the port")]
    Connect,
    /// The file of the key can't be read.
    #[error("the file of the key can't be read")]
    KeyFile,
    /// The key isn't 1 to 64 bytes from 0x21 to 0x7E.
    #[error("the key isn't 1 to 64 bytes from 0x21 to 0x7E")]
    KeyRange,
    /// The server's answer to the greeting isn't `ok hello`.
    #[error("the server refused the greeting")]
    Greeting,
    /// The server ended the session, with a line other than `bye`.
    #[error("the server ended the session")]
    Ended,
    /// The connection ended, or broke, without a last line.
    #[error("the connection was lost")]
    Lost,
    /// A read of the user's lines failed, memory ran out for one, or a line took 1,048,576 reads, which is more than it has bytes.
    #[error("reading the lines failed")]
    Read,
    /// A write to the user failed.
    #[error("writing an answer failed")]
    Write,
    /// Out of memory.
    #[error("no memory for the session")]
    Memory,
}

impl From<AllocError> for ClientFault {
    ghost use Rattle.std.specs.Prelude.{◌≡◌};
    ghost use Rattle.rig_client.specs.declared.faults.ClientFault.TheVariants.{Memory};

    ghost from_gives = { λ _ fault. fault ≡ Memory };

    fn from(_error: AllocError) -> ClientFault {
        ClientFault::Memory
    }
}

impl From<LinesFault> for ClientFault {
    ghost use Rattle.std.specs.Prelude.{◌≡◌};
    ghost use Rattle.rig_client.specs.inner.Faults.{fault_of_lines};

    ghost from_gives = { λ lines fault. fault ≡ fault_of_lines lines };

    fn from(fault: LinesFault) -> ClientFault {
        match fault {
            LinesFault::Read | LinesFault::Memory | LinesFault::Turns => ClientFault::Read,
            LinesFault::Write => ClientFault::Write,
        }
    }
}

impl ClientFault {
    /// The line that the program writes to standard error.
    pub fn as_str(self) -> &'static str
        ensures { result.now ≡ text_of_fault self }
    {
        match self {
            ClientFault::Connect => "io: connect: no server listens on this port",
            ClientFault::KeyFile => "key: unreadable",
            ClientFault::KeyRange => "key: range",
            ClientFault::Greeting => "hello: refused",
            ClientFault::Ended => "session: ended",
            ClientFault::Lost => "io: lost: the server has ended, or the connection broke",
            ClientFault::Read => "io: read",
            ClientFault::Write => "io: write",
            ClientFault::Memory => "io: memory",
        }
    }
}
