//! What a server writes to its operator.

ghost use Rattle.std.specs.Prelude.{◌≡◌, IfOk, OnOk, string_bytes};
ghost use Rattle.std.specs.Io.KnownBytes.{Appends};
ghost use Rattle.rig_server.specs.inner.Replies.{close_reply, ready_line, seats_warning};

use crate::faults::ServeFault;
use locked_book::books::MOST_SEATS;
use locked_book::faults::CloseFault;
use std::alloc::{AllocError, Global};
use std::io::Write;

/// What is written to standard error when the history can't be written.
pub(crate) const HISTORY_WARNING: &str =
    "note: the history can't be written; it is kept in memory, and written as soon as that works\n";

/// Returns the line with the port on which the server listens.
///
/// # Errors
/// Out of memory.
pub(crate) fn ready_line(alloc: Global, port: u16) -> Result<String, AllocError>
    ensures { IfOk result (λ line. string_bytes line ≡ ready_line port) }
{
    format!(in alloc; "ready {port}\n")
}

/// Returns the last line: the desk's answer to its close.
///
/// # Errors
/// Out of memory.
pub(crate) fn close_reply(alloc: Global, fault: Option<CloseFault>) -> Result<String, AllocError>
    ensures { IfOk result (λ line. string_bytes line ≡ close_reply fault) }
{
    match fault {
        None => String::from_str(alloc, "bye close ok\n"),
        Some(CloseFault::Mismatch(seat)) => format!(in alloc; "bye close mismatch {seat}\n"),
        Some(CloseFault::Missing(seat)) => format!(in alloc; "bye close missing {seat}\n"),
    }
}

/// Warns on standard error that so few seats are left that the server should be restarted, after this many were given.
///
/// # Errors
/// `Write`, and `Memory`.
pub(crate) fn warn_of_seats<W: Write>(
    alloc: Global,
    given: usize,
    writer: &mut W,
) -> Result<(), ServeFault>
    ensures { OnOk result (Appends (W.contents writer.old) (W.contents writer.new) (seats_warning given)) }
{
    let warning = format!(in alloc;
        "note: {given} of {MOST_SEATS} seats were given: restart the server before the last one is\n"
    )?;
    say(writer, warning.as_str())
}

/// Writes a reply.
///
/// # Errors
/// `Write`.
pub(crate) fn say<W: Write>(writer: &mut W, reply: &str) -> Result<(), ServeFault>
    ensures { OnOk result (Appends (W.contents writer.old) (W.contents writer.new) reply.now) }
{
    match writer.write_all(reply.as_bytes()) {
        Ok(()) => Ok(()),
        Err(_) => Err(ServeFault::Write),
    }
}
