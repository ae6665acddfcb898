//! The replies to an operator's lines.

ghost use Rattle.std.specs.Prelude.{◌≡◌, IfOk, string_bytes};
ghost use Rattle.rig_operator.specs.Replies.{archive_refusal, archive_reply, lines_reply, refusal, tick_reply};

use crate::rigs::ArchiveFault;
use arrayvec::ArrayString;
use host_core::hosts::TickFault;
use itoa::Buffer;
use std::alloc::{AllocError, Global};
use std::fmt::Write;

/// The reply to an instant of this number. Allocates nothing.
pub(crate) fn tick_reply(number: u64) -> ArrayString<32>
    ensures { result.bytes ≡ tick_reply number }
{
    let mut digits = Buffer::new();
    let mut reply = ArrayString::new();
    reply.push_str("ok tick ");
    reply.push_str(digits.format(number));
    reply.push_str("\n");
    reply
}

/// The reply to an archive with this many entries. Allocates nothing.
pub(crate) fn archive_reply(entries: usize) -> ArrayString<32>
    ensures { result.bytes ≡ archive_reply entries }
{
    let mut digits = Buffer::new();
    let mut reply = ArrayString::new();
    reply.push_str("ok archive ");
    reply.push_str(digits.format(entries));
    reply.push_str("\n");
    reply
}

/// The reply to an archive that failed.
pub(crate) fn archive_refusal(fault: ArchiveFault) -> &'static str
    ensures { result.now ≡ archive_refusal fault }
{
    match fault {
        ArchiveFault::Memory => "err memory\n",
        ArchiveFault::History => "err history\n",
    }
}

/// The reply to a refused instant.
pub(crate) fn refusal(fault: TickFault) -> &'static str
    ensures { result.now ≡ refusal fault }
{
    match fault {
        TickFault::BadFrame => "err bad-frame\n",
        TickFault::ClockEnded => "err clock-ended\n",
        TickFault::Memory => "err memory\n",
    }
}

/// The reply to `lines`, with the value of each line of the rig.
///
/// # Errors
/// Out of memory.
pub(crate) fn lines_reply(alloc: Global, values: &[i64]) -> Result<String, AllocError>
    ensures { IfOk result (λ text. string_bytes text ≡ lines_reply values.now) }
{
    let mut text = String::from_str(alloc, "ok lines")?;
    for value in values {
        write!(text, " {value}")?;
    }
    text.push('\n')?;
    Ok(text)
}
