//! What a session writes.

ghost use Rattle.std.specs.Prelude.{◌≡◌, ◌⊎◌, string_bytes, IfErr, OnOk};
ghost use Rattle.std.specs.Io.KnownBytes.{Appends, Keeps};
ghost use Rattle.rig_model.specs.lines.Replies.{text_of_reply};
ghost use Rattle.rig_model.specs.Sessions.{bye_bad_line, text_of_outcome, untold, written};
ghost use Rattle.rig_sessions.specs.Talks.{outcome_of};

use crate::faults::TalkFault;
use locked_book::faults::DeskFault;
use rig_model::lines::replies::{Reply, add_reply};
use std::alloc::AllocError;
use std::io::Write;

/// Writes the reply to a call, or that there is no memory for its text.
pub(crate) fn say_reply<W: Write>(
    writer: &mut W,
    reply: &Reply,
    text: &mut String,
) -> Result<(), TalkFault>
    ensures written { OnOk result (Appends (W.contents writer.old) (W.contents writer.new) (written (text_of_reply reply.now))
        ⊎ Appends (W.contents writer.old) (W.contents writer.new) (written (text_of_outcome (untold reply.now)))) }
    ensures fault { IfErr result (λ fault. fault ≡ TalkFault.Write) }
{
    match reply_line(text, reply) {
        Ok(()) => say(writer, text.as_str().as_bytes()),
        Err(_) => say(writer, b"err memory\n"),
    }
}

// Replaces a text with a reply, as it is written.
fn reply_line(text: &mut String, reply: &Reply) -> Result<(), AllocError>
    ensures { OnOk result (string_bytes text.new ≡ written (text_of_reply reply.now)) }
{
    text.clear();
    add_reply(text, reply)?;
    text.push_str("\n")
}

/// Writes why a call was refused, and returns that fault, even if the write fails.
pub(crate) fn refuse<W: Write>(writer: &mut W, fault: DeskFault) -> TalkFault
    ensures { result ≡ TalkFault.Desk fault }
{
    let _ = say_refusal(writer, fault);
    TalkFault::Desk(fault)
}

// Writes why a call was refused.
fn say_refusal<W: Write>(writer: &mut W, fault: DeskFault) -> Result<(), TalkFault>
    ensures written { OnOk result (Appends (W.contents writer.old) (W.contents writer.new) (written (text_of_outcome (outcome_of fault)))) }
    ensures fault { IfErr result (λ fault. fault ≡ TalkFault.Write) }
{
    match fault {
        DeskFault::PassFull => say(writer, b"bye pass-full\n")?,
        DeskFault::Strange(_) => say(writer, b"bye strange\n")?,
        DeskFault::Memory => say(writer, b"err memory\n")?,
    }
    flush(writer)
}

/// Writes that a line is too long or not UTF-8.
pub(crate) fn say_bad_line<W: Write>(writer: &mut W) -> Result<(), TalkFault>
    ensures written { OnOk result (Appends (W.contents writer.old) (W.contents writer.new) (written bye_bad_line)) }
    ensures fault { IfErr result (λ fault. fault ≡ TalkFault.Write) }
{
    say(writer, b"bye bad-line\n")?;
    flush(writer)
}

/// Writes these bytes.
pub(crate) fn say<W: Write>(writer: &mut W, bytes: &[u8]) -> Result<(), TalkFault>
    ensures written { OnOk result (Appends (W.contents writer.old) (W.contents writer.new) bytes.now) }
    ensures fault { IfErr result (λ fault. fault ≡ TalkFault.Write) }
{
    match writer.write_all(bytes) {
        Ok(()) => Ok(()),
        Err(_) => Err(TalkFault::Write),
    }
}

/// Flushes the writer.
pub(crate) fn flush<W: Write>(writer: &mut W) -> Result<(), TalkFault>
    ensures kept { Keeps (W.contents writer.old) (W.contents writer.new) }
    ensures fault { IfErr result (λ fault. fault ≡ TalkFault.Write) }
{
    match writer.flush() {
        Ok(()) => Ok(()),
        Err(_) => Err(TalkFault::Write),
    }
}
