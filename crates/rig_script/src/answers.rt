//! The lines of a script and their answers.

ghost use Rattle.std.specs.Prelude.{◌≡◌, ◌∷◌, ◌++◌, ℕ, List, [], All, Some, Ok, IfErr, IfSome, OnOk};
ghost use Rattle.std.specs.Io.KnownBytes.{Appends, Keeps};
ghost use Rattle.rig_model.specs.Base.{Setting};
ghost use Rattle.rig_model.specs.declared.events.Event.{Event};
ghost use Rattle.rig_model.specs.Answered.{bye_bad_line, err_memory, IsText};
ghost use Rattle.rig_script.specs.Given.{texts_of};
ghost use Rattle.rig_script.specs.cited.HostAnswers.{Holds};
ghost use Rattle.rig_script.specs.cited.Past.{ForEachPast, ForEachPastReading};
ghost use Rattle.rig_script.specs.inner.Script.{IsUnanswered, IsReplied};
ghost use Rattle.rig_model.specs.TextLines.{cut};
ghost use Rattle.rig_script.specs.BrokenOff.{AreBrokenOff, AreFewRead};
ghost use Rattle.rig_model.specs.Script.{speaker_of, line_step, memory_reply, reply_to_line, past_after, past_behind, script_from};

use crate::faults::{ScriptFault, Unanswered};
use crate::speakers::addressee;
use std::alloc::{AllocError, Global};
use std::io::{Read, Write};
use text_lines::lines::{Line, Lines};

/// Answers the lines of a script.
pub(crate) trait Answers {
    // it was given the lines of these texts, the oldest first, and its state is that of a rig after these events, the newest first
    ghost is_after: { Self → Setting → List (List ℕ) → List Event → Type 0 };

    /// Replaces the text with the reply to a line. The reply is empty for a line that has none.
    ///
    /// # Errors
    /// Out of memory for the reply. The text's content is then unspecified.
    fn answer(&mut self, alloc: Global, line: &str, text: &mut String) -> Result<(), Unanswered>
        ensures { ForEachPast (is_after self.old) (λ setting texts past. IsReplied (line_step setting past line.now) past (speaker_of setting.config line.now) result
            (Holds text.new) (is_after self.new setting (texts ++ line.now ∷ []))) };
}

/// How the lines of a reader ended.
#[derive(Clone, Copy, Debug, PartialEq, Eq)]
pub(crate) enum Ending {
    /// The input has ended, and no byte of it is left.
    Input,
    /// A line was too long or not UTF-8.
    BadLine,
}

/// Answers the lines of a reader, in their order, until the input ends or a line is too long or not UTF-8. The answer to such a line is
/// `host bye bad-line`, and later lines are ignored.
///
/// The writer is flushed before each read and at the end.
///
/// # Errors
/// - `Read`, `Write` and `Turns` as in `Lines::next_line`. `Read` also if there is no memory for a line; exactly the lines before it were
///   answered.
/// - `Memory` if there is no memory for a reply. `err memory` is written in its place, after the line's first word, or after `host` if nobody
///   has that name.
pub(crate) fn answer_lines<R: Read, W: Write, A: Answers>(
    alloc: Global,
    reader: &mut R,
    writer: &mut W,
    answers: &mut A,
) -> Result<Ending, ScriptFault>
    ensures written { OnOk result (ForEachPastReading (A.is_after answers.old) (R.remaining reader.old) (λ setting texts past bytes.
        Appends (W.contents writer.old) (W.contents writer.new) (script_from setting past (cut bytes)))) }
    ensures state { OnOk result (ForEachPastReading (A.is_after answers.old) (R.remaining reader.old) (λ setting texts past bytes.
        A.is_after answers.new setting (texts ++ texts_of (cut bytes)) (past_after setting past (cut bytes)))) }
    ensures input { result ≡ Ok Ending.Input → IfSome (R.remaining reader.old) (λ bytes. All IsText (cut bytes) × (R.remaining reader.new ≡ Some [])) }
    ensures bad_line { result ≡ Ok Ending.BadLine → IfSome (R.remaining reader.old) (λ bytes. ¬ (All IsText (cut bytes))) }
    ensures fault { IfErr result (λ fault. ForEachPastReading (A.is_after answers.old) (R.remaining reader.old) (λ setting texts past bytes.
        AreBrokenOff (R.remaining reader.new) (Appends (W.contents writer.old) (W.contents writer.new)) fault setting past bytes)) }
    ensures reads { AreFewRead result (R.remaining reader.old) (R.remaining reader.new) }
{
    let mut text = String::new(alloc);
    let mut lines = Lines::new(alloc);
    loop {
        match lines.next_line(reader, writer)? {
            Line::Whole(line) => answer_line(alloc, writer, answers, line.as_str(), &mut text)?,
            Line::Bad => {
                say_bye(writer)?;
                return Ok(Ending::BadLine);
            }
            Line::End => {
                flush(writer)?;
                return Ok(Ending::Input);
            }
        }
    }
}

// Writes the reply to a line. Overwrites this text with the reply.
fn answer_line<W: Write, A: Answers>(
    alloc: Global,
    writer: &mut W,
    answers: &mut A,
    line: &str,
    text: &mut String,
) -> Result<(), ScriptFault>
    ensures state { OnOk result (ForEachPast (A.is_after answers.old) (λ setting texts past. A.is_after answers.new setting (texts ++ line.now ∷ []) (past_behind setting past line.now))) }
    ensures written { OnOk result (ForEachPast (A.is_after answers.old) (λ setting texts past. Appends (W.contents writer.old) (W.contents writer.new) (reply_to_line setting past line.now))) }
    ensures fault { IfErr result (λ fault. IsUnanswered fault (ForEachPast (A.is_after answers.old) (λ setting texts past.
        Appends (W.contents writer.old) (W.contents writer.new) (memory_reply setting line.now)))) }
{
    match answers.answer(alloc, line, text) {
        Ok(()) => write(writer, text.as_str().as_bytes()),
        Err(Unanswered { speaker }) => {
            say_memory(writer, addressee(speaker, line).as_bytes())?;
            Err(ScriptFault::Memory)
        }
    }
}

// Writes that a line is too long or not UTF-8.
fn say_bye<W: Write>(writer: &mut W) -> Result<(), ScriptFault>
    ensures written { OnOk result (Appends (W.contents writer.old) (W.contents writer.new) bye_bad_line) }
    ensures fault { IfErr result (λ fault. fault ≡ ScriptFault.Write) }
{
    write(writer, b"host bye bad-line\n")?;
    flush(writer)
}

// Writes that there is no memory for a reply, to this addressee.
fn say_memory<W: Write>(writer: &mut W, who: &[u8]) -> Result<(), ScriptFault>
    ensures written { OnOk result (Appends (W.contents writer.old) (W.contents writer.new) (err_memory who.now)) }
    ensures fault { IfErr result (λ fault. fault ≡ ScriptFault.Write) }
{
    write(writer, who)?;
    write(writer, b" err memory\n")?;
    flush(writer)
}

fn write<W: Write>(writer: &mut W, bytes: &[u8]) -> Result<(), ScriptFault>
    ensures written { OnOk result (Appends (W.contents writer.old) (W.contents writer.new) bytes.now) }
    ensures fault { IfErr result (λ fault. fault ≡ ScriptFault.Write) }
{
    match writer.write_all(bytes) {
        Ok(()) => Ok(()),
        Err(_) => Err(ScriptFault::Write),
    }
}

fn flush<W: Write>(writer: &mut W) -> Result<(), ScriptFault>
    ensures kept { Keeps (W.contents writer.old) (W.contents writer.new) }
    ensures fault { IfErr result (λ fault. fault ≡ ScriptFault.Write) }
{
    match writer.flush() {
        Ok(()) => Ok(()),
        Err(_) => Err(ScriptFault::Write),
    }
}
