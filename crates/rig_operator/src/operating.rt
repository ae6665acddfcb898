//! The operator: the lines of a reader, each answered before the next one is read.

ghost use Rattle.std.specs.Prelude.{◌≡◌, ◌≢◌, ℕ, List, IfOk, IfErr, OnOk, map};
ghost use Rattle.std.specs.Bool.{MatchBool};
ghost use Rattle.std.specs.Io.KnownBytes.{Appends};
ghost use Rattle.rig_operator.specs.Asked.{Adds, completed, number_after};
ghost use Rattle.rig_operator.specs.Operation.{IsBrokenOff, IsEnd, Operates, WrittenBefore};
ghost use Rattle.rig_operator.specs.inner.Answering.{AreReplied, HasReplied, IsReply, IsUnwritten};
ghost use Rattle.rig_model.specs.OperatorLines.{archive, form_of, halt, line_values, operator_line_of, tick, tick_of};
ghost use Rattle.rig_model.specs.lines.Words.{values_of_words, words_of};
ghost use Rattle.text_lines.specs.cited.Reading.{IsLeft};

use crate::faults::OperatorFault;
use crate::replies::{archive_refusal, archive_reply, lines_reply, refusal, tick_reply};
use crate::rigs::Rig;
use rig_model::lines::words;
use rig_model::operator_lines::{OperatorLine, operator_line};
use std::alloc::Global;
use std::io::{Read, Write};
use std::sync::Wait;
use tenant_jobs::jobs::{Jobs, run_job};
use text_lines::lines::{Line, Lines};

/// How an operator's lines ended.
#[derive(Clone, Copy, Debug, PartialEq, Eq)]
pub enum Ending {
    /// The line `halt` ended them.
    Halt,
    /// The input has ended, or a line was longer than 16,384 bytes or not UTF-8.
    Input,
}

/// Answers lines, each before the next one is read, until one is `halt` or they end. The first instant has the number 0.
///
/// If there is no memory for the values of a `tick`, or for the reply to `lines`, it writes `err memory` and reads the next line. The number
/// of reads has no limit.
///
/// # Errors
/// `Read` and `Write` as in `Lines::next_line_uncounted`. `Read` also if there is no memory for a line, and `Write` if a reply can't be written.
pub fn operate<R: Wait, G: Rig, I: Read, W: Write>(
    rt: &R,
    alloc: Global,
    rig: &mut G,
    lines: &mut Lines,
    reader: &mut I,
    writer: &mut W,
) -> Result<Ending, OperatorFault>
    ensures ended { IfOk result (λ ending. Operates (Adds (G.asked rig.old) (G.asked rig.new)) (Appends (W.contents writer.old) (W.contents writer.new)) (λ texts.
        (bytes : List ℕ) → IsLeft lines.old (I.remaining reader.old) bytes → IsEnd ending bytes texts (I.remaining reader.new) (IsLeft lines.new (I.remaining reader.new)))) }
    ensures fault { IfErr result (λ fault. Operates (Adds (G.asked rig.old) (G.asked rig.new)) (WrittenBefore fault (Appends (W.contents writer.old) (W.contents writer.new))) (λ texts.
        (bytes : List ℕ) → IsLeft lines.old (I.remaining reader.old) bytes → IsBrokenOff fault bytes texts (I.remaining reader.new))) }
{
    let mut number = 0;
    for _ in rt.forever() {
        match lines.next_line_uncounted(reader, writer)? {
            Line::Whole(line) => {
                if answer(rt, alloc, rig, &mut number, line.as_str(), writer)? {
                    return Ok(Ending::Halt);
                }
            }
            Line::Bad => return Ok(Ending::Input),
            Line::End => return Ok(Ending::Input),
        }
    }
    unreachable!()
}

// Answers a line. `number` is the number of the next instant. Returns whether the line is `halt`.
fn answer<R: Wait, G: Rig, W: Write>(
    rt: &R,
    alloc: Global,
    rig: &mut G,
    number: &mut u64,
    line: &str,
    writer: &mut W,
) -> Result<bool, OperatorFault>
    ensures answered { IfOk result (λ halts. MatchBool halts
        ((operator_line_of (words_of line.now) ≡ halt) × (rig.new ≡ rig.old) × (writer.new ≡ writer.old))
        (HasReplied number.old number.new line.now (Adds (G.asked rig.old) (G.asked rig.new)) (Appends (W.contents writer.old) (W.contents writer.new)))) }
    ensures fault { IfErr result (λ fault. IsUnwritten fault (HasReplied number.old number.new line.now (Adds (G.asked rig.old) (G.asked rig.new)))) }
{
    match operator_line(line) {
        OperatorLine::Halt => Ok(true),
        line => {
            carry_out(rt, alloc, rig, number, line, writer)?;
            Ok(false)
        }
    }
}

// Answers a line that isn't `halt`.
fn carry_out<R: Wait, G: Rig, W: Write>(
    rt: &R,
    alloc: Global,
    rig: &mut G,
    number: &mut u64,
    line: OperatorLine<'_>,
    writer: &mut W,
) -> Result<(), OperatorFault>
    requires { form_of line ≢ halt }
    ensures { IsReply result (AreReplied number.old number.new (form_of line.entry) (Adds (G.asked rig.old) (G.asked rig.new))) (Appends (W.contents writer.old) (W.contents writer.new)) }
{
    match line {
        OperatorLine::Blank => Ok(()),
        OperatorLine::Tick(values) => tick(rt, alloc, rig, number, values, writer),
        OperatorLine::Lines => show_lines(rt, alloc, rig, writer),
        OperatorLine::Wait => {
            rig.settle(rt);
            say(writer, "ok wait\n")
        }
        OperatorLine::Archive => archive(rt, rig, writer),
        OperatorLine::Halt => unreachable!(),
        OperatorLine::Work => say(writer, "err bad-command\n"),
        OperatorLine::WorkOf(_) => say(writer, "err bad-command\n"),
        OperatorLine::BadCommand => say(writer, "err bad-command\n"),
    }
}

// Answers a `tick`, given the words after it.
fn tick<R: Wait, G: Rig, W: Write>(
    rt: &R,
    alloc: Global,
    rig: &mut G,
    number: &mut u64,
    values: &str,
    writer: &mut W,
) -> Result<(), OperatorFault>
    ensures { IsReply result (AreReplied number.old number.new (tick_of (values_of_words (words_of values.now))) (Adds (G.asked rig.old) (G.asked rig.new))) (Appends (W.contents writer.old) (W.contents writer.new)) }
{
    match words::values_of_words(alloc, values) {
        Ok(Some(frame)) => instant(rt, rig, number, frame.as_slice(), writer),
        Ok(None) => say(writer, "err bad-command\n"),
        Err(_) => say(writer, "err memory\n"),
    }
}

// Gives an instant and has its jobs run. Writes its number.
fn instant<R: Wait, G: Rig, W: Write>(
    rt: &R,
    rig: &mut G,
    number: &mut u64,
    frame: &[i64],
    writer: &mut W,
) -> Result<(), OperatorFault>
    ensures { IsReply result (AreReplied number.old number.new (tick frame.now) (Adds (G.asked rig.old) (G.asked rig.new))) (Appends (W.contents writer.old) (W.contents writer.new)) }
{
    match rig.tick(rt, frame) {
        Ok(jobs) => {
            let unsent = rig.send(rt, jobs);
            complete(rt, rig, unsent);
            let reply = tick_reply(*number);
            *number = number.saturating_add(1);
            say(writer, reply.as_str())
        }
        Err(fault) => say(writer, refusal(fault)),
    }
}

// Runs the jobs that couldn't be sent, in their order.
fn complete<R: Wait, G: Rig>(rt: &R, rig: &mut G, jobs: Jobs)
    ensures { Adds (G.asked rig.old) (G.asked rig.new) (map completed jobs.jobs) }
{
    let mut jobs = jobs;
    while let Some(job) = jobs.take() {
        rig.done(rt, run_job(job));
    }
}

// Writes the value that each line is driven with.
fn show_lines<R: Wait, G: Rig, W: Write>(
    rt: &R,
    alloc: Global,
    rig: &mut G,
    writer: &mut W,
) -> Result<(), OperatorFault>
    ensures { (number : ℕ) → IsReply result (AreReplied number number line_values (Adds (G.asked rig.old) (G.asked rig.new))) (Appends (W.contents writer.old) (W.contents writer.new)) }
{
    let Ok(values) = rig.lines(rt) else {
        return say(writer, "err memory\n");
    };
    match lines_reply(alloc, &values) {
        Ok(reply) => say(writer, reply.as_str()),
        Err(_) => say(writer, "err memory\n"),
    }
}

// Hands out an archive, and writes how many entries it had, or why it failed.
fn archive<R: Wait, G: Rig, W: Write>(
    rt: &R,
    rig: &mut G,
    writer: &mut W,
) -> Result<(), OperatorFault>
    ensures { (number : ℕ) → IsReply result (AreReplied number number archive (Adds (G.asked rig.old) (G.asked rig.new))) (Appends (W.contents writer.old) (W.contents writer.new)) }
{
    match rig.archive(rt) {
        Ok(entries) => say(writer, archive_reply(entries).as_str()),
        Err(fault) => say(writer, archive_refusal(fault)),
    }
}

// Writes a reply.
fn say<W: Write>(writer: &mut W, reply: &str) -> Result<(), OperatorFault>
    ensures written { OnOk result (Appends (W.contents writer.old) (W.contents writer.new) reply.now) }
    ensures fault { IfErr result (λ fault. fault ≡ OperatorFault.Write) }
{
    match writer.write_all(reply.as_bytes()) {
        Ok(()) => Ok(()),
        Err(_) => Err(OperatorFault::Write),
    }
}
