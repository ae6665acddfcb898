//! How a session goes on after the answer to a line, and how it ends.

ghost use Rattle.std.specs.Prelude.{◌≡◌, IfOk, string_bytes};
ghost use Rattle.rig_client.specs.Outcomes.{next_after, report_on_refusal};

use crate::answers::AnswerKind;
use std::alloc::{AllocError, Global};

/// What a client does after a line that was refused or not sent.
#[derive(Clone, Copy, Debug, PartialEq, Eq)]
pub enum OnRefusal {
    /// It goes on with the next line.
    GoOn,
    /// It sends no other line but `quit`.
    Quit,
}

/// How a session ended without a fault.
#[derive(Clone, Copy, Debug, PartialEq, Eq)]
pub enum Outcome {
    /// By `bye`, after the user's last line or `quit`.
    Bye,
    /// After a line that was refused or not sent.
    Refused,
}

/// What a client does after the answer to a line.
#[derive(Clone, Copy, Debug, PartialEq, Eq)]
pub enum Next {
    /// It reads the next line.
    Line,
    /// It sends `quit`, and ends.
    Quit,
    /// It ends as after `bye`.
    Bye,
    /// It ends as after another last line.
    Ended,
}

/// Returns what a client does after an answer of this kind.
pub fn next_after(kind: AnswerKind, on_refusal: OnRefusal) -> Next
    ensures { result ≡ next_after on_refusal kind }
{
    match (kind, on_refusal) {
        (AnswerKind::Bye, _) => Next::Bye,
        (AnswerKind::Ended, _) => Next::Ended,
        (AnswerKind::Refused, OnRefusal::Quit) => Next::Quit,
        (AnswerKind::GoesOn | AnswerKind::Refused, _) => Next::Line,
    }
}

/// Returns the line that reports, counted from 1, after which line a session was ended.
///
/// # Errors
/// Out of memory.
pub fn report_on_refusal(alloc: Global, number: u64) -> Result<String, AllocError>
    ensures { IfOk result (λ report. string_bytes report ≡ report_on_refusal number) }
{
    format!(in alloc; "line {number}: not carried out; with --strict no line after it is sent\n")
}
