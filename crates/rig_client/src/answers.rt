//! One request, and its answer.

ghost use Rattle.std.specs.Prelude.{◌≡◌, ◌≢◌, ◌++◌, ◌⊎◌, IfOk, IfErr, IfSome, OnOk, codes};
ghost use Rattle.std.specs.declared.io.ErrorKind.TheVariants.{OutOfMemory};
ghost use Rattle.std.specs.Io.KnownBytes.{Appends};
ghost use Rattle.std.specs.Io.BufRead.{DropsThrough, take_through};
ghost use Rattle.rig_client.specs.Answers.{is_refused_program, kind_of_answer};
ghost use Rattle.rig_client.specs.Ends.{IsAsked, sent_to, to_come};

use crate::faults::ClientFault;
use std::alloc::Global;
use std::io::{BufRead, ErrorKind, Write};

/// What an answer means for the session.
#[derive(Clone, Copy, Debug, PartialEq, Eq)]
pub enum AnswerKind {
    /// The session goes on.
    GoesOn,
    /// `err ..`: the line wasn't carried out, and the session goes on. So too if a line isn't sent.
    Refused,
    /// `bye`, the answer to `quit`: the session has ended.
    Bye,
    /// Another last line, as `bye pass-full`.
    Ended,
}

/// A session of a server.
#[derive(Drop)]
pub struct Server<R, W> {
    reader: R,
    writer: W,
}

impl<R: BufRead, W: Write> Server<R, W> {
    /// Creates the session whose answers come from this reader, and whose lines go to this writer.
    pub fn new(reader: R, writer: W) -> Server<R, W>
        ensures answers { to_come R.remaining result ≡ R.remaining reader }
        ensures lines { sent_to W.contents result ≡ W.contents writer }
    {
        Server { reader, writer }
    }

    /// Sends a line, and returns its answer, with its LF.
    ///
    /// # Errors
    /// As [`send`] and [`receive`].
    pub fn ask(&mut self, alloc: Global, line: &str) -> Result<Vec<u8>, ClientFault>
        ensures answer { IfOk result (λ answer. IsAsked W.contents R.remaining self.old self.new line.now answer.items) }
        ensures fault { IfErr result (λ fault. (fault ≡ ClientFault.Lost) ⊎ (fault ≡ ClientFault.Memory)) }
    {
        send(&mut self.writer, line)?;
        receive(alloc, &mut self.reader)
    }
}

/// Writes a line and its LF.
///
/// # Errors
/// `Lost` if a write fails.
pub fn send<W: Write>(writer: &mut W, line: &str) -> Result<(), ClientFault>
    ensures sent { OnOk result (Appends (W.contents writer.old) (W.contents writer.new) (line.now ++ codes "\n")) }
    ensures fault { IfErr result (λ fault. fault ≡ ClientFault.Lost) }
{
    let Ok(()) = writer.write_all(line.as_bytes()) else {
        return Err(ClientFault::Lost);
    };
    let Ok(()) = writer.write_all(b"\n") else {
        return Err(ClientFault::Lost);
    };
    match writer.flush() {
        Ok(()) => Ok(()),
        Err(_) => Err(ClientFault::Lost),
    }
}

/// Reads up to and including the next LF.
///
/// # Errors
/// `Lost` if the bytes end before an LF, or a read fails, and `Memory`.
pub fn receive<R: BufRead>(alloc: Global, reader: &mut R) -> Result<Vec<u8>, ClientFault>
    ensures answer { IfOk result (λ answer. IfSome (R.remaining reader.old) (λ bytes. answer.items ≡ take_through 10 bytes)) }
    ensures rest { OnOk result (DropsThrough (R.remaining reader.old) (R.remaining reader.new) 10) }
    ensures fault { IfErr result (λ fault. (fault ≡ ClientFault.Lost) ⊎ (fault ≡ ClientFault.Memory)) }
{
    let mut answer = Vec::new(alloc);
    match reader.read_until(b'\n', &mut answer) {
        Ok(_) => {}
        Err(error) => return Err(unread(error.kind())),
    }
    match answer.last() {
        Some(b'\n') => Ok(answer),
        _ => Err(ClientFault::Lost),
    }
}

// The fault of a read that failed.
fn unread(kind: ErrorKind) -> ClientFault
    ensures memory { kind ≡ OutOfMemory → result ≡ ClientFault.Memory }
    ensures lost { kind ≢ OutOfMemory → result ≡ ClientFault.Lost }
    ensures either { (result ≡ ClientFault.Lost) ⊎ (result ≡ ClientFault.Memory) }
{
    match kind {
        ErrorKind::OutOfMemory => ClientFault::Memory,
        _ => ClientFault::Lost,
    }
}

/// Whether an answer refuses a text because it is no program, or because the program breaks a rule.
pub fn is_refused_program(answer: &[u8]) -> bool
    ensures { result ≡ is_refused_program answer.now }
{
    answer.starts_with(b"err syntax ") || answer.starts_with(b"err rule ")
}

/// Returns what an answer means for the session, by its text with its LF.
pub fn kind_of_answer(answer: &[u8]) -> AnswerKind
    ensures { result ≡ kind_of_answer answer.now }
{
    if answer == b"bye\n".as_slice() {
        AnswerKind::Bye
    } else if answer.starts_with(b"bye ") {
        AnswerKind::Ended
    } else if answer.starts_with(b"err ") {
        AnswerKind::Refused
    } else {
        AnswerKind::GoesOn
    }
}
