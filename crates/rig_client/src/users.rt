//! The user of a client: where the lines come from, and where the answers go.

ghost use Rattle.std.specs.Prelude.{◌≡◌, IfErr, OnOk};
ghost use Rattle.std.specs.Io.KnownBytes.{Appends, Keeps};
ghost use Rattle.rig_client.specs.Ends.{said_to};

use crate::faults::ClientFault;
use std::alloc::Global;
use std::io::{Read, Write};
use text_lines::lines::{Line, Lines};

/// A user: the input lines, the output for answers, and the output for the client's own messages.
#[derive(Drop)]
pub struct User<I, O, E> {
    lines: Lines,
    input: I,
    output: O,
    errors: E,
    prompt: Option<String>,
}

impl<I: Read, O: Write, E: Write> User<I, O, E> {
    /// Creates a user at this input. The prompt, if there is one, is written before each line, as at a terminal.
    pub fn new(
        alloc: Global,
        input: I,
        output: O,
        errors: E,
        prompt: Option<String>,
    ) -> User<I, O, E>
        ensures { said_to O.contents result ≡ O.contents output }
    {
        User {
            lines: Lines::new(alloc),
            input,
            output,
            errors,
            prompt,
        }
    }

    /// Whether the user is prompted.
    pub fn is_prompted(&self) -> bool {
        self.prompt.is_some()
    }

    /// Writes the prompt, and returns the next line. The number of reads has no limit.
    ///
    /// # Errors
    /// As `Lines::next_line_uncounted`, and `Read` if an allocation for a line fails.
    pub fn next_line(&mut self) -> Result<Line, ClientFault> {
        if let Some(prompt) = &self.prompt {
            say(&mut self.output, prompt.as_str().as_bytes())?;
        }
        Ok(
            self.lines
                .next_line_uncounted(&mut self.input, &mut self.output)?,
        )
    }

    /// Asks a question, and returns the answer. `None` if the input has ended.
    ///
    /// # Errors
    /// As `next_line`, and `KeyRange` if the line is too long or not UTF-8.
    pub fn answer_to(&mut self, question: &str) -> Result<Option<String>, ClientFault> {
        say(&mut self.output, question.as_bytes())?;
        match self
            .lines
            .next_line_uncounted(&mut self.input, &mut self.output)?
        {
            Line::Whole(answer) => Ok(Some(answer)),
            Line::Bad => Err(ClientFault::KeyRange),
            Line::End => Ok(None),
        }
    }

    /// Writes bytes for the user.
    ///
    /// # Errors
    /// `Write`.
    pub fn say(&mut self, bytes: &[u8]) -> Result<(), ClientFault>
        ensures said { OnOk result (Appends (said_to O.contents self.old) (said_to O.contents self.new) bytes.now) }
        ensures fault { IfErr result (λ fault. fault ≡ ClientFault.Write) }
    {
        say(&mut self.output, bytes)
    }

    /// Flushes what was written so far.
    ///
    /// # Errors
    /// `Write`.
    pub fn flush(&mut self) -> Result<(), ClientFault>
        ensures kept { Keeps (said_to O.contents self.old) (said_to O.contents self.new) }
        ensures fault { IfErr result (λ fault. fault ≡ ClientFault.Write) }
    {
        match self.output.flush() {
            Ok(()) => Ok(()),
            Err(_) => Err(ClientFault::Write),
        }
    }

    /// Writes a report of the client, after what was written so far.
    ///
    /// If the report itself can't be written, it is dropped.
    ///
    /// # Errors
    /// `Write` if what was said before can't be written.
    pub fn report(&mut self, text: &str) -> Result<(), ClientFault>
        ensures kept { Keeps (said_to O.contents self.old) (said_to O.contents self.new) }
        ensures fault { IfErr result (λ fault. fault ≡ ClientFault.Write) }
    {
        self.flush()?;
        let _ = self.errors.write_all(text.as_bytes());
        let _ = self.errors.flush();
        Ok(())
    }

    /// Writes a remark as `report` does, if there is one.
    ///
    /// # Errors
    /// As `report`.
    pub fn remark(&mut self, remark: Option<String>) -> Result<(), ClientFault>
        ensures kept { Keeps (said_to O.contents self.old) (said_to O.contents self.new) }
        ensures fault { IfErr result (λ fault. fault ≡ ClientFault.Write) }
    {
        match remark {
            Some(remark) => self.report(remark.as_str()),
            None => Ok(()),
        }
    }

    /// Reports why something isn't sent, in a separate line after what was written so far.
    ///
    /// If the report itself can't be written, it is dropped.
    ///
    /// # Errors
    /// `Write` if what was said before can't be written.
    pub fn report_unsent(&mut self, subject: &str, reason: &str) -> Result<(), ClientFault>
        ensures kept { Keeps (said_to O.contents self.old) (said_to O.contents self.new) }
        ensures fault { IfErr result (λ fault. fault ≡ ClientFault.Write) }
    {
        self.flush()?;
        let _ = writeln!(self.errors, "not sent: {subject} {reason}");
        let _ = self.errors.flush();
        Ok(())
    }
}

fn say<W: Write>(writer: &mut W, bytes: &[u8]) -> Result<(), ClientFault>
    ensures said { OnOk result (Appends (W.contents writer.old) (W.contents writer.new) bytes.now) }
    ensures fault { IfErr result (λ fault. fault ≡ ClientFault.Write) }
{
    match writer.write_all(bytes) {
        Ok(()) => Ok(()),
        Err(_) => Err(ClientFault::Write),
    }
}
