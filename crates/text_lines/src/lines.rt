//! Lines of a reader: UTF-8, at most 16,384 bytes before each LF, with one CR at the end removed.

ghost use Rattle.std.specs.Prelude.{◌≡◌, ◌≢◌, ◌<◌, ◌≤◌, ◌+◌, ℕ, true, false, List, [], ◌∷◌, ◌++◌, length, map, string_bytes, Option, Some, IfErr, IfSome, OnOk, OnErr, Ok, Err};
ghost use Rattle.std.specs.Io.{ReadsAtMost};
ghost use Rattle.std.specs.Io.KnownBytes.{Keeps, ReadConsumes};
ghost use Rattle.tokio_util.specs.Codec.Lines.{IsOutOfMemory};
ghost use Rattle.rig_model.specs.declared.limits.TheConstants.{MAX_READS};
ghost use Rattle.text_lines.specs.cited.Batches.{AreNextLines, IsAtHand, IsFurtherAtHand, IsFurtherBehind};
ghost use Rattle.text_lines.specs.declared.lines.Lines.{Lines};
ghost use Rattle.text_lines.specs.declared.lines.TheConstants.{MOST_LINES};
ghost use Rattle.text_lines.specs.cited.Reading.{AreAhead, AreAtLineStart, IsReading, IsLeft, IsFurther, IsNextLine, AreCounted, has_ended, left_at_most, reads_of};

use crate::faults::LinesFault;
use bytes::BytesMut;
use rig_model::limits::{MAX_LINE, MAX_READS};
use std::alloc::Global;
use std::io;
use std::io::{Read, Write};
use tokio_util::codec::{Decoder, LinesCodec, LinesCodecError};

/// The most bytes that a read may give.
pub const PAGE: usize = 4096;

/// The most lines that `Lines::next_lines` gives.
pub const MOST_LINES: usize = 32;

/// What the next line is.
#[derive(Drop)]
pub enum Line {
    /// A line, without its LF and without one CR before it.
    Whole(String),
    /// The line is longer than 16,384 bytes, or isn't UTF-8.
    Bad,
    /// The input has ended.
    End,
}

/// What follows the lines that were given.
#[derive(Clone, Copy, Debug, PartialEq, Eq)]
pub enum Behind {
    /// More lines may come.
    More,
    /// A line that is longer than 16,384 bytes, or isn't UTF-8.
    Bad,
    /// The end of the input.
    End,
}

/// The lines of a reader. Each call borrows the reader.
#[derive(Drop)]
pub struct Lines {
    alloc: Global,
    codec: LinesCodec,
    buffer: BytesMut,
    // What a read gave. It is kept here so that no page is made for each read.
    page: [u8; PAGE],
    reads: u32,
    at_end: bool,
}

impl Lines {
    /// The lines of a reader from which nothing was read yet.
    pub fn new(alloc: Global) -> Lines
        ensures left { (bytes : List ℕ) → IsLeft result (Some bytes) bytes }
        ensures count { reads_of result ≡ 0 }
        ensures begins { AreAtLineStart result }
    {
        Lines {
            alloc,
            codec: LinesCodec::new_with_max_length(MAX_LINE),
            buffer: BytesMut::new(alloc),
            page: [0; PAGE],
            reads: 0,
            at_end: false,
        }
    }

    /// The number of reads that gave bytes so far: at most 1,048,576. `next_line_uncounted` counts from 0 again.
    pub fn reads(&self) -> u32
        ensures { result ≡ reads_of self.now }
    {
        self.reads
    }

    /// The next line. Reads from the reader only if no line is left of what was read before, and flushes the writer before each read.
    /// A read that a signal interrupted is made again. Only reads that give bytes are counted. The 1,048,576th is the last that may come.
    ///
    /// # Errors
    /// - `Read` if a read failed, and `Write` if a flush failed.
    /// - `Turns` if 1,048,576 reads gave bytes and the end wasn't found. All lines whose LF was read were given by then.
    /// - `Memory` if there is no memory for the next line.
    #[inline(always)]
    pub fn next_line<R: Read, W: Write>(
        &mut self,
        reader: &mut R,
        writer: &mut W,
    ) -> Result<Line, LinesFault>
        ensures line { (bytes : List ℕ) → IsLeft self.old (R.remaining reader.old) bytes
            → IsNextLine bytes result (R.remaining reader.new) (has_ended self.new) (IsLeft self.new (R.remaining reader.new)) }
        ensures count { AreCounted (reads_of self.old) (reads_of self.new) (R.remaining reader.old) (R.remaining reader.new) }
        ensures bound { reads_of self.old ≤ MAX_READS → reads_of self.new ≤ MAX_READS }
        ensures turns { result ≡ Err LinesFault.Turns → MAX_READS ≤ reads_of self.new }
        ensures further { AreAtLineStart self.old → IsFurther self.old result self.new }
        ensures stays_ended { has_ended self.old ≡ true → has_ended self.new ≡ true }
        ensures no_read { has_ended self.old ≡ true → IfErr result (λ fault. fault ≡ LinesFault.Memory) }
        ensures failed_read { IfErr result (λ fault. has_ended self.new ≡ true → fault ≡ LinesFault.Memory) }
        ensures written { Keeps (W.contents writer.old) (W.contents writer.new) }
    {
        loop {
            if self.at_end {
                return self.last_line();
            }
            match self.codec.decode(&mut self.buffer) {
                Ok(None) => {}
                Ok(Some(text)) => return Ok(Line::Whole(text)),
                Err(error) => return unread(error),
            }
            let Ok(()) = writer.flush() else {
                return Err(LinesFault::Write);
            };
            self.fill(reader)?;
        }
    }

    /// The next line, as `next_line` returns it, with the reads counted from 0 again. So all lines together may take any number of reads, as
    /// those of an operator that never ends the input.
    ///
    /// # Errors
    /// Those of `next_line`. `Turns` if this line alone took 1,048,576 reads: a line of at most 16,384 bytes doesn't.
    pub fn next_line_uncounted<R: Read, W: Write>(
        &mut self,
        reader: &mut R,
        writer: &mut W,
    ) -> Result<Line, LinesFault>
        ensures line { (bytes : List ℕ) → IsLeft self.old (R.remaining reader.old) bytes
            → IsNextLine bytes result (R.remaining reader.new) (has_ended self.new) (IsLeft self.new (R.remaining reader.new)) }
        ensures count { AreCounted 0 (reads_of self.new) (R.remaining reader.old) (R.remaining reader.new) }
        ensures turns { result ≡ Err LinesFault.Turns → MAX_READS ≤ reads_of self.new }
        ensures stays_ended { has_ended self.old ≡ true → has_ended self.new ≡ true }
        ensures no_read { has_ended self.old ≡ true → IfErr result (λ fault. fault ≡ LinesFault.Memory) }
        ensures written { Keeps (W.contents writer.old) (W.contents writer.new) }
    {
        self.reads = 0;
        self.next_line(reader, writer)
    }

    /// Puts the next lines into `texts`, in place of what was there, and returns what follows them. The lines are the next one, as
    /// `next_line` gives it, and those after it that were read with it, at most 32 in all.
    ///
    /// # Errors
    /// Those of `next_line`. The lines before the fault are in `texts`.
    pub fn next_lines<R: Read, W: Write>(
        &mut self,
        reader: &mut R,
        writer: &mut W,
        texts: &mut Vec<String>,
    ) -> Result<Behind, LinesFault>
        ensures lines { (bytes : List ℕ) → IsLeft self.old (R.remaining reader.old) bytes
            → AreNextLines bytes (map string_bytes texts.new.items) result (R.remaining reader.new) (has_ended self.new) (IsLeft self.new (R.remaining reader.new)) }
        ensures few { length texts.new.items ≤ MOST_LINES }
        ensures count { AreCounted (reads_of self.old) (reads_of self.new) (R.remaining reader.old) (R.remaining reader.new) }
        ensures bound { reads_of self.old ≤ MAX_READS → reads_of self.new ≤ MAX_READS }
        ensures turns { result ≡ Err LinesFault.Turns → MAX_READS ≤ reads_of self.new }
        ensures further { AreAtLineStart self.old → IsFurtherBehind self.old result self.new }
        ensures stays_ended { has_ended self.old ≡ true → has_ended self.new ≡ true }
        ensures no_read { IfErr result (λ fault. has_ended self.new ≡ true → fault ≡ LinesFault.Memory) }
        ensures written { Keeps (W.contents writer.old) (W.contents writer.new) }
    {
        texts.clear();
        let first = self.next_line(reader, writer)?;
        self.add_lines(first, texts)
    }

    // Adds this line to the texts, and those after it that were read with it. Returns what follows them.
    fn add_lines(&mut self, first: Line, texts: &mut Vec<String>) -> Result<Behind, LinesFault>
        requires { length texts.old.items ≡ 0 }
        ensures few { length texts.new.items ≤ MOST_LINES }
        ensures lines { (remaining : Option (List ℕ)) (bytes : List ℕ) → IsNextLine bytes (Ok first) remaining (has_ended self.old) (IsLeft self.old remaining)
            → AreNextLines bytes (map string_bytes texts.new.items) result remaining (has_ended self.new) (IsLeft self.new remaining) }
        ensures further { (before : Lines) → IsFurther before (Ok first) self.old → IsFurtherBehind before result self.new }
        ensures faults { IfErr result (λ fault. fault ≡ LinesFault.Memory) }
        ensures count { reads_of self.new ≡ reads_of self.old }
        ensures ended { has_ended self.new ≡ has_ended self.old }
    {
        let mut line = first;
        loop {
            match line {
                Line::Whole(text) => add_text(texts, text)?,
                Line::Bad => return Ok(Behind::Bad),
                Line::End => return Ok(Behind::End),
            }
            if texts.len() >= MOST_LINES {
                return Ok(Behind::More);
            }
            line = match self.at_hand()? {
                Some(next) => next,
                None => return Ok(Behind::More),
            };
        }
    }

    // The next line, if all of it was read. `Memory` if there is no memory for it.
    fn at_hand(&mut self) -> Result<Option<Line>, LinesFault>
        ensures line { (remaining : Option (List ℕ)) (bytes : List ℕ) → IsLeft self.old remaining bytes
            → IsAtHand bytes result remaining (has_ended self.new) (IsLeft self.new remaining) }
        ensures further { AreAtLineStart self.old → IsFurtherAtHand self.old result self.new }
        ensures faults { IfErr result (λ fault. fault ≡ LinesFault.Memory) }
        ensures count { reads_of self.new ≡ reads_of self.old }
        ensures ended { has_ended self.new ≡ has_ended self.old }
    {
        match self.codec.decode(&mut self.buffer) {
            Ok(Some(text)) => Ok(Some(Line::Whole(text))),
            Ok(None) => {
                // Its bytes so far are searched again, together with those that come.
                self.codec = LinesCodec::new_with_max_length(MAX_LINE);
                Ok(None)
            }
            Err(error) => Ok(Some(unread(error)?)),
        }
    }

    // The next line, after the reader has ended.
    fn last_line(&mut self) -> Result<Line, LinesFault>
        requires { self.old.at_end ≡ true }
        ensures line { (remaining : Option (List ℕ)) (bytes : List ℕ) → IsReading self.old.codec self.old.buffer.items → AreAhead self.old remaining bytes
            → IsNextLine bytes result remaining true (IsLeft self.new remaining) }
        ensures further { IsReading self.old.codec self.old.buffer.items → reads_of self.old ≤ MAX_READS → IsFurther self.old result self.new }
        ensures faults { IfErr result (λ fault. fault ≡ LinesFault.Memory) }
        ensures count { reads_of self.new ≡ reads_of self.old }
        ensures stays_ended { self.new.at_end ≡ true }
    {
        if self.buffer.is_empty() {
            return Ok(Line::End);
        }
        match self.codec.decode_eof(&mut self.buffer) {
            Ok(Some(text)) => Ok(Line::Whole(text)),
            Ok(None) => {
                // A CR alone is a blank line.
                self.buffer.clear();
                Ok(Line::Whole(String::new(self.alloc)))
            }
            Err(error) => unread(error),
        }
    }

    // Reads what there is, up to a page. A read that a signal interrupted is made again.
    fn fill<R: Read>(&mut self, reader: &mut R) -> Result<(), LinesFault>
        requires { self.old.at_end ≡ false }
        ensures filled { OnOk result ((bytes : List ℕ) → AreAhead self.old (R.remaining reader.old) bytes → AreAhead self.new (R.remaining reader.new) bytes) }
        ensures reading { OnOk result (IsReading self.old.codec self.old.buffer.items → IsReading self.new.codec self.new.buffer.items) }
        ensures fewer { OnOk result (left_at_most self.new ≤ left_at_most self.old) }
        ensures faults { IfErr result (λ fault. fault ≢ LinesFault.Write) }
        ensures kept { IfErr result (λ fault. fault ≢ LinesFault.Memory → Keeps (R.remaining reader.old) (R.remaining reader.new)) }
        ensures memory { result ≡ Err LinesFault.Memory → IfSome (R.remaining reader.old) (λ bytes. 0 < length bytes) }
        ensures going { OnErr result (self.new.at_end ≡ false) }
        ensures count { AreCounted (reads_of self.old) (reads_of self.new) (R.remaining reader.old) (R.remaining reader.new) }
        ensures further { OnOk result (self.new.at_end ≡ false → reads_of self.new ≡ reads_of self.old + 1) }
        ensures ended { self.new.at_end ≡ true → reads_of self.new ≡ reads_of self.old }
        ensures room { OnOk result (reads_of self.old < MAX_READS) }
        ensures bound { reads_of self.old ≤ MAX_READS → reads_of self.new ≤ MAX_READS }
        ensures turns { result ≡ Err LinesFault.Turns → MAX_READS ≤ reads_of self.new }
    {
        if self.reads() >= MAX_READS {
            return Err(LinesFault::Turns);
        }
        match read_uninterrupted(reader, &mut self.page) {
            Err(_) => Err(LinesFault::Read),
            Ok(0) => {
                self.at_end = true;
                Ok(())
            }
            Ok(len) => {
                self.reads += 1;
                let Ok(()) = self.buffer.extend_from_slice(&self.page[..len]) else {
                    return Err(LinesFault::Memory);
                };
                Ok(())
            }
        }
    }
}

// Reads what there is. A read that a signal interrupted is made again.
fn read_uninterrupted<R: Read>(reader: &mut R, page: &mut [u8]) -> io::Result<usize>
    ensures bound { ReadsAtMost result page.new }
    ensures bytes { ReadConsumes (R.remaining reader.old) (R.remaining reader.new) result page.new }
{
    for _read in 0..u64::MAX {
        match reader.read(page) {
            Err(error) if error.kind() == io::ErrorKind::Interrupted => {}
            answer => return answer,
        }
    }
    Err(io::Error::from(io::ErrorKind::Interrupted))
}

fn add_text(texts: &mut Vec<String>, text: String) -> Result<(), LinesFault>
    ensures added { OnOk result (texts.new.items ≡ texts.old.items ++ text ∷ []) }
    ensures refused { OnErr result (texts.new.items ≡ texts.old.items) }
    ensures faults { IfErr result (λ fault. fault ≡ LinesFault.Memory) }
{
    match texts.push(text) {
        Ok(()) => Ok(()),
        Err(_) => Err(LinesFault::Memory),
    }
}

// What the codec's error about a line means: a bad line, or out of memory.
fn unread(error: LinesCodecError) -> Result<Line, LinesFault>
    ensures fault { IfErr result (λ fault. fault ≡ LinesFault.Memory) }
    ensures memory { IsOutOfMemory {T = ℕ} (Err error) → result ≡ Err LinesFault.Memory }
    ensures other { ¬ IsOutOfMemory {T = ℕ} (Err error) → result ≡ Ok Line.Bad }
{
    match error {
        LinesCodecError::MaxLineLengthExceeded => Ok(Line::Bad),
        LinesCodecError::Io(error) => {
            if error.kind() == io::ErrorKind::OutOfMemory {
                Err(LinesFault::Memory)
            } else {
                Ok(Line::Bad)
            }
        }
    }
}
