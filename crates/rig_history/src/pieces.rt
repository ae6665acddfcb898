//! The pieces in which a history goes to its file.

ghost use Rattle.std.specs.Prelude.{◌≡◌, ◌<◌, ◌≤◌, ◌==◌, ◌^◌, ◌++◌, ℕ, List, IfOk, length, string_bytes, take};
ghost use Rattle.std.specs.Io.KnownBytes.{Appends};
ghost use Rattle.rig_history.specs.Entries.{text_of_log, tick_after};
ghost use Rattle.rig_history.specs.Pieces.{tick_after_log};

use crate::entries::add_entry;
use rig_model::config::Config;
use rig_model::logged::Logged;
use std::alloc::{AllocError, Global};
use std::io::Write;
use std::marker::Model;

/// A piece of a history's text, on its way to a file. Contracts see it as the bytes that are left to write, and the number of the next
/// instant after its entries.
#[derive(Drop)]
pub struct Piece {
    text: String,
    // how many bytes of the text are written
    written: usize,
    next_tick: u64,
    ghost within: { written ≤ length (string_bytes text) },
}

impl Model for Piece {
    ghost use Rattle.std.specs.Prelude.{drop, string_bytes};
    ghost use Rattle.rig_history.specs.Pieces.{PieceValue};

    ghost Value = { PieceValue };

    ghost view = { λ p. record { left = drop p.written (string_bytes p.text); next_tick = p.next_tick } };
}

impl Piece {
    /// The text of a log's entries, the oldest first, before which `tick` is the number of the next instant. Such a number is at most
    /// `u64::MAX`.
    ///
    /// # Errors
    /// Out of memory.
    pub fn of_log(
        alloc: Global,
        config: &Config,
        tick: u64,
        log: &[Logged],
    ) -> Result<Piece, AllocError>
        ensures left { IfOk result (λ piece. tick_after_log tick log.now < 2 ^ 64 → piece.left ≡ text_of_log config.now tick log.now) }
        ensures next_tick { IfOk result (λ piece. tick_after_log tick log.now < 2 ^ 64 → piece.next_tick ≡ tick_after_log tick log.now) }
    {
        let mut text = String::new(alloc);
        let mut next_tick = tick;
        for entry in log {
            add_entry(&mut text, config, next_tick, entry)?;
            next_tick = tick_after(next_tick, entry);
        }
        Ok(Piece {
            text,
            written: 0,
            next_tick,
        })
    }

    /// The number of the next instant after its entries.
    pub fn next_tick(&self) -> u64
        ensures { result ≡ self.now.next_tick }
    {
        self.next_tick
    }

    /// Writes what is left, as far as the writer takes it at once. Returns whether nothing is left. What the writer took isn't written
    /// again.
    pub fn write<W: Write>(&mut self, writer: &mut W) -> bool
        ensures taken { (bytes : List ℕ) × (self.old.left ≡ bytes ++ self.new.left) × Appends (W.contents writer.old) (W.contents writer.new) bytes }
        ensures left { result ≡ (length self.new.left == 0) }
        ensures next_tick { self.new.next_tick ≡ self.old.next_tick }
    {
        let left = &self.text.as_str().as_bytes()[self.written..];
        if left.is_empty() {
            return true;
        }
        self.written += taken_by(writer, left);
        self.written == self.text.len()
    }
}

// How many of these bytes the writer takes at once; none if it fails.
fn taken_by<W: Write>(writer: &mut W, bytes: &[u8]) -> usize
    ensures within { result ≤ length bytes.now }
    ensures taken { Appends (W.contents writer.old) (W.contents writer.new) (take result bytes.now) }
{
    writer.write(bytes).unwrap_or(0)
}

// The number of the next instant after an entry.
fn tick_after(tick: u64, entry: &Logged) -> u64
    ensures { tick_after tick entry.now < 2 ^ 64 → result ≡ tick_after tick entry.now }
{
    match entry {
        Logged::Call(_, _) => tick,
        Logged::Tick(_) => tick.saturating_add(1),
        Logged::Done(_) => tick,
    }
}
