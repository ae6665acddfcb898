//! The part of a history that its file doesn't have yet.

ghost use Rattle.std.specs.Prelude.{◌≡◌, ◌↔◌, ◌++◌, ◌∷◌, [], ℕ, List, drop, length, Err, None, IsTrue, IfOk, OnErr, OnOk};
ghost use Rattle.std.specs.Io.KnownBytes.{Appends};
ghost use Rattle.locked_book.specs.Books.{ArchiveValue, IsLegalFrom};
ghost use Rattle.rig_model.specs.Logs.{calls_of_seat};
ghost use Rattle.rig_server.specs.inner.Archived.{IsReleased};
ghost use Rattle.rig_server.specs.inner.Pieces.{IsWritten, WritesOn, calls_left, entries_of, left_of};

use crate::archived::Archived;
use crate::register::Register;
use locked_book::archives::Archive;
use locked_book::desks::Desk;
use locked_book::naming::Naming;
use rig_history::pieces::Piece;
use rig_model::config::Config;
use rig_operator::rigs::ArchiveFault;
use std::alloc::{AllocError, Global};
use std::io::Write;
use std::sync::Wait;

/// What a desk has logged and its file doesn't have: a piece, which is written next, and the archives after it.
#[derive(Drop)]
pub(crate) struct Pieces<'a, N: Naming, F> {
    alloc: Global,
    config: &'a Config,
    file: F,
    // what is written next; none once it is written
    piece: Option<Piece>,
    // the oldest first
    archives: Vec<Archive<N>>,
    // the calls up to the piece that no pass was compared with
    calls: Archived,
    // how many entries of the oldest archive these have
    noted: usize,
    // the number of the next instant after the piece
    tick: u64,
}

impl<'a, N: Naming, F: Write> Pieces<'a, N, F> {
    /// Creates the pieces for this file, with nothing to write yet. `tick` is the number of the next instant.
    pub(crate) fn new(alloc: Global, config: &'a Config, tick: u64, file: F) -> Pieces<'a, N, F>
        ensures written { IsWritten result.piece result.archives.items }
        ensures calls { (archives : List ArchiveValue) (seat : ℕ) → calls_left result.calls.rows.items result.noted archives seat ≡ calls_of_seat seat (entries_of archives) }
        ensures tick { result.tick ≡ tick }
        ensures rest { (result.config.now ≡ config.now) × (result.file ≡ file) }
    {
        Pieces {
            alloc,
            config,
            file,
            piece: None,
            archives: Vec::new(alloc),
            calls: Archived::new(alloc),
            noted: 0,
            tick,
        }
    }

    /// Takes what the desk has logged since the last time, writes what was left from before, and then this. Returns how many entries the desk
    /// had logged.
    ///
    /// # Errors
    /// `Memory` if an allocation for the archive fails: nothing has changed then. `History` if something is left to write.
    pub(crate) fn archive<R: Wait>(&mut self, rt: &R, desk: &Desk<N>) -> Result<usize, ArchiveFault>
        ensures written { OnOk result (IsWritten self.new.piece self.new.archives.items) }
        ensures left { result ≡ Err ArchiveFault.History → ¬ (IsWritten self.new.piece self.new.archives.items) }
        ensures taken { (more : List ArchiveValue) × IfOk result (λ entries. entries ≡ length (entries_of more)) × (result ≡ Err ArchiveFault.Memory → more ≡ [])
            × WritesOn self.old.config.now self.old.piece self.old.tick (self.old.archives.items ++ more) self.new.piece self.new.tick self.new.archives.items (Appends (F.contents self.old.file) (F.contents self.new.file))
            × ((later : List ArchiveValue) (seat : ℕ) → calls_left self.new.calls.rows.items self.new.noted (self.new.archives.items ++ later) seat ≡ calls_left self.old.calls.rows.items self.old.noted ((self.old.archives.items ++ more) ++ later) seat) }
        ensures config { self.new.config ≡ self.old.config }
    {
        let entries = self.take(rt, desk)?;
        if !self.write() {
            return Err(ArchiveFault::History);
        }
        Ok(entries)
    }

    /// Takes what the desk has logged since the last time, and returns how many entries that is.
    ///
    /// # Errors
    /// Out of memory. Nothing has changed then.
    pub(crate) fn take<R: Wait>(&mut self, rt: &R, desk: &Desk<N>) -> Result<usize, AllocError>
        ensures taken { IfOk result (λ entries. (archive : ArchiveValue) × IsLegalFrom N.config N.first_tick archive.base archive.log archive.next.host
            × (entries ≡ length archive.log) × (self.new.archives.items ≡ self.old.archives.items ++ archive ∷ [])) }
        ensures refused { OnErr result (self.new.archives.items ≡ self.old.archives.items) }
        ensures piece { (self.new.piece ≡ self.old.piece) × (self.new.tick ≡ self.old.tick) × (self.new.config ≡ self.old.config) × (self.new.file ≡ self.old.file) }
        ensures calls { (self.new.calls.rows.items ≡ self.old.calls.rows.items) × (self.new.noted ≡ self.old.noted) }
    {
        self.archives.reserve(1)?;
        let archive = desk.archive(rt)?;
        let entries = archive.log().len();
        self.archives.push_reserved(archive);
        Ok(entries)
    }

    /// Writes what is left, the oldest first, as far as the file takes it. Returns whether nothing is left. What the file took isn't written
    /// again, and nothing else is dropped.
    pub(crate) fn write(&mut self) -> bool
        ensures all { IsTrue result ↔ IsWritten self.new.piece self.new.archives.items }
        ensures text { WritesOn self.old.config.now self.old.piece self.old.tick self.old.archives.items self.new.piece self.new.tick self.new.archives.items (Appends (F.contents self.old.file) (F.contents self.new.file)) }
        ensures calls { (later : List ArchiveValue) (seat : ℕ) → calls_left self.new.calls.rows.items self.new.noted (self.new.archives.items ++ later) seat ≡ calls_left self.old.calls.rows.items self.old.noted (self.old.archives.items ++ later) seat }
        ensures config { self.new.config ≡ self.old.config }
    {
        while !self.archives.is_empty() {
            if !self.write_piece() {
                return false;
            }
            let Ok(()) = self.next_piece() else {
                return false;
            };
        }
        self.write_piece()
    }

    // Writes the piece, as far as the file takes it. Returns whether nothing of it is left.
    fn write_piece(&mut self) -> bool
        ensures all { IsTrue result ↔ self.new.piece ≡ None }
        ensures text { (bytes : List ℕ) × (left_of self.old.piece ≡ bytes ++ left_of self.new.piece) × Appends (F.contents self.old.file) (F.contents self.new.file) bytes }
        ensures archives { (self.new.archives ≡ self.old.archives) × (self.new.tick ≡ self.old.tick) × (self.new.config ≡ self.old.config) }
        ensures calls { (self.new.calls ≡ self.old.calls) × (self.new.noted ≡ self.old.noted) }
    {
        let is_written = match &mut self.piece {
            Some(piece) => piece.write(&mut self.file),
            None => true,
        };
        if is_written {
            self.piece = None;
        }
        is_written
    }

    // Makes the oldest archive the next piece.
    fn next_piece(&mut self) -> Result<(), AllocError>
        requires { self.now.piece ≡ None }
        ensures next { OnOk result (self.new.archives.items ≡ drop 1 self.old.archives.items) }
        ensures refused { OnErr result (self.new.archives.items ≡ self.old.archives.items) }
        ensures text { WritesOn self.old.config.now self.old.piece self.old.tick self.old.archives.items self.new.piece self.new.tick self.new.archives.items (λ bytes. bytes ≡ []) }
        ensures calls { (later : List ArchiveValue) (seat : ℕ) → calls_left self.new.calls.rows.items self.new.noted (self.new.archives.items ++ later) seat ≡ calls_left self.old.calls.rows.items self.old.noted (self.old.archives.items ++ later) seat }
        ensures rest { (self.new.config ≡ self.old.config) × (self.new.file ≡ self.old.file) }
    {
        let Some(archive) = self.archives.first() else {
            return Ok(());
        };
        let piece = Piece::of_log(self.alloc, self.config, self.tick, archive.log())?;
        let () = self.calls.add_log(archive.log(), &mut self.noted)?;
        self.noted = 0;
        self.tick = piece.next_tick();
        self.piece = Some(piece);
        let _archive = self.archives.remove(0);
        Ok(())
    }

    /// Whether nothing is left to write.
    pub(crate) fn is_written(&self) -> bool
        ensures { IsTrue result ↔ IsWritten self.now.piece self.now.archives.items }
    {
        self.piece.is_none() && self.archives.is_empty()
    }

    /// Drops the passes that have exactly the calls of their seats in the file, as `Register::release` does. Drops none while something is
    /// left to write.
    pub(crate) fn release(&mut self, register: &mut Register<N>)
        ensures released { IsWritten self.old.piece self.old.archives.items → IsReleased self.old.calls.rows.items self.new.calls.rows.items register.old.passes.items register.new.passes.items }
        ensures kept { ¬ (IsWritten self.old.piece self.old.archives.items) → (self.new.calls.rows.items ≡ self.old.calls.rows.items) × (register.new.passes.items ≡ register.old.passes.items) }
        ensures pieces { (self.new.piece ≡ self.old.piece) × (self.new.archives.items ≡ self.old.archives.items) × (self.new.tick ≡ self.old.tick) × (self.new.noted ≡ self.old.noted) }
        ensures rest { (self.new.config ≡ self.old.config) × (self.new.file ≡ self.old.file) }
        ensures connections { (register.new.streams ≡ register.old.streams) × (register.new.ungreeted.items ≡ register.old.ungreeted.items) × (register.new.is_closed ≡ register.old.is_closed) }
    {
        if self.is_written() {
            register.release(&mut self.calls);
        }
    }

    /// Returns the calls up to the piece that no pass was compared with.
    pub(crate) fn into_calls(self) -> Archived
    where
        F: Drop,
        ensures { result.rows.items ≡ self.entry.calls.rows.items }
    {
        self.calls
    }
}
