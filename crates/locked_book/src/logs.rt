//! A log, with its history.

ghost use Rattle.std.specs.Prelude.{◌≡◌, ◌+◌, ◌<◌, ◌≤◌, ◌^◌, ◌++◌, ◌∷◌, [], length, IfOk, OnOk, IfSome, IsTrue};
ghost use mathlib.Core.List.{IsPrefix};
ghost use Rattle.locked_book.specs.Logs.{LogValue};

use crate::histories::{Front, History, NewHistory};
use crate::naming::Naming;
use host_core::instant_logs::InstantLog;
use rig_model::frames::copy_of_frame;
use rig_model::logged::Logged;
use std::alloc::{AllocError, Global};
use std::marker::Model;

/// The entries of a log, the oldest first, and the history that has them for good, if one is kept.
#[derive(Drop)]
pub(crate) struct Log<N: Naming> {
    alloc: Global,
    entries: Vec<Logged>,
    history: Option<History<N>>,
}

impl<N: Naming> Model for Log<N> {
    ghost use Rattle.std.specs.Prelude.{◌≡◌, IfSome, vec_capacity};
    ghost use Rattle.locked_book.specs.Logs.{LogValue};

    ghost Value = { LogValue };

    ghost view = { λ l. record { items = l.entries.items; capacity = vec_capacity l.entries } };

    ghost invariant = { λ l. IfSome l.history (λ history. history ≡ l.entries.items) };
}

impl<N: Naming> Log<N> {
    /// An empty log, with this history. Takes no memory.
    pub(crate) fn new(alloc: Global, history: Option<NewHistory>) -> Log<N>
        requires { IfSome history (λ h. h ≡ N.history) }
        ensures { result.items ≡ [] }
    {
        let history = match history {
            None => None,
            Some(history) => Some(history.named()),
        };
        Log {
            alloc,
            entries: Vec::new(alloc),
            history,
        }
    }

    /// The entries.
    pub(crate) fn as_slice(&self) -> &[Logged]
        ensures { result.now ≡ self.now.items }
    {
        self.entries.as_slice()
    }

    /// How many there are.
    pub(crate) fn len(&self) -> usize
        ensures { result ≡ length self.now.items }
    {
        self.entries.len()
    }

    /// Makes it known to a proof that the capacity is below 2^63.
    pub(crate) fn known(&self)
        ensures { self.now.capacity < 2 ^ 63 }
    {
        let _ = self.entries.capacity();
    }

    /// Reserves space for this many more entries.
    ///
    /// # Errors
    /// Out of memory. The log stays as it was then.
    pub(crate) fn reserve(&mut self, more: usize) -> Result<(), AllocError>
        ensures items { self.new.items ≡ self.old.items }
        ensures room { OnOk result (length self.old.items + more ≤ self.new.capacity) }
        ensures kept { self.old.capacity ≤ self.new.capacity }
    {
        self.entries.reserve(more)
    }

    /// Puts an entry at the end. Takes no memory.
    pub(crate) fn push_reserved(&mut self, entry: Logged)
        requires { length self.old.items < self.old.capacity }
        ensures items { self.new.items ≡ self.old.items ++ entry ∷ [] }
        ensures len { length self.new.items ≡ length self.old.items + 1 }
        ensures capacity { self.new.capacity ≡ self.old.capacity }
    {
        let is_kept = match &mut self.history {
            None => true,
            Some(history) => history.add(&entry),
        };
        if !is_kept {
            self.history = None;
        }
        self.entries.push_reserved(entry);
    }

    /// All entries so far, as a front, if a history is kept. Takes no memory.
    pub(crate) fn front(&self) -> Option<Front<N>>
        ensures { IfSome result (λ front. front ≡ self.now.items) }
    {
        match &self.history {
            None => None,
            Some(history) => Some(history.front()),
        }
    }

    /// Whether it is known to begin with what was seen. Takes no memory, and costs the same whatever was seen.
    pub(crate) fn begins_with(&self, front: &Front<N>) -> bool
        ensures { IsTrue result → IsPrefix front.now self.now.items }
    {
        match &self.history {
            None => false,
            Some(history) => history.begins_with(front),
        }
    }
}

/// The log of a book: an entry for each instant.
impl<N: Naming> InstantLog for Log<N> {
    ghost use Rattle.std.specs.Prelude.{◌≡◌, ◌+◌, ◌≤◌, ◌++◌, ◌∷◌, [], length};
    ghost use Rattle.rig_model.specs.declared.logged.Logged.{Logged};

    ghost has_added = { λ old new frame completions. (new.items ≡ old.items ++ Logged.Tick frame ∷ []) × (length new.items + completions ≤ new.capacity) };

    ghost was_refused = { λ old new. (new.items ≡ old.items) × (old.capacity ≤ new.capacity) };

    fn add_instant(&mut self, frame: &[i64], completions: usize) -> Result<(), AllocError> {
        let entry = Logged::Tick(copy_of_frame(self.alloc, frame)?);
        let entries = completions.checked_add(1).ok_or(AllocError)?;
        self.reserve(entries)?;
        self.push_reserved(entry);
        Ok(())
    }
}
