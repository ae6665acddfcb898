//! Archives: pieces of a history, each a legal log from the base at which it begins.

ghost use Rattle.std.specs.Prelude.{◌≡◌, ◌↔◌, ◌++◌, List, option_copied, reverse, IsTrue};
ghost use Rattle.std.specs.List.{flat_map};
ghost use Rattle.rig_model.specs.declared.logged.Logged.{Logged};
ghost use Rattle.locked_book.specs.Books.{AreJoined, BeginsAt, EndsIn, IsLegalFrom, IsWholeLog, joined_log};
ghost use Rattle.locked_book.specs.inner.Books.{Reached};

use crate::bases::Base;
use crate::books::Book;
use crate::logs::Log;
use crate::naming::Naming;
use rig_model::logged::Logged;
use std::marker::Model;

/// What a book logged from one base to the next.
#[derive(Drop)]
pub struct Archive<N: Naming> {
    pub(crate) base: Base,
    pub(crate) log: Log<N>,
    pub(crate) next: Base,
}

impl<N: Naming> Model for Archive<N> {
    ghost use Rattle.std.specs.Coded.{codes};
    ghost use Rattle.rig_model.specs.text.cited.ProgramCodes.{program_code};
    ghost use Rattle.locked_book.specs.Books.{ArchiveValue};
    ghost use Rattle.locked_book.specs.inner.Books.{IsArchive};

    ghost Value = { ArchiveValue };

    ghost coded = { Prim.hlevel (codes, program_code) };

    ghost view = { λ a. record { base = a.base; log = a.log.items; next = a.next } };

    ghost invariant = { λ a. IsArchive N.config N.first_tick (record { base = a.base; log = a.log.items; next = a.next }) };
}

impl<N: Naming> Archive<N> {
    /// The entries from its base to the next one, the oldest first. Takes no memory.
    pub fn log(&self) -> &[Logged]
        ensures entries { result.now ≡ self.now.log }
        ensures legal { IsLegalFrom N.config N.first_tick self.now.base self.now.log self.now.next.host }
        ensures next { (past : List Logged) → EndsIn N.config N.first_tick past self.now.base → EndsIn N.config N.first_tick (reverse self.now.log ++ past) self.now.next }
    {
        self.log.as_slice()
    }

    // Whether it begins at this base, or at that of a new host if there is none.
    fn begins_at(&self, end: Option<&Base>) -> bool
        ensures exact { IsTrue result ↔ BeginsAt N.config N.first_tick (option_copied end.entry) self.now.base }
        ensures next { IsTrue result → (past : List Logged) → Reached N.config N.first_tick (option_copied end.entry) past → EndsIn N.config N.first_tick (reverse self.now.log ++ past) self.now.next }
    {
        self.base.begins_at(end)
    }
}

/// Whether the archives and the book are one history of a new host: the first archive begins at the base of a new host, each next one
/// where the one before it ended, and the book where the last one ended. Without archives, whether the book begins at the base of a new
/// host. Then they are one legal log, in which each tenant has the answers of the part that is kept for it. Takes no memory.
pub fn joined<N: Naming>(archives: &[Archive<N>], book: &Book<N>) -> bool
    ensures exact { IsTrue result ↔ AreJoined N.config N.first_tick archives.now book.now.base }
    ensures whole { IsTrue result → IsWholeLog N.config N.first_tick (joined_log archives.now book.now.log) book.now.host }
{
    book.goes_on();
    are_joined(archives, book)
}

// As `joined`: what was logged up to the book's base is known.
fn are_joined<N: Naming>(archives: &[Archive<N>], book: &Book<N>) -> bool
    ensures exact { IsTrue result ↔ AreJoined N.config N.first_tick archives.now book.now.base }
    ensures reached { IsTrue result → EndsIn N.config N.first_tick (reverse (flat_map (λ a. a.log) archives.now)) book.now.base }
{
    let mut end = None;
    for archive in archives {
        if !archive.begins_at(end) {
            return false;
        }
        end = Some(&archive.next);
    }
    book.begins_at(end)
}
