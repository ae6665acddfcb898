//! Histories, and what was seen of them.

ghost use Rattle.std.specs.Prelude.{◌≡◌, ◌++◌, ◌∷◌, [], IsTrue};
ghost use mathlib.Core.List.{IsPrefix};

use crate::naming::Naming;
use logbook::{Gain, Offer, Plain, Play, Rule, Seen, Start, Word};
use rig_model::logged::Logged;
use std::marker::{Model, PhantomData};

// The most entries that a history has: a word counts no further.
const MOST_ENTRIES: u64 = 1 << 62;

/// The rule of all histories: the word of a history is its length.
pub struct Law;

impl Rule<Logged, u64> for Law {
    ghost use Rattle.std.specs.Prelude.{[]};
    ghost use base.Fml.{ftrue};
    ghost use Rattle.locked_book.specs.inner.Rules.{IsKept};

    ghost holds = { λ cells log. IsKept cells log };

    ghost first = { [] };

    ghost hinted = { λ n log. Unit {0} };

    ghost shows = { λ log. [] };

    ghost keeps = { λ names log. ftrue };

    ghost moves = { λ ask before after answer. Unit {0} };
}

/// The gain of adding an entry: nothing.
pub struct Nothing;

impl Gain<Logged, u64> for Nothing {
    ghost use base.Fml.{ftrue};

    ghost after = { λ names about answer. ftrue };
}

/// The step that adds an entry.
pub struct Add;

impl Play<Logged, u64> for Add {
    ghost use Rattle.locked_book.specs.inner.Rules.{Adds};

    ghost then = { Adds };
}

impl Plain<Logged, Logged, u64> for Add {
    ghost use Rattle.std.specs.Prelude.{None};

    ghost ask = { λ entry. entry };

    ghost state = { λ entry. None };
}

/// An empty history that has no desk yet. Contracts see it as its name.
#[derive(Drop)]
pub struct NewHistory {
    head: Word<Logged, u64, Law>,
    seen: Seen<Logged, u64, Law>,
}

impl Model for NewHistory {
    ghost use Rattle.std.specs.Prelude.{◌≡◌, []};
    ghost use Rattle.logbook.specs.Pages.{Book, book_coded};
    ghost use Rattle.locked_book.specs.inner.Rules.{head_of};

    ghost Value = { Book };

    ghost coded = { book_coded };

    ghost view = { λ h. h.seen.book };

    ghost invariant = { λ h. (h.seen.log ≡ []) × (h.head ≡ head_of h.seen.book) };
}

impl NewHistory {
    /// A new history. Takes no memory.
    pub fn new() -> NewHistory {
        let (seen, mut first, _second) = Seen::open(Start::alone(), 0, 0);
        NewHistory {
            head: Word::tracked(0, &mut first),
            seen,
        }
    }

    /// Makes it the history of the desk `N`, whose name has it.
    pub fn named<N: Naming>(self) -> History<N>
        requires { self ≡ N.history }
        ensures { result ≡ [] }
    {
        let NewHistory { head, seen } = self;
        History {
            head,
            entries: 0,
            seen,
            of: PhantomData,
        }
    }
}

/// What was seen of a desk's history: a beginning of it. Contracts see it as its entries, the oldest first.
#[derive(Drop)]
pub struct Front<N: Naming> {
    entries: u64,
    seen: Seen<Logged, u64, Law>,
    of: PhantomData<N>,
}

impl<N: Naming> Model for Front<N> {
    ghost use Rattle.std.specs.Prelude.{◌≡◌, List, length};
    ghost use Rattle.rig_model.specs.declared.logged.Logged.{Logged};

    ghost Value = { List Logged };

    ghost view = { λ f. f.seen.log };

    ghost invariant = { λ f. (f.entries ≡ length f.seen.log) × (f.seen.book ≡ N.history) };
}

impl<N: Naming> Front<N> {
    /// A copy. Takes no memory.
    pub fn again(&self) -> Front<N>
        ensures { result ≡ self.now }
    {
        Front {
            entries: self.entries,
            seen: self.seen.again(),
            of: PhantomData,
        }
    }
}

/// All that was logged at a desk. Contracts see it as its entries, the oldest first.
#[derive(Drop)]
pub struct History<N: Naming> {
    head: Word<Logged, u64, Law>,
    entries: u64,
    seen: Seen<Logged, u64, Law>,
    of: PhantomData<N>,
}

impl<N: Naming> Model for History<N> {
    ghost use Rattle.std.specs.Prelude.{◌≡◌, List, length};
    ghost use Rattle.rig_model.specs.declared.logged.Logged.{Logged};
    ghost use Rattle.locked_book.specs.inner.Rules.{head_of};

    ghost Value = { List Logged };

    ghost view = { λ h. h.seen.log };

    ghost invariant = { λ h. (h.entries ≡ length h.seen.log) × (h.seen.book ≡ N.history) × (h.head ≡ head_of N.history) };
}

impl<N: Naming> History<N> {
    /// All its entries so far, as a front. Takes no memory.
    pub fn front(&self) -> Front<N>
        ensures { result ≡ self.now }
    {
        Front {
            entries: self.entries,
            seen: self.seen.again(),
            of: PhantomData,
        }
    }

    /// Whether it is known to begin with what was seen. A history always begins with that, but it isn't always known. Takes no memory, and
    /// costs the same whatever was seen.
    pub fn begins_with(&self, front: &Front<N>) -> bool
        ensures { IsTrue result → IsPrefix front.now self.now }
    {
        let mut both = self.seen.again();
        both.learn(&front.seen);
        front.entries <= self.entries
    }

    /// Adds an entry, and returns whether it is known to be at the end. It isn't if there are 2^62 entries already. Takes no memory.
    pub fn add(&mut self, entry: &Logged) -> bool
        ensures { IsTrue result → (self.new ≡ self.old ++ entry.now ∷ []) }
    {
        let entries = self.entries;
        if entries >= MOST_ENTRIES {
            return false;
        }
        let mut offer: Offer<Logged, u64, Law, Nothing> = self
            .seen
            .plain::<Nothing, Logged, Add>(entry);
        let mut pen = self.seen.no_pen();
        let found = self
            .head
            .compare_exchange::<Add, Nothing>(
                entries,
                entries + 1,
                &mut self.seen,
                &mut offer,
                &mut pen,
            );
        let is_added = found == entries;
        self.entries = if is_added { entries + 1 } else { found };
        is_added
    }
}
