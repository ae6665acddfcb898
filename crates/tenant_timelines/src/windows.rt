//! The drawn part of a run: some of its instants, and what commands do between them.

ghost use Rattle.std.specs.Prelude.{◌≡◌, ◌<◌, ◌↔◌, ◌+◌, ◌*◌, ◌/◌, IsTrue};
ghost use Rattle.tenant_timelines.specs.inner.Windows.{first_drawn, has_instant, next_drawn, span_of};

use crate::places::Place;

/// The drawn part of a run. It begins with the commands before its first instant, and ends before the instant that follows its last.
#[derive(Clone, Copy, Debug, PartialEq, Eq)]
pub struct Window {
    /// The number of the first drawn instant.
    pub(crate) first: u64,
    /// The number of the instant that follows the last drawn one.
    pub(crate) next: u64,
}

/// What lasts from one place to another, without the second.
#[derive(Clone, Copy, Debug, PartialEq, Eq)]
pub(crate) struct Span {
    pub from: Place,
    pub until: Place,
}

impl Window {
    /// The part with the instants `from` to `to`, both included, of a run with this many instants.
    ///
    /// Without `from` it begins with the first instant, and without `to` it ends with the last. It may have no instant.
    pub fn new(from: Option<u64>, to: Option<u64>, instants: u64) -> Window
        ensures first { result.first ≡ first_drawn from }
        ensures next { result.next ≡ next_drawn to instants }
    {
        let first = from.unwrap_or(0);
        let next = match to {
            Some(last) => last.saturating_add(1).min(instants),
            None => instants,
        };
        Window { first, next }
    }

    /// Where it begins.
    pub(crate) fn begin(self) -> Place {
        Place::before_instant(self.first)
    }

    /// Where it ends. Nothing is drawn from there on.
    pub(crate) fn end(self) -> Place {
        if self.next < self.first {
            self.begin()
        } else {
            Place::of_instant(self.next)
        }
    }

    /// Whether a place is drawn.
    pub(crate) fn has(self, place: Place) -> bool {
        self.part(place, self.end())
            .is_some_and(|it| it.from == place)
    }

    /// The drawn part of what lasts from one place to another, if there is any.
    pub(crate) fn part(self, from: Place, until: Place) -> Option<Span> {
        Span { from, until }.within(Span {
            from: self.begin(),
            until: self.end(),
        })
    }
}

impl Span {
    /// The part of it that is within another, if there is any.
    pub(crate) fn within(self, other: Span) -> Option<Span>
        ensures { result ≡ span_of self other }
    {
        let from = self.from.later(other.from);
        let until = self.until.earlier(other.until);
        if from.is_before(until) {
            Some(Span { from, until })
        } else {
            None
        }
    }

    /// Whether an instant is at one of its places.
    pub(crate) fn has_instant(self) -> bool
        ensures { IsTrue result ↔ has_instant self }
    {
        let next = self.from.half_ticks() / 2;
        Place::of_instant(next).is_before(self.until)
    }
}
