//! The seats of a book.

ghost use Rattle.std.specs.Prelude.{◌≡◌, [], map};
ghost use Rattle.locked_book.specs.inner.Books.{without_places};

use std::alloc::Global;
use std::marker::Model;

/// The places of a seat's calls in the log, and how many calls it has in all.
#[derive(Drop)]
pub(crate) struct Seat {
    pub(crate) places: Vec<usize>,
    pub(crate) calls: u64,
}

impl Model for Seat {
    ghost use Rattle.locked_book.specs.Books.{SeatValue};

    ghost Value = { SeatValue };

    ghost view = { λ s. record { places = s.places.items; calls = s.calls } };
}

impl Seat {
    /// A seat without calls. Takes no memory.
    pub(crate) fn new(alloc: Global) -> Seat
        ensures { result ≡ record { places = []; calls = 0 } }
    {
        Seat {
            places: Vec::new(alloc),
            calls: 0,
        }
    }

    /// Forgets the places of its calls: the log begins again. Takes no memory, and keeps none for a seat that may never call again.
    fn forget_places(&mut self)
        ensures { self.new ≡ without_places self.old }
    {
        self.places = Vec::new(*self.places.allocator());
    }

    /// The places of its calls.
    pub(crate) fn places(&self) -> &[usize]
        ensures { result.now ≡ self.now.places }
    {
        &self.places
    }
}

/// The places of all calls are forgotten: the log begins again. Takes no memory.
pub(crate) fn forget_places(seats: &mut [Seat])
    ensures { seats.new ≡ map without_places seats.old }
{
    for i in 0..seats.len() {
        seats[i].forget_places();
    }
}
