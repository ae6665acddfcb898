//! The open connections, and the passes of those that have ended.

ghost use Rattle.std.specs.Prelude.{◌≡◌, ◌↔◌, ◌==◌, ◌+◌, ◌≤◌, ◌<◌, ◌∷◌, ◌++◌, [], true, false, Err, None, drop, if◌then◌else◌, is_some, length, nat_lt, IsSome, IfErr, IfSome, IfOk, OnErr, OnOk, vec_len, vec_capacity};
ghost use Rattle.std.specs.Bool.{MatchBool};
ghost use Rattle.slab.specs.Slab.{ContainsKey, HasRoomFor, get, slab_len};
ghost use Rattle.rig_server.specs.inner.Archived.{IsReleased};
ghost use Rattle.rig_server.specs.inner.Greetings.{first_of, without};
ghost use Rattle.rig_server.specs.inner.Refusals.{IsUnregistered};

use crate::archived::Archived;
use crate::refusals::Refusal;
use locked_book::naming::Naming;
use locked_book::passes::Pass;
use slab::Slab;
use std::alloc::{AllocError, Global};
use std::net::{Shutdown, TcpStream};

/// The open connections, each with a second handle of its stream, and the passes that came back.
///
/// It has space for the pass of each open connection, so that no pass is lost when memory runs out.
#[derive(Drop)]
pub(crate) struct Register<N: Naming> {
    streams: Slab<TcpStream>,
    // the places of those in which no tenant was greeted yet, the oldest first
    ungreeted: Vec<usize>,
    passes: Vec<Pass<N>>,
    is_closed: bool,
    ghost room: { slab_len streams + vec_len passes ≤ vec_capacity passes },
}

impl<N: Naming> Register<N> {
    /// Creates a register without connections. Allocates no memory.
    pub(crate) fn new(alloc: Global) -> Register<N>
        ensures streams { slab_len result.streams ≡ 0 }
        ensures ungreeted { result.ungreeted.items ≡ [] }
        ensures passes { result.passes.items ≡ [] }
        ensures is_closed { result.is_closed ≡ false }
    {
        Register {
            streams: Slab::new(alloc),
            ungreeted: Vec::new(alloc),
            passes: Vec::new(alloc),
            is_closed: false,
        }
    }

    /// Adds a connection, with a handle of its stream, and returns its place. No tenant is greeted in it yet.
    ///
    /// # Errors
    /// `Closed` after `close`, else `Memory`.
    pub(crate) fn enter(&mut self, handle: TcpStream) -> Result<usize, Refusal>
        ensures place { IfOk result (λ place. (get self.old.streams place ≡ None) × ContainsKey self.new.streams place) }
        ensures one { OnOk result (slab_len self.new.streams ≡ slab_len self.old.streams + 1) }
        ensures ungreeted { IfOk result (λ place. self.new.ungreeted.items ≡ self.old.ungreeted.items ++ place ∷ []) }
        ensures same_ungreeted { OnErr result (self.new.ungreeted.items ≡ self.old.ungreeted.items) }
        ensures closed { result ≡ Err Refusal.Closed ↔ self.old.is_closed ≡ true }
        ensures refused { IfErr result IsUnregistered }
        ensures none { OnErr result (slab_len self.new.streams ≡ slab_len self.old.streams) }
        ensures passes { self.new.passes.items ≡ self.old.passes.items }
        ensures is_closed { self.new.is_closed ≡ self.old.is_closed }
    {
        if self.is_closed {
            return Err(Refusal::Closed);
        }
        let Ok(()) = self.make_room() else {
            return Err(Refusal::Memory);
        };
        let place = self.streams.insert_reserved(handle);
        self.ungreeted.push_reserved(place);
        Ok(place)
    }

    // Reserves space for one more connection, and for its pass.
    fn make_room(&mut self) -> Result<(), AllocError>
        ensures streams { OnOk result (HasRoomFor self.new.streams 1) }
        ensures same { self.new.streams.slots ≡ self.old.streams.slots }
        ensures ungreeted { OnOk result (vec_len self.new.ungreeted < vec_capacity self.new.ungreeted) }
        ensures same_ungreeted { self.new.ungreeted.items ≡ self.old.ungreeted.items }
        ensures same_passes { self.new.passes.items ≡ self.old.passes.items }
        ensures is_closed { self.new.is_closed ≡ self.old.is_closed }
        ensures passes { OnOk result (slab_len self.new.streams + vec_len self.new.passes < vec_capacity self.new.passes) }
    {
        let Some(most) = self.streams.len().checked_add(1) else {
            return Err(AllocError);
        };
        self.passes.reserve(most)?;
        self.ungreeted.reserve(1)?;
        self.streams.reserve(1)
    }

    /// Notes that a tenant was greeted in the connection at this place.
    pub(crate) fn greet(&mut self, place: usize)
        ensures ungreeted { self.new.ungreeted.items ≡ without place self.old.ungreeted.items }
        ensures streams { self.new.streams ≡ self.old.streams }
        ensures passes { self.new.passes.items ≡ self.old.passes.items }
        ensures is_closed { self.new.is_closed ≡ self.old.is_closed }
    {
        if let Some(at) = first_of(self.ungreeted.as_slice(), place) {
            let _ = self.ungreeted.remove(at);
        }
    }

    /// Ends the oldest connection in which no tenant was greeted, if there are more than `most` of these. From then on it isn't counted.
    pub(crate) fn make_way(&mut self, most: usize)
        ensures ungreeted { self.new.ungreeted.items ≡ drop (if nat_lt most (length self.old.ungreeted.items) then 1 else 0) self.old.ungreeted.items }
        ensures streams { self.new.streams ≡ self.old.streams }
        ensures passes { self.new.passes.items ≡ self.old.passes.items }
        ensures is_closed { self.new.is_closed ≡ self.old.is_closed }
    {
        if self.ungreeted.len() <= most {
            return;
        }
        let place = self.ungreeted.remove(0);
        if let Some(stream) = self.streams.get(place) {
            let _ = stream.shutdown(Shutdown::Both);
        }
    }

    /// Removes a connection that has ended, and keeps its pass. Drops the pass if there is no connection at this place.
    pub(crate) fn leave(&mut self, place: usize, pass: Pass<N>)
        ensures passes { MatchBool (is_some (get self.old.streams place)) (self.new.passes.items ≡ self.old.passes.items ++ pass ∷ []) (self.new.passes.items ≡ self.old.passes.items) }
        ensures streams { MatchBool (is_some (get self.old.streams place)) (slab_len self.new.streams + 1 ≡ slab_len self.old.streams) (slab_len self.new.streams ≡ slab_len self.old.streams) }
        ensures gone { get self.new.streams place ≡ None }
        ensures ungreeted { self.new.ungreeted.items ≡ without place self.old.ungreeted.items }
        ensures is_closed { self.new.is_closed ≡ self.old.is_closed }
    {
        self.greet(place);
        if self.streams.try_remove(place).is_some() {
            self.passes.push_reserved(pass);
        }
    }

    /// Drops each pass whose calls are exactly the archived ones of its seat, with these calls. Takes no memory.
    pub(crate) fn release(&mut self, archived: &mut Archived)
        ensures passes { IsReleased archived.old.rows.items archived.new.rows.items self.old.passes.items self.new.passes.items }
        ensures streams { self.new.streams ≡ self.old.streams }
        ensures ungreeted { self.new.ungreeted ≡ self.old.ungreeted }
        ensures is_closed { self.new.is_closed ≡ self.old.is_closed }
    {
        let mut at = 0;
        while at < self.passes.len() {
            if archived.release(&self.passes[at]) {
                let _pass = self.passes.remove(at);
            } else {
                at += 1;
            }
        }
    }

    /// Removes a connection that had no session, and returns the handle of its stream.
    pub(crate) fn give_up(&mut self, place: usize) -> Option<TcpStream>
        ensures handle { IsSome result ↔ ContainsKey self.old.streams place }
        ensures streams { MatchBool (is_some (get self.old.streams place)) (slab_len self.new.streams + 1 ≡ slab_len self.old.streams) (slab_len self.new.streams ≡ slab_len self.old.streams) }
        ensures gone { get self.new.streams place ≡ None }
        ensures ungreeted { self.new.ungreeted.items ≡ without place self.old.ungreeted.items }
        ensures passes { self.new.passes.items ≡ self.old.passes.items }
        ensures is_closed { self.new.is_closed ≡ self.old.is_closed }
    {
        self.greet(place);
        self.streams.try_remove(place)
    }

    /// Closes the register: it takes no further connection.
    pub(crate) fn close(&mut self)
        ensures closed { self.new.is_closed ≡ true }
        ensures streams { self.new.streams ≡ self.old.streams }
        ensures ungreeted { self.new.ungreeted ≡ self.old.ungreeted }
        ensures passes { self.new.passes.items ≡ self.old.passes.items }
    {
        self.is_closed = true;
    }

    /// Whether no further connection is taken.
    pub(crate) fn is_closed(&self) -> bool
        ensures { result ≡ self.now.is_closed }
    {
        self.is_closed
    }

    /// Whether no connection is open.
    pub(crate) fn is_empty(&self) -> bool
        ensures { result ≡ (slab_len self.now.streams == 0) }
    {
        self.streams.is_empty()
    }

    /// Ends reading and writing in all open connections.
    pub(crate) fn end_all(&self) {
        for (_place, stream) in self.streams.iter() {
            let _ = stream.shutdown(Shutdown::Both);
        }
    }

    /// Returns the passes that came back.
    pub(crate) fn into_passes(self) -> Vec<Pass<N>>
        ensures { result.items ≡ self.passes.items }
    {
        self.passes
    }
}

// Where the first of these places is that is this one.
fn first_of(places: &[usize], place: usize) -> Option<usize>
    ensures at { result ≡ first_of place places.now }
    ensures bound { IfSome result (λ at. at < length places.now) }
{
    places.iter().position(|&other| place == other)
}
