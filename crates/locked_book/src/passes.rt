//! Passes: the calls of a seat, as its holder keeps them.

ghost use Rattle.std.specs.Prelude.{◌≡◌, ◌<◌, ◌↔◌, ◌≤◌, [], ◌∷◌, ◌++◌, length, IsTrue, OnOk, OnErr};
ghost use Rattle.locked_book.specs.declared.passes.TheConstants.{MOST_CALLS};

use crate::histories::Front;
use crate::naming::Naming;
use rig_model::config::TenantId;
use rig_model::lines::commands::Command;
use rig_model::lines::replies::Reply;
use rig_model::logged::{Call, KeptCall, SeatId};
use std::alloc::{AllocError, Global};
use std::marker::Model;

/// How many calls a pass has at most.
pub const MOST_CALLS: usize = 4096;

/// The calls of one seat with their replies, in their order, and the length of the longest log that it has seen.
#[derive(Drop)]
pub struct Pass<N: Naming> {
    pub(crate) seat: SeatId,
    pub(crate) calls: Vec<KeptCall>,
    pub(crate) seen: u128,
    // The desk's history after the pass's last call, if that history has all calls of the pass.
    pub(crate) front: Option<Front<N>>,
}

impl<N: Naming> Model for Pass<N> {
    ghost use Rattle.std.specs.Prelude.{◌≡◌, IfSome};
    ghost use Rattle.rig_model.specs.Logs.{calls_of_seat};
    ghost use Rattle.locked_book.specs.Books.{PassValue};

    ghost Value = { PassValue };

    ghost view = { λ p. record { seat = p.seat; calls = p.calls.items; seen = p.seen } };

    ghost invariant = { λ p. IfSome p.front (λ front. p.calls.items ≡ calls_of_seat p.seat front) };
}

impl<N: Naming> Pass<N> {
    /// The pass of this seat, without calls. Takes no memory.
    pub(crate) fn new(alloc: Global, seat: SeatId) -> Pass<N>
        ensures { result ≡ record { seat = seat; calls = []; seen = 0 } }
    {
        Pass {
            seat,
            calls: Vec::new(alloc),
            seen: 0,
            front: None,
        }
    }

    /// Its seat.
    pub fn seat(&self) -> SeatId
        ensures { result ≡ self.now.seat }
    {
        self.seat
    }

    /// Its calls with their replies, in their order. Takes no memory.
    pub fn calls(&self) -> &[KeptCall]
        ensures { result.now ≡ self.now.calls }
    {
        &self.calls
    }

    /// Whether it has 4,096 calls.
    pub fn is_full(&self) -> bool
        ensures { IsTrue result ↔ MOST_CALLS ≤ length self.now.calls }
    {
        self.calls.len() >= MOST_CALLS
    }

    /// Adds a call with its reply to a pass of fewer than 4,096. It is for callers of something other than a desk.
    ///
    /// # Errors
    /// Out of memory. The pass stays as it was then.
    pub fn note(
        &mut self,
        tenant: TenantId,
        command: Command,
        reply: Reply,
    ) -> Result<(), AllocError>
        requires { length self.old.calls < MOST_CALLS }
        ensures noted { OnOk result (self.new ≡ record {
          seat = self.old.seat;
          calls = self.old.calls ++ record { tenant = tenant; command = command; reply = reply } ∷ [];
          seen = self.old.seen;
        }) }
        ensures refused { OnErr result (self.new ≡ self.old) }
    {
        self.calls.reserve(1)?;
        let call = Call {
            tenant,
            command,
            reply,
        };
        let kept = KeptCall::own(Box::new(*self.calls.allocator(), call)?);
        self.front = None;
        self.calls.push_reserved(kept);
        Ok(())
    }
}
