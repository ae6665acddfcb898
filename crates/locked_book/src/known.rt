//! Whether a book knows a pass.

ghost use Rattle.std.specs.Prelude.{◌≡◌, ◌↔◌, ◌<◌, ◌≤◌, ◌+◌, ◌^◌, ℕ, map, drop, length, slice_index_or, IsTrue, Some};
ghost use Rattle.host_core.specs.HostStanding.{HostStanding};
ghost use Rattle.locked_book.specs.Books.{Knows};
ghost use Rattle.locked_book.specs.inner.Books.{ArePlaces, call_at, call_of};

use crate::bases::Base;
use crate::naming::Naming;
use crate::passes::Pass;
use crate::seats::Seat;
use giotto_tasks::same::Same;
use rig_model::logged::{KeptCall, Logged};

/// Whether the book of these knows the pass: its seat was given, its calls after the base are those of this seat in the log, and it
/// hasn't seen a longer log. The cost is proportional to the pass's calls after the base.
pub(crate) fn is_known<N: Naming>(
    base: &Base,
    log: &[Logged],
    seats: &[Seat],
    pass: &Pass<N>,
) -> bool
    requires places { ArePlaces seats.now log.now }
    requires bound { base.now.entries_before + length log.now < 2 ^ 128 }
    ensures { (host : HostStanding) → IsTrue result ↔ Knows (record { base = base.now; host = host; log = log.now; seats = length seats.now }) pass.now }
{
    let Some(seat) = seats.get(pass.seat) else {
        return false;
    };
    let before = base.calls_before(pass.seat);
    if before > pass.calls.len() as u64 {
        return false;
    }
    if pass.seen > base.entries_before() + log.len() as u128 {
        return false;
    }
    are_calls(log, seat.places(), &pass.calls, before as usize)
}

// Whether the calls from `before` on are those at these places.
fn are_calls(log: &[Logged], places: &[usize], calls: &[KeptCall], before: usize) -> bool
    requires before { before ≤ length calls.now }
    requires within { (k : ℕ) → k < length places.now → slice_index_or places.now k 0 < length log.now }
    ensures { IsTrue result ↔ map (call_at log.now) places.now ≡ map Some (drop before calls.now) }
{
    if places.len() != calls.len() - before {
        return false;
    }
    for k in 0..places.len() {
        let place = places[k];
        let entry = &log[place];
        let call = &calls[before + k];
        if !is_call(entry, call) {
            return false;
        }
    }
    true
}

fn is_call(entry: &Logged, call: &KeptCall) -> bool
    ensures { IsTrue result ↔ call_of entry.now ≡ Some call.now }
{
    match entry {
        Logged::Call(_, found) => found.is_same(call),
        _ => false,
    }
}
