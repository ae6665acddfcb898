//! The comparison of a log with all passes.

ghost use Rattle.std.specs.Prelude.{◌≡◌, ◌≢◌, ◌<◌, ◌+◌, ◌^◌, ℕ, [], length, slice_index_or, IfSome, None, Some, false, true};
ghost use Rattle.host_core.specs.HostStanding.{HostStanding};
ghost use Rattle.locked_book.specs.Books.{AreAll, IsMismatch, IsMissing, Matches, has_seat};
ghost use Rattle.locked_book.specs.declared.faults.CloseFault.{CloseFault};
ghost use Rattle.locked_book.specs.inner.Books.{ArePlaces, seat_at};

use crate::bases::Base;
use crate::faults::CloseFault;
use crate::known::is_known;
use crate::naming::Naming;
use crate::passes::Pass;
use crate::seats::Seat;
use rig_model::logged::{Logged, SeatId};

/// Returns why a book of these can't be closed with these passes. There is a mark for each seat. Takes no memory. The cost is
/// proportional to the lengths of the log, the passes and the seats.
pub(crate) fn compare<N: Naming>(
    base: &Base,
    log: &[Logged],
    seats: &[Seat],
    marks: &mut [bool],
    passes: &[Pass<N>],
) -> Option<CloseFault>
    requires places { ArePlaces seats.now log.now }
    requires bound { base.now.entries_before + length log.now < 2 ^ 128 }
    requires marks { length marks.old ≡ length seats.now }
    ensures mismatch { (host : HostStanding) (seat : ℕ) → result ≡ Some (CloseFault.Mismatch seat)
        → IsMismatch (record { base = base.now; host = host; log = log.now; seats = length seats.now }) passes.now seat }
    ensures missing { (host : HostStanding) (seat : ℕ) → result ≡ Some (CloseFault.Missing seat)
        → IsMissing (record { base = base.now; host = host; log = log.now; seats = length seats.now }) passes.now seat }
    ensures all { result ≡ None → (host : HostStanding)
        → AreAll (record { base = base.now; host = host; log = log.now; seats = length seats.now }) passes.now }
    ensures length { length marks.new ≡ length marks.old }
{
    clear(marks);
    if let Some(i) = first_mismatch(base, log, seats, marks, passes) {
        let found = &passes[i];
        return Some(CloseFault::Mismatch(found.seat()));
    }
    match first_missing(seats, marks) {
        None => None,
        Some(seat) => Some(CloseFault::Missing(seat)),
    }
}

fn clear(marks: &mut [bool])
    ensures clear { (seat : ℕ) → slice_index_or marks.new seat false ≡ false }
    ensures length { length marks.new ≡ length marks.old }
{
    marks.fill(false);
}

// The place of the first pass that the book doesn't know or whose seat an earlier pass has, if there is one. There is a mark for each
// seat, and none of them is set. If all passes match, the marks of their seats are set afterwards. Takes no memory.
fn first_mismatch<N: Naming>(
    base: &Base,
    log: &[Logged],
    seats: &[Seat],
    marks: &mut [bool],
    passes: &[Pass<N>],
) -> Option<usize>
    requires places { ArePlaces seats.now log.now }
    requires bound { base.now.entries_before + length log.now < 2 ^ 128 }
    requires marks { length marks.old ≡ length seats.now }
    requires clear { (seat : ℕ) → slice_index_or marks.old seat false ≡ false }
    ensures within { IfSome result (λ i. i < length passes.now) }
    ensures before { IfSome result (λ i. (host : HostStanding) (k : ℕ) → k < i
        → Matches (record { base = base.now; host = host; log = log.now; seats = length seats.now }) passes.now k) }
    ensures first { IfSome result (λ i. (host : HostStanding)
        → ¬ (Matches (record { base = base.now; host = host; log = log.now; seats = length seats.now }) passes.now i)) }
    ensures all { result ≡ None → (host : HostStanding) (k : ℕ) → k < length passes.now
        → Matches (record { base = base.now; host = host; log = log.now; seats = length seats.now }) passes.now k }
    ensures marked { result ≡ None → (seat : ℕ) → slice_index_or marks.new seat false ≡ has_seat passes.now seat }
    ensures length { length marks.new ≡ length marks.old }
{
    for i in 0..passes.len() {
        let pass = &passes[i];
        if !is_known(base, log, seats, pass) {
            return Some(i);
        }
        let seat = pass.seat();
        if marks[seat] {
            return Some(i);
        }
        marks[seat] = true;
    }
    None
}

// The least seat without a mark that has a call in the log, if there is one. Takes no memory.
fn first_missing(seats: &[Seat], marks: &[bool]) -> Option<SeatId>
    requires { length marks.now ≡ length seats.now }
    ensures unmarked { IfSome result (λ seat. slice_index_or marks.now seat false ≡ false) }
    ensures called { IfSome result (λ seat. (seat_at seats.now seat).places ≢ []) }
    ensures least { IfSome result (λ seat. (s : ℕ) → s < seat → slice_index_or marks.now s false ≡ false → (seat_at seats.now s).places ≡ []) }
    ensures none { result ≡ None → (s : ℕ) → slice_index_or marks.now s false ≡ false → (seat_at seats.now s).places ≡ [] }
{
    for seat in 0..seats.len() {
        let places = seats[seat].places();
        if !marks[seat] && !places.is_empty() {
            return Some(seat);
        }
    }
    None
}
