//! Windows of places: which places of a list lie in one, and whether one of them is there twice.

ghost use Rattle.std.specs.Prelude.{◌≡◌, ◌≢◌, ◌↔◌, ◌<◌, ◌+◌, ◌^◌, ℕ, IsTrue, length};
ghost use Rattle.locked_book.specs.inner.Places.{ApartWithin, InWindow, IsNextStart, least_with, mark_of, place_in};
ghost use Rattle.rig_model.specs.declared.logged.Logged.{Logged};

use rig_model::logged::Logged;

/// How many places a window has.
pub(crate) const WINDOW: u128 = 524288;

// How many words it takes to have a bit for each of these places.
const WORDS: usize = 8192;

/// Where the next window begins: at the least place from `from` on that comes after one at least as high. `None` if each is higher than
/// all before it: then none of them is there twice.
pub(crate) fn next_window(entries: &[(u128, Logged)], from: u128) -> Option<u128>
    ensures next { IsNextStart entries.now from result }
    ensures fit { (j : ℕ) → j < length entries.now → place_in entries.now j < 2 ^ 128 }
{
    let mut highest = 0;
    let mut start = None;
    for i in 0..entries.len() {
        let place = place_at(entries, i);
        if place >= from && place <= highest {
            start = Some(least(start, place));
        }
        highest = highest.max(place);
    }
    start
}

fn least(start: Option<u128>, place: u128) -> u128
    ensures { result ≡ least_with start place }
{
    match start {
        None => place,
        Some(other) => other.min(place),
    }
}

/// Whether no place of the window that begins here is there twice. Goes over the list once.
pub(crate) fn is_apart_within(entries: &[(u128, Logged)], start: u128) -> bool
    ensures { IsTrue result ↔ ApartWithin entries.now start (start + 524288) }
{
    let mut marks = [0; WORDS];
    for i in 0..entries.len() {
        let place = place_at(entries, i);
        if mark(&mut marks, start, place) {
            return false;
        }
    }
    true
}

// Marks a place of the window by its bit, and returns whether it was marked before. A place outside has no mark.
fn mark(marks: &mut [u64; WORDS], start: u128, place: u128) -> bool
    ensures before { result ≡ mark_of marks.old start place }
    ensures within { IsTrue result → InWindow start place }
    ensures marked { InWindow start place → IsTrue (mark_of marks.new start place) }
    ensures others { (p : ℕ) → p ≢ place → mark_of marks.new start p ≡ mark_of marks.old start p }
{
    if place < start || place - start >= WINDOW {
        return false;
    }
    let at = (place - start) as usize;
    let word = marks[at / 64];
    marks[at / 64] = word | 1 << (at % 64);
    word >> (at % 64) & 1 == 1
}

fn place_at(entries: &[(u128, Logged)], i: usize) -> u128
    requires { i < length entries.now }
    ensures { result ≡ place_in entries.now i }
{
    entries[i].0
}
