//! Whether a log has given entries at their places.

ghost use Rattle.std.specs.Prelude.{◌≡◌, ◌↔◌, ℕ, IsTrue, Some, map};
ghost use Rattle.std.specs.List.{All};
ghost use Rattle.locked_book.specs.Books.{AreApart, entry_behind};
ghost use Rattle.rig_model.specs.declared.logged.Logged.{Logged};

use crate::windows::{WINDOW, is_apart_within, next_window};
use giotto_tasks::same::Same;
use rig_model::logged::Logged;

/// Whether the log has each of these entries at its place, if there were `before` entries before the log.
pub(crate) fn all_there(before: u128, log: &[Logged], entries: &[(u128, Logged)]) -> bool
    ensures { IsTrue result ↔ All (λ (e : ℕ × Logged). entry_behind before log.now e.0 ≡ Some e.1) entries.now }
{
    for i in 0..entries.len() {
        if !is_there(before, log, &entries[i]) {
            return false;
        }
    }
    true
}

fn is_there(before: u128, log: &[Logged], entry: &(u128, Logged)) -> bool
    ensures { IsTrue result ↔ entry_behind before log.now entry.now.0 ≡ Some entry.now.1 }
{
    if entry.0 < before {
        return false;
    }
    let at = entry.0 - before;
    if at >= log.len() as u128 {
        return false;
    }
    log[at as usize].is_same(&entry.1)
}

/// Whether no two of these places are equal. Goes over the list once if each place is higher than all before it. Else it goes over
/// it twice more for each window of 524,288 places that has a place after one at least as high: at most twice for each 524,288
/// entries of the log.
pub(crate) fn all_apart(entries: &[(u128, Logged)]) -> bool
    ensures { IsTrue result ↔ AreApart (map (λ (e : ℕ × Logged). e.0) entries.now) }
{
    let mut from = 0;
    while let Some(start) = next_window(entries, from) {
        if !is_apart_within(entries, start) {
            return false;
        }
        let Some(end) = start.checked_add(WINDOW) else {
            return true;
        };
        from = end;
    }
    true
}
