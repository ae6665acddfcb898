//! The places at which two lists of answers differ.

ghost use Rattle.std.specs.Prelude.{◌≡◌, ◌↔◌, [], IfOk, map, option_map};
ghost use Rattle.run_comparisons.specs.Differences.{are_different, differing_places, reply_at};
ghost use Rattle.run_comparisons.specs.inner.Replies.{replies_of};

use crate::alike::are_alike;
use crate::answers::Answer;
use std::alloc::{AllocError, Global};

/// Returns the places at which two lists of answers have different replies, in ascending order. A place that only the longer list has is
/// one of them. Values may differ by the tolerance. If that is 0, there is no place exactly if the replies are the same.
///
/// # Errors
/// Out of memory.
pub fn differing_places(
    alloc: Global,
    tolerance: u64,
    old: &[&Answer],
    new: &[&Answer],
) -> Result<Vec<usize>, AllocError>
    ensures places { IfOk result (λ places. places.items ≡ differing_places tolerance (map (λ a. a.now) old.now) (map (λ a. a.now) new.now)) }
    ensures same { IfOk result (λ places. tolerance ≡ 0 → places.items ≡ [] ↔ replies_of (map (λ a. a.now) old.now) ≡ replies_of (map (λ a. a.now) new.now)) }
{
    let mut places = Vec::new(alloc);
    for place in 0..old.len().max(new.len()) {
        if are_different(tolerance, reply_at(old, place), reply_at(new, place)) {
            places.push(place)?;
        }
    }
    Ok(places)
}

// The reply at a place, if the list is that long.
fn reply_at<'a>(answers: &[&'a Answer], place: usize) -> Option<&'a str>
    ensures { option_map (λ r. r.now) result ≡ reply_at (map (λ a. a.now) answers.now) place }
{
    match answers.get(place) {
        Some(answer) => Some(answer.reply()),
        None => None,
    }
}

// Whether two replies differ, with this tolerance. One that is missing differs from each other one.
fn are_different(tolerance: u64, reply: Option<&str>, other: Option<&str>) -> bool
    ensures { result ≡ are_different tolerance (option_map (λ r. r.now) reply.entry) (option_map (λ r. r.now) other.entry) }
{
    match (reply, other) {
        (Some(reply), Some(other)) => !are_alike(tolerance, reply, other),
        (None, None) => false,
        _ => true,
    }
}
