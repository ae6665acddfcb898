//! What differs between the replies that a run should get and those that came, in the form of `diff -U0`.

ghost use Rattle.std.specs.Prelude.{◌≡◌, [], IfOk, get_or, map, string_bytes};
ghost use Rattle.script_reports.specs.inner.Differences.{change, hunk, hunks_from, lines_in, range, text_of_changes, text_of_differences};

use crate::reports::first_words;
use crate::runs::RunLine;
use std::alloc::{AllocError, Global};

/// What differs, in the form of `diff -U0`. It is empty if nothing differs.
///
/// After two lines with the name of the run, there is a hunk for each line of the script whose reply isn't the one that it should
/// get. The hunk has the line after the `@@`. `replies` are those that came, without LF. If the script was cut off, some lines
/// have no reply.
///
/// # Errors
/// Out of memory.
pub fn text_of_differences(
    alloc: Global,
    name: &str,
    lines: &[RunLine],
    replies: &[String],
) -> Result<String, AllocError>
    ensures { IfOk result (λ text. string_bytes text ≡ text_of_differences name.now lines.now (map string_bytes replies.now)) }
{
    let hunks = text_of_hunks(alloc, lines, replies)?;
    let hunks = hunks.as_str();
    if hunks.len() == 0 {
        return Ok(String::new(alloc));
    }
    format!(in alloc; "--- {name}\n+++ {name} (as answered)\n{hunks}")
}

// A hunk for each line whose reply isn't the one that it should get.
fn text_of_hunks(alloc: Global, lines: &[RunLine], replies: &[String]) -> Result<String, AllocError>
    ensures { IfOk result (λ text. string_bytes text ≡ hunks_from (map string_bytes replies.now) 0 0 0 lines.now) }
{
    let mut text = String::new(alloc);
    // how many lines came, and were wanted, in the hunks so far
    let mut came = 0usize;
    let mut wanted = 0usize;
    for (place, line) in lines.iter().enumerate() {
        let reply = reply_at(replies, place);
        if reply == line.reply() {
            continue;
        }
        let at = line.number().saturating_add(came).saturating_sub(wanted);
        let hunk = hunk(alloc, line, reply, at)?;
        text.push_str(hunk.as_str())?;
        came = came.saturating_add(count(reply));
        wanted = wanted.saturating_add(count(line.reply()));
    }
    Ok(text)
}

/// The reply that came to the line at this place. It is empty if there is none.
pub(crate) fn reply_at(replies: &[String], place: usize) -> &str
    ensures { result.now ≡ get_or (map string_bytes replies.now) place [] }
{
    match replies.get(place) {
        Some(reply) => reply.as_str(),
        None => "",
    }
}

// How many lines a reply has.
fn count(reply: &str) -> usize
    ensures { result ≡ lines_in reply.now }
{
    if reply.is_empty() { 0 } else { 1 }
}

// The hunk of a line. `at` is the number that the line has in the run with the replies that came.
fn hunk(alloc: Global, line: &RunLine, came: &str, at: usize) -> Result<String, AllocError>
    ensures { IfOk result (λ text. string_bytes text ≡ hunk line.now came.now at) }
{
    let old = range(alloc, line.number(), line.reply())?;
    let new = range(alloc, at, came)?;
    let words = first_words(alloc, line.text())?;
    let changes = text_of_changes(alloc, line.reply(), came)?;
    let changes = changes.as_str();
    format!(in alloc; "@@ -{old} +{new} @@ {words}\n{changes}")
}

// The range of a reply below the line at this place.
fn range(alloc: Global, place: usize, reply: &str) -> Result<String, AllocError>
    ensures { IfOk result (λ text. string_bytes text ≡ range place reply.now) }
{
    if reply.is_empty() {
        return format!(in alloc; "{place},0");
    }
    let below = place.saturating_add(1);
    format!(in alloc; "{below}")
}

/// The wanted reply after `-`, and the reply that came after `+`, each as it is written in a run.
///
/// # Errors
/// Out of memory.
pub(crate) fn text_of_changes(alloc: Global, wanted: &str, came: &str) -> Result<String, AllocError>
    ensures { IfOk result (λ text. string_bytes text ≡ text_of_changes wanted.now came.now) }
{
    let wanted = change(alloc, "-", wanted)?;
    let came = change(alloc, "+", came)?;
    format!(in alloc; "{wanted}{came}")
}

// A reply as it is written in a run, after this sign. It is empty if there is no reply.
fn change(alloc: Global, sign: &str, reply: &str) -> Result<String, AllocError>
    ensures { IfOk result (λ text. string_bytes text ≡ change sign.now reply.now) }
{
    if reply.is_empty() {
        return Ok(String::new(alloc));
    }
    format!(in alloc; "{sign}    {reply}\n")
}
