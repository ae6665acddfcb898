//! Runs with other replies.

ghost use Rattle.std.specs.Prelude.{◌≡◌, ◌++◌, IfOk, OnOk, map, string_bytes};
ghost use Rattle.script_reports.specs.cited.Updates.{reply_parts, updated_parts, updated_run};

use crate::differences::reply_at;
use crate::runs::{is_remark, is_reply, parts_of};
use std::alloc::{AllocError, Global};

/// Returns the text of a run with these replies in place of its own, each below its line. All other lines stay as they are.
///
/// `replies` are those to the lines of the script, in their order, without LF. An empty one isn't written, nor is one that is missing.
///
/// # Errors
/// Out of memory.
pub fn updated_run(alloc: Global, text: &str, replies: &[String]) -> Result<String, AllocError>
    ensures { IfOk result (λ run. string_bytes run ≡ updated_run text.now (map string_bytes replies.now)) }
{
    let parts = parts_of(alloc, text)?;
    let updated = updated_parts(alloc, parts.as_slice(), replies)?;
    updated.as_slice().join(alloc, "\n")
}

// The lines of a file with these replies.
fn updated_parts(
    alloc: Global,
    parts: &[&str],
    replies: &[String],
) -> Result<Vec<String>, AllocError>
    ensures { IfOk result (λ updated. map string_bytes updated.items ≡ updated_parts (map string_bytes replies.now) 0 (map (λ p. p.now) parts.now)) }
{
    let mut updated = Vec::new(alloc);
    // how many lines of the script are before
    let mut place = 0usize;
    for part in parts {
        if is_reply(part) {
            continue;
        }
        updated.push(String::from_str(alloc, part)?)?;
        if !is_remark(part) {
            add_reply(alloc, &mut updated, reply_at(replies, place))?;
            place += 1;
        }
    }
    Ok(updated)
}

// Adds a reply as it is written in a run, if there is one.
fn add_reply(alloc: Global, updated: &mut Vec<String>, reply: &str) -> Result<(), AllocError>
    ensures { OnOk result (map string_bytes updated.new.items ≡ map string_bytes updated.old.items ++ reply_parts reply.now) }
{
    if !reply.is_empty() {
        updated.push(format!(in alloc; "    {reply}")?)?;
    }
    Ok(())
}
