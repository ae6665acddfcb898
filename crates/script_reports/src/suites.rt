//! The comparison of a run as a suite of tests in the form of JUnit, for a CI server.

ghost use Rattle.std.specs.Prelude.{◌≡◌, ◌++◌, IfOk, OnOk, map, string_bytes};
ghost use Rattle.script_reports.specs.inner.Differences.{failures_from};
ghost use Rattle.script_reports.specs.inner.Suites.{AreTests, IsEscaped, IsSuite, IsTest, escaped_character};

use crate::differences::{reply_at, text_of_changes};
use crate::reports::first_words;
use crate::runs::RunLine;
use std::alloc::{AllocError, Global};

/// The suite of a run in XML: a test for each line of its script. A test is named by the line's number and first words, and it
/// fails if the line's reply isn't the one that it should get.
///
/// # Errors
/// Out of memory.
pub fn text_of_suite(
    alloc: Global,
    name: &str,
    lines: &[RunLine],
    replies: &[String],
) -> Result<String, AllocError>
    ensures { IfOk result (λ text. IsSuite name.now lines.now (map string_bytes replies.now) (string_bytes text)) }
{
    let name = escaped(alloc, name)?;
    let tests = text_of_tests(alloc, name.as_str(), lines, replies)?;
    let (count, failures) = (lines.len(), failures(lines, replies));
    format!(in alloc;
        "<?xml version=\"1.0\" encoding=\"UTF-8\"?>\n<testsuites>\n<testsuite name=\"{name}\" tests=\"{count}\" failures=\"{failures}\">\n{tests}</testsuite>\n</testsuites>\n"
    )
}

// A test for each line.
fn text_of_tests(
    alloc: Global,
    suite: &str,
    lines: &[RunLine],
    replies: &[String],
) -> Result<String, AllocError>
    ensures { IfOk result (λ text. AreTests suite.now (map string_bytes replies.now) 0 lines.now (string_bytes text)) }
{
    let mut text = String::new(alloc);
    for (place, line) in lines.iter().enumerate() {
        let test = text_of_test(alloc, suite, line, reply_at(replies, place))?;
        text.push_str(test.as_str())?;
    }
    Ok(text)
}

// How many lines have a different reply from the one that they should get.
fn failures(lines: &[RunLine], replies: &[String]) -> usize
    ensures { result ≡ failures_from (map string_bytes replies.now) 0 lines.now }
{
    let mut failures = 0;
    for (place, line) in lines.iter().enumerate() {
        if reply_at(replies, place) != line.reply() {
            failures += 1;
        }
    }
    failures
}

// The test of a line.
fn text_of_test(
    alloc: Global,
    suite: &str,
    line: &RunLine,
    came: &str,
) -> Result<String, AllocError>
    ensures { IfOk result (λ text. IsTest suite.now line.now came.now (string_bytes text)) }
{
    let number = line.number();
    let words = first_words(alloc, line.text())?;
    let words = escaped(alloc, words.as_str())?;
    if line.reply() == came {
        return format!(in alloc; "<testcase classname=\"{suite}\" name=\"{number}: {words}\"/>\n");
    }
    let changes = text_of_changes(alloc, line.reply(), came)?;
    let changes = escaped(alloc, changes.as_str())?;
    format!(in alloc;
        "<testcase classname=\"{suite}\" name=\"{number}: {words}\">\n<failure message=\"another reply\">{changes}</failure>\n</testcase>\n"
    )
}

// A text as it may be written in XML: a character that has a meaning there as its entity, and one that XML doesn't have, or a control
// character except LF, as `?`.
fn escaped(alloc: Global, text: &str) -> Result<String, AllocError>
    ensures { IfOk result (λ shown. IsEscaped text.now (string_bytes shown)) }
{
    let mut shown = String::new(alloc);
    for c in text.chars() {
        push_escaped(&mut shown, c)?;
    }
    Ok(shown)
}

// Writes a character as it may be written in XML.
fn push_escaped(shown: &mut String, c: char) -> Result<(), AllocError>
    ensures { OnOk result (string_bytes shown.new ≡ string_bytes shown.old ++ escaped_character c) }
{
    match c {
        '&' => shown.push_str("&amp;"),
        '<' => shown.push_str("&lt;"),
        '>' => shown.push_str("&gt;"),
        '"' => shown.push_str("&quot;"),
        '\n' => shown.push('\n'),
        '\0'..='\u{1f}' | '\u{fffe}' | '\u{ffff}' => shown.push('?'),
        _ => shown.push(c),
    }
}
