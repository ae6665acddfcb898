//! The first rule that a program breaks, and the findings that report it.

ghost use Rattle.std.specs.Prelude.{◌≡◌, ◌↔◌, IfOk, IfSome, OnOk, Some, None};
ghost use Rattle.giotto_faults.specs.Findings.{BeginWithError, IsErrorAt, TellFault};
ghost use Rattle.giotto_rules.specs.Rules.{first_broken_rule};

use crate::finders::{Break, Site, breaks_of};
use crate::hints::hint;
use crate::outlines::{Outline, outline_of};
use crate::words::words_of_rule;
use giotto_faults::findings::{Finding, Severity};
use giotto_faults::reading::{Program, ReadFault};
use giotto_rules::first_broken;
use giotto_rules::text::lexer;
use std::alloc::{AllocError, Global};

/// A rule that a program breaks, with the findings that report each place that breaks it.
#[derive(Drop)]
pub struct BrokenRule {
    /// The rule's number, 1 to 11.
    pub rule: usize,
    /// In the order of what the rule says, and in text order.
    pub findings: Vec<Finding>,
}

/// The first rule that a program breaks, with its findings. `None` if the program is well-formed.
///
/// `text` is the text that reads as the program.
///
/// # Errors
/// Out of memory.
pub fn broken_rule(
    alloc: Global,
    program: &Program,
    text: &str,
) -> Result<Option<BrokenRule>, AllocError>
    ensures well_formed { IfOk result (λ broken. (broken ≡ None) ↔ (first_broken_rule program.now ≡ None)) }
    ensures rule { IfOk result (λ broken. IfSome broken (λ b. first_broken_rule program.now ≡ Some b.rule)) }
    ensures told { IfOk result (λ broken. IfSome broken (λ b. TellFault b.findings.items)) }
{
    match first_broken(alloc, program)? {
        None => Ok(None),
        Some(rule) => {
            let findings = findings_of(alloc, rule, text)?;
            Ok(Some(BrokenRule { rule, findings }))
        }
    }
}

// The findings for the places in this text that break the rule.
fn findings_of(alloc: Global, rule: usize, text: &str) -> Result<Vec<Finding>, AllocError>
    ensures { IfOk result (λ findings. TellFault findings.items) }
{
    let tokens = match lexer::tokens(alloc, text.as_bytes()) {
        Ok(tokens) => tokens,
        Err(ReadFault::Memory) => return Err(AllocError),
        Err(_) => Vec::new(alloc),
    };
    let outline = outline_of(alloc, &tokens)?;
    findings_in(alloc, rule, text, &outline)
}

// The same, with the outline of the text.
#[tactic(auto, using(crate::proofs::Telling::error_pushed))]
fn findings_in(
    alloc: Global,
    rule: usize,
    text: &str,
    outline: &Outline,
) -> Result<Vec<Finding>, AllocError>
    ensures { IfOk result (λ findings. TellFault findings.items) }
{
    let breaks = breaks_of(alloc, rule, outline)?;
    let mut findings = Vec::new(alloc);
    for found in &breaks {
        let words = words_once(alloc, rule, findings.is_empty())?;
        add_break(alloc, &mut findings, words, (outline, text), found)?;
    }
    if findings.is_empty() {
        findings.push(without_place(alloc, rule)?)?;
    }
    Ok(findings)
}

// Adds a finding for a place that breaks the rule, with the rule's words, and a note on the other place that belongs to it.
#[tactic(auto, using(crate::proofs::Telling::error_pushed, crate::proofs::Telling::more_pushed))]
fn add_break(
    alloc: Global,
    findings: &mut Vec<Finding>,
    words: Option<String>,
    program: (&Outline, &str),
    found: &Break,
) -> Result<(), AllocError>
    ensures { OnOk result (BeginWithError findings.old.items → TellFault findings.new.items) }
{
    let (outline, text) = program;
    findings.push(Finding {
        severity: Severity::Error,
        offset: found.site.offset,
        len: found.site.len_in(text),
        message: format!(in alloc; "{}", found.what)?,
        rule: words,
        help: hint(alloc, outline, &found.what)?,
    })?;
    if let Some((site, words)) = found.other {
        findings.push(note(alloc, text, site, words)?)?;
    }
    Ok(())
}

// The rule's words are reported only with the first place.
fn words_once(alloc: Global, rule: usize, is_first: bool) -> Result<Option<String>, AllocError> {
    if !is_first {
        return Ok(None);
    }
    Ok(Some(words(alloc, rule)?))
}

fn words(alloc: Global, rule: usize) -> Result<String, AllocError> {
    let words = words_of_rule(rule);
    format!(in alloc; "rule {rule}: {words}")
}

fn note(alloc: Global, text: &str, site: Site, words: &str) -> Result<Finding, AllocError> {
    Ok(Finding {
        severity: Severity::Note,
        offset: site.offset,
        len: site.len_in(text),
        message: String::from_str(alloc, words)?,
        rule: None,
        help: None,
    })
}

// The finding if no place is found.
fn without_place(alloc: Global, rule: usize) -> Result<Finding, AllocError>
    ensures { IfOk result (IsErrorAt 0) }
{
    Ok(Finding {
        severity: Severity::Error,
        offset: 0,
        len: 0,
        message: format!(in alloc; "the program breaks rule {rule}")?,
        rule: Some(words(alloc, rule)?),
        help: None,
    })
}
