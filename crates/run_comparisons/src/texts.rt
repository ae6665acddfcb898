//! What is printed of a comparison.

ghost use Rattle.std.specs.Prelude.{◌≡◌, IfOk, map, option_map, slice_get, string_bytes};
ghost use Rattle.rig_model.specs.config.Roster.{name_at};
ghost use Rattle.run_comparisons.specs.Answers.{answers_of};
ghost use Rattle.run_comparisons.specs.Texts.{text_of_answer, text_of_different, text_of_driven, text_of_end, text_of_names, text_of_operator, text_of_row, text_of_same, text_of_tenant, text_of_tenants, text_of_ticks};

use crate::answers::{Answer, Subject, answers_of};
use crate::changes::Scope;
use crate::differences::differing_places;
use rig_model::config::{Config, TenantId};
use std::alloc::{AllocError, Global};

/// A run: the path of its script, and its answers.
#[derive(Clone, Copy)]
pub struct Run<'a> {
    pub path: &'a str,
    pub answers: &'a [Answer],
}

/// The title of a row: the name of what is compared, and the noun for its answers.
#[derive(Clone, Copy)]
struct Title<'a> {
    name: &'a str,
    noun: &'a str,
}

/// Returns the rows of the tenants that are compared, in the order of the roster.
///
/// # Errors
/// Out of memory.
pub fn text_of_tenants(
    alloc: Global,
    config: &Config,
    tolerance: u64,
    old: &Run<'_>,
    new: &Run<'_>,
    scope: Scope,
) -> Result<String, AllocError>
    ensures { IfOk result (λ text. string_bytes text ≡ text_of_tenants tolerance config.now old.now.path.now new.now.path.now old.now.answers.now new.now.answers.now scope) }
{
    let mut text = String::new(alloc);
    for tenant in 0..config.tenants().len() {
        if scope.has(tenant) {
            let row = text_of_tenant(alloc, config, tolerance, old, new, tenant)?;
            text.push_str(row.as_str())?;
        }
    }
    Ok(text)
}

// The row of the tenant at this place.
fn text_of_tenant(
    alloc: Global,
    config: &Config,
    tolerance: u64,
    old: &Run<'_>,
    new: &Run<'_>,
    tenant: TenantId,
) -> Result<String, AllocError>
    ensures { IfOk result (λ text. string_bytes text ≡ text_of_tenant tolerance config.now old.now.path.now new.now.path.now old.now.answers.now new.now.answers.now tenant) }
{
    let title = Title {
        name: name_of(config, tenant),
        noun: "answers",
    };
    text_of_row(alloc, &title, tolerance, old, new, Subject::Tenant(tenant))
}

/// Returns the row of the driven lines, if the whole rig is compared.
///
/// # Errors
/// Out of memory.
pub fn text_of_driven(
    alloc: Global,
    tolerance: u64,
    old: &Run<'_>,
    new: &Run<'_>,
    scope: Scope,
) -> Result<String, AllocError>
    ensures { IfOk result (λ text. string_bytes text ≡ text_of_driven old.now.path.now new.now.path.now old.now.answers.now new.now.answers.now tolerance scope) }
{
    match scope {
        Scope::Rig => {
            let title = Title {
                name: "driven lines",
                noun: "values",
            };
            text_of_row(alloc, &title, tolerance, old, new, Subject::Lines)
        }
        Scope::Tenant(_) => Ok(String::new(alloc)),
    }
}

/// Returns the row of the operator's lines. They are compared as they are written.
///
/// # Errors
/// Out of memory.
pub fn text_of_operator(alloc: Global, old: &Run<'_>, new: &Run<'_>) -> Result<String, AllocError>
    ensures { IfOk result (λ text. string_bytes text ≡ text_of_operator old.now.path.now new.now.path.now old.now.answers.now new.now.answers.now) }
{
    let title = Title {
        name: "operator",
        noun: "lines",
    };
    text_of_row(alloc, &title, 0, old, new, Subject::Operator)
}

// The row of a subject: that its answers are the same, or how many differ, and the first that do. They are compared with the tolerance.
fn text_of_row(
    alloc: Global,
    title: &Title<'_>,
    tolerance: u64,
    old: &Run<'_>,
    new: &Run<'_>,
    subject: Subject,
) -> Result<String, AllocError>
    ensures { IfOk result (λ text. string_bytes text ≡ text_of_row tolerance title.now.name.now title.now.noun.now old.now.path.now new.now.path.now
        (answers_of subject old.now.answers.now) (answers_of subject new.now.answers.now)) }
{
    let before = answers_of(alloc, old.answers, subject)?;
    let after = answers_of(alloc, new.answers, subject)?;
    let places = differing_places(alloc, tolerance, before.as_slice(), after.as_slice())?;
    let Some(first) = places.first() else {
        return text_of_same(alloc, title, before.len());
    };
    let count = before.len().max(after.len());
    let different = text_of_different(alloc, title, places.len(), count)?;
    let one = text_of_answer(alloc, old.path, answer_at(before.as_slice(), *first))?;
    let other = text_of_answer(alloc, new.path, answer_at(after.as_slice(), *first))?;
    format!(in alloc; "{different}{one}{other}")
}

// The answer at a place, if the list is that long.
fn answer_at<'a>(answers: &[&'a Answer], place: usize) -> Option<&'a Answer>
    ensures { option_map (λ a. a.now) result ≡ slice_get (map (λ a. a.now) answers.now) place }
{
    answers.get(place).copied()
}

// That all answers are the same.
fn text_of_same(alloc: Global, title: &Title<'_>, count: usize) -> Result<String, AllocError>
    ensures { IfOk result (λ text. string_bytes text ≡ text_of_same title.now.name.now title.now.noun.now count) }
{
    let Title { name, noun } = *title;
    format!(in alloc; "{name}: same {noun} ({count})\n")
}

// How many answers differ.
fn text_of_different(
    alloc: Global,
    title: &Title<'_>,
    different: usize,
    count: usize,
) -> Result<String, AllocError>
    ensures { IfOk result (λ text. string_bytes text ≡ text_of_different title.now.name.now title.now.noun.now different count) }
{
    let Title { name, noun } = *title;
    format!(in alloc; "{name}: {different} of {count} {noun} differ; the first:\n")
}

// An answer of the script with this path, or that there is none.
fn text_of_answer(alloc: Global, path: &str, answer: Option<&Answer>) -> Result<String, AllocError>
    ensures { IfOk result (λ text. string_bytes text ≡ text_of_answer path.now (option_map (λ a. a.now) answer.entry)) }
{
    let Some(answer) = answer else {
        return format!(in alloc; "  {path}: no answer\n");
    };
    let ticks = text_of_ticks(alloc, answer.ticks())?;
    let number = answer.number();
    let reply = answer.reply();
    format!(in alloc; "  {path}:{number}: {ticks}: {reply}")
}

// The tick after which an answer is given, if this many ticks came up to it.
fn text_of_ticks(alloc: Global, ticks: u64) -> Result<String, AllocError>
    ensures { IfOk result (λ text. string_bytes text ≡ text_of_ticks ticks) }
{
    if ticks == 0 {
        return String::from_str(alloc, "before tick 0");
    }
    let tick = ticks - 1;
    format!(in alloc; "after tick {tick}")
}

/// Returns which tenants have other commands, whom a retest names for them, and who has other answers and isn't named.
///
/// # Errors
/// Out of memory.
pub fn text_of_end(
    alloc: Global,
    config: &Config,
    changed: &[TenantId],
    named: &[TenantId],
    unnamed: &[TenantId],
) -> Result<String, AllocError>
    ensures { IfOk result (λ text. string_bytes text ≡ text_of_end config.now changed.now named.now unnamed.now) }
{
    let changed = text_of_names(alloc, config, changed)?;
    let named = text_of_names(alloc, config, named)?;
    let unnamed = text_of_names(alloc, config, unnamed)?;
    format!(in alloc;
        "\nOther commands: {changed}.\n`retest` names: {named}.\nOther answers, but not named: {unnamed}.\n"
    )
}

// The names of these tenants.
fn text_of_names(alloc: Global, config: &Config, tenants: &[TenantId]) -> Result<String, AllocError>
    ensures { IfOk result (λ text. string_bytes text ≡ text_of_names config.now tenants.now) }
{
    let Some((first, others)) = tenants.split_first() else {
        return String::from_str(alloc, "nobody");
    };
    let mut text = String::from_str(alloc, name_of(config, *first))?;
    for tenant in others {
        let name = name_of(config, *tenant);
        write!(text, ", {name}")?;
    }
    Ok(text)
}

// The name of the tenant at this place; empty if there is none.
fn name_of(config: &Config, tenant: TenantId) -> &str
    ensures { result.now ≡ name_at config.now tenant }
{
    match config.tenants().get(tenant) {
        Some(tenant) => tenant.name.as_str(),
        None => "",
    }
}
