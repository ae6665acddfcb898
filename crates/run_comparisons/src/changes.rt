//! What changed for each tenant between two runs, and whose changes a retest names.

ghost use Rattle.std.specs.Prelude.{◌≡◌, IfOk, length, map};
ghost use Rattle.rig_retests.specs.Named.{names_of};
ghost use Rattle.run_comparisons.specs.Changes.{calls_for, change_at, change_of, changed_tenants, changes_of, have_other_lines, in_scope, is_named, is_unnamed, named_tenants, unnamed_tenants};

use crate::answers::{Answer, Subject, answers_of};
use crate::differences::differing_places;
use rig_model::config::{Config, TenantId};
use rig_retests::facts::Facts;
use std::alloc::{AllocError, Global};

/// Which tenants are compared.
#[derive(Clone, Copy, Debug, PartialEq, Eq)]
pub enum Scope {
    /// All of the rig, and its driven lines.
    Rig,
    /// The tenant at this place of the roster.
    Tenant(TenantId),
}

impl Scope {
    /// Whether the tenant at this place of the roster is compared.
    pub fn has(self, tenant: TenantId) -> bool
        ensures { result ≡ in_scope self tenant }
    {
        match self {
            Scope::Rig => true,
            Scope::Tenant(only) => tenant == only,
        }
    }
}

/// What changed for a tenant.
#[derive(Clone, Copy, Debug, PartialEq, Eq)]
pub struct Change {
    /// Whether its lines are other ones.
    pub lines: bool,
    /// Whether its answers are other ones.
    pub answers: bool,
}

/// Returns what changed for each tenant, by the places in the roster. Answers are compared with the tolerance.
///
/// # Errors
/// Out of memory.
pub fn changes_of(
    alloc: Global,
    config: &Config,
    tolerance: u64,
    old: &[Answer],
    new: &[Answer],
) -> Result<Vec<Change>, AllocError>
    ensures { IfOk result (λ changes. changes.items ≡ changes_of tolerance old.now new.now (length config.now.tenants)) }
{
    let mut changes = Vec::new(alloc);
    for tenant in 0..config.tenants().len() {
        changes.push(change_of(alloc, tolerance, old, new, tenant)?)?;
    }
    Ok(changes)
}

// What changed for the tenant at this place.
fn change_of(
    alloc: Global,
    tolerance: u64,
    old: &[Answer],
    new: &[Answer],
    tenant: TenantId,
) -> Result<Change, AllocError>
    ensures { IfOk result (λ change. change ≡ change_of tolerance old.now new.now tenant) }
{
    let before = answers_of(alloc, old, Subject::Tenant(tenant))?;
    let after = answers_of(alloc, new, Subject::Tenant(tenant))?;
    let lines = have_other_lines(alloc, before.as_slice(), after.as_slice())?;
    let places = differing_places(alloc, tolerance, before.as_slice(), after.as_slice())?;
    Ok(Change {
        lines,
        answers: !places.is_empty(),
    })
}

// Whether the lines of these answers are not the same, one by one.
fn have_other_lines(alloc: Global, old: &[&Answer], new: &[&Answer]) -> Result<bool, AllocError>
    ensures { IfOk result (λ other. other ≡ have_other_lines (map (λ a. a.now) old.now) (map (λ a. a.now) new.now)) }
{
    let old = lines_of(alloc, old)?;
    let new = lines_of(alloc, new)?;
    Ok(old.as_slice() != new.as_slice())
}

// The lines of these answers.
fn lines_of<'a>(alloc: Global, answers: &[&'a Answer]) -> Result<Vec<&'a str>, AllocError>
    ensures { IfOk result (λ lines. map (λ l. l.now) lines.items ≡ map (λ a. a.now.line) answers.now) }
{
    let mut lines = Vec::new(alloc);
    for answer in answers {
        lines.push(answer.line())?;
    }
    Ok(lines)
}

/// The change of the tenant at this place; none if the place isn't one of these.
fn change_at(changes: &[Change], tenant: TenantId) -> Change
    ensures { result ≡ change_at changes.now tenant }
{
    match changes.get(tenant) {
        Some(change) => *change,
        None => Change {
            lines: false,
            answers: false,
        },
    }
}

/// Returns the tenants with other lines.
///
/// # Errors
/// Out of memory.
pub fn changed_tenants(alloc: Global, changes: &[Change]) -> Result<Vec<TenantId>, AllocError>
    ensures { IfOk result (λ tenants. tenants.items ≡ changed_tenants changes.now) }
{
    let mut tenants = Vec::new(alloc);
    for tenant in 0..changes.len() {
        if change_at(changes, tenant).lines {
            tenants.push(tenant)?;
        }
    }
    Ok(tenants)
}

/// Returns the tenants that a retest names for the tenants with other lines: these, and each that it names after a change of one.
///
/// # Errors
/// Out of memory.
pub fn named_tenants(
    alloc: Global,
    changes: &[Change],
    facts: &Facts<'_>,
) -> Result<Vec<TenantId>, AllocError>
    ensures { IfOk result (λ tenants. tenants.items ≡ named_tenants (names_of facts.now) changes.now) }
{
    let mut tenants = Vec::new(alloc);
    for tenant in 0..changes.len() {
        if is_named(changes, facts, tenant) {
            tenants.push(tenant)?;
        }
    }
    Ok(tenants)
}

/// Returns the tenants that are compared, have other answers, and that no retest names.
///
/// # Errors
/// Out of memory.
pub fn unnamed_tenants(
    alloc: Global,
    changes: &[Change],
    facts: &Facts<'_>,
    scope: Scope,
) -> Result<Vec<TenantId>, AllocError>
    ensures { IfOk result (λ tenants. tenants.items ≡ unnamed_tenants (names_of facts.now) changes.now scope) }
{
    let mut tenants = Vec::new(alloc);
    for tenant in 0..changes.len() {
        if is_unnamed(changes, facts, scope, tenant) {
            tenants.push(tenant)?;
        }
    }
    Ok(tenants)
}

// Whether the tenant is compared, has other answers, and isn't named.
fn is_unnamed(changes: &[Change], facts: &Facts<'_>, scope: Scope, tenant: TenantId) -> bool
    ensures { result ≡ is_unnamed (names_of facts.now) changes.now scope tenant }
{
    scope.has(tenant) && (change_at(changes, tenant).answers && !is_named(changes, facts, tenant))
}

// Whether a retest names the tenant: it has other lines, or is named after a change of one that has.
fn is_named(changes: &[Change], facts: &Facts<'_>, tenant: TenantId) -> bool
    ensures { result ≡ is_named (names_of facts.now) changes.now tenant }
{
    for source in 0..changes.len() {
        if calls_for(changes, facts, source, tenant) {
            return true;
        }
    }
    false
}

// Whether the source has other lines, and its change calls for a retest of the tenant.
fn calls_for(changes: &[Change], facts: &Facts<'_>, source: TenantId, tenant: TenantId) -> bool
    ensures { result ≡ calls_for (names_of facts.now) changes.now tenant source }
{
    change_at(changes, source).lines && (source == tenant || facts.is_named(tenant, source))
}
