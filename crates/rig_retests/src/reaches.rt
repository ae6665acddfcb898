//! Whose change can reach whom, through binds and the plant.

ghost use Rattle.std.specs.Prelude.{◌≡◌, ◌≢◌, ◌<◌, ℕ, true, false, None, IfOk, IfSome, List, length, map, slice_set};
ghost use Rattle.plant_laws.specs.Closed.{is_direct, is_driven_by};
ghost use Rattle.rig_model.specs.config.Roster.{is_tenant};
ghost use Rattle.rig_retests.specs.Reached.{AreReaching, ForLinks, IsReachTable, is_marked, is_marked_in};

use crate::tables::Retests;
use plant_couplings::couplings::Plant;
use plant_laws::laws::sources_are_tenants;
use rig_model::config::{Config, TenantId};
use std::alloc::{AllocError, Global};
use std::marker::Model;

/// For each tenant, the tenants whose change can reach it. Contracts see it as rows of marks.
#[derive(Drop)]
pub struct ReachTable {
    rows: Vec<Vec<bool>>,
}

impl Model for ReachTable {
    ghost use Rattle.std.specs.Prelude.{Bool, List, Vec, map};
    ghost use Rattle.std.specs.declared.alloc.Global.{Global};

    ghost Value = { List (List Bool) };

    ghost view = { λ t. map (λ (row : Vec Bool Global). row.items) t.rows.items };
}

impl ReachTable {
    /// Makes the table of a script, from the sources of its tenants and the plant of its configuration.
    ///
    /// A change of a tenant reaches each tenant that has it as a source somewhere in the script. It reaches each tenant that may read a line to
    /// which the plant couples a line that it may drive. And it reaches all whom a change of one of these can reach.
    ///
    /// # Errors
    /// Out of memory.
    pub fn new(
        alloc: Global,
        config: &Config,
        plant: &Plant,
        retests: &Retests,
    ) -> Result<ReachTable, AllocError>
        ensures { IfOk result (λ table. ForLinks config.now retests.now.links (IsReachTable plant.now table)) }
    {
        let mut rows = Vec::new(alloc);
        for tenant in 0..config.tenants().len() {
            rows.push(marks_of(alloc, config, plant, retests, tenant)?)?;
        }
        Ok(ReachTable { rows })
    }

    /// Whether a change of `source` can reach `tenant`. Each tenant reaches itself. Allocates no memory.
    pub fn has(&self, tenant: TenantId, source: TenantId) -> bool
        ensures { result ≡ is_marked_in self.now tenant source }
    {
        match self.rows.get(tenant) {
            Some(row) => is_marked(row.as_slice(), source),
            None => false,
        }
    }

    /// Whether a change of another tenant can reach `tenant`. Allocates no memory.
    pub fn has_other(&self, tenant: TenantId) -> bool
        ensures { result ≡ false → (source : ℕ) → source < length self.now → source ≢ tenant → is_marked_in self.now tenant source ≡ false }
    {
        for source in 0..self.rows.len() {
            if source != tenant && self.has(tenant, source) {
                return true;
            }
        }
        false
    }
}

// Whether a tenant has a mark.
fn is_marked(marks: &[bool], tenant: TenantId) -> bool
    ensures { result ≡ is_marked marks.now tenant }
{
    match marks.get(tenant) {
        Some(mark) => *mark,
        None => false,
    }
}

// Marks a tenant.
fn set_mark(marks: &mut [bool], tenant: TenantId)
    requires { tenant < length marks.old }
    ensures { marks.new ≡ slice_set marks.old tenant true }
{
    marks[tenant] = true;
}

// Marks the tenants whose change can reach `tenant`.
fn marks_of(
    alloc: Global,
    config: &Config,
    plant: &Plant,
    retests: &Retests,
    tenant: TenantId,
) -> Result<Vec<bool>, AllocError>
    requires { tenant < length config.now.tenants }
    ensures many { IfOk result (λ marks. length marks.items ≡ length config.now.tenants) }
    ensures marks { IfOk result (λ marks. ForLinks config.now retests.now.links (AreReaching plant.now tenant marks.items)) }
{
    // For the proof: no source is outside of the roster.
    sources_are_tenants();
    let mut marks = vec![in alloc; false; config.tenants().len()]?;
    set_mark(marks.as_mut_slice(), tenant);
    while let Some(source) = next_source(config, plant, retests, marks.as_slice()) {
        set_mark(marks.as_mut_slice(), source);
    }
    Ok(marks)
}

// The first tenant without a mark whose change reaches a marked tenant directly.
fn next_source(
    config: &Config,
    plant: &Plant,
    retests: &Retests,
    marks: &[bool],
) -> Option<TenantId>
    requires { length marks.now ≡ length config.now.tenants }
    ensures within { IfSome result (λ source. source < length marks.now) }
    ensures unmarked { IfSome result (λ source. is_marked marks.now source ≡ false) }
    ensures reaches { IfSome result (λ source. ForLinks config.now retests.now.links (λ setting past.
        (t : ℕ) × (is_marked marks.now t ≡ true) × (is_direct setting plant.now past t source ≡ true))) }
    ensures none { result ≡ None → ForLinks config.now retests.now.links (λ setting past. (t source : ℕ) →
        source < length marks.now → is_marked marks.now t ≡ true → is_direct setting plant.now past t source ≡ true → is_marked marks.now source ≡ true) }
{
    for source in 0..marks.len() {
        if !is_marked(marks, source) && reaches_marked(config, plant, retests, marks, source) {
            return Some(source);
        }
    }
    None
}

// Whether a change of `source`, which has no mark, reaches a marked tenant directly.
fn reaches_marked(
    config: &Config,
    plant: &Plant,
    retests: &Retests,
    marks: &[bool],
    source: TenantId,
) -> bool
    requires many { length marks.now ≡ length config.now.tenants }
    requires within { source < length marks.now }
    requires unmarked { is_marked marks.now source ≡ false }
    ensures some { result ≡ true → ForLinks config.now retests.now.links (λ setting past.
        (t : ℕ) × (is_marked marks.now t ≡ true) × (is_direct setting plant.now past t source ≡ true)) }
    ensures none { result ≡ false → ForLinks config.now retests.now.links (λ setting past. (t : ℕ) →
        is_marked marks.now t ≡ true → is_direct setting plant.now past t source ≡ false) }
{
    for tenant in 0..marks.len() {
        if is_marked(marks, tenant) && reaches_directly(config, plant, retests, tenant, source) {
            return true;
        }
    }
    false
}

/// Whether a change of `source` reaches `tenant`, another tenant, directly: through binds or the plant. Allocates no memory.
pub fn reaches_directly(
    config: &Config,
    plant: &Plant,
    retests: &Retests,
    tenant: TenantId,
    source: TenantId,
) -> bool
    ensures { tenant ≢ source → ForLinks config.now retests.now.links (λ setting past.
        is_tenant setting.config tenant ≡ true → is_tenant setting.config source ≡ true → result ≡ is_direct setting plant.now past tenant source) }
{
    retests.is_source(tenant, source) || drives(config, plant, tenant, source)
}

/// Whether what `source` may drive can change what `tenant` may read, through the plant. Allocates no memory.
pub fn drives(config: &Config, plant: &Plant, tenant: TenantId, source: TenantId) -> bool
    ensures { result ≡ is_driven_by config.now plant.now tenant source }
{
    let tenants = config.tenants();
    match tenants.get(source) {
        Some(driver) => match tenants.get(tenant) {
            Some(reader) => plant.can_change(driver, reader),
            None => false,
        },
        None => false,
    }
}
