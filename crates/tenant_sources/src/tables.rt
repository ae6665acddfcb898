//! The sources of all tenants, moved forward tick by tick.

ghost use Rattle.std.specs.Prelude.{◌≡◌, ◌<◌, ◌==◌, ◌||◌, ℕ, ℤ, true, if◌then◌else◌, is_some, None, Some, [], ◌∷◌, List, false, length, replicate, IfOk, IfSome, OnOk, IsOk};
ghost use Rattle.std.specs.List.{All, list_any};
ghost use Rattle.host_core.specs.HostStanding.{ForEachState};
ghost use Rattle.rig_model.specs.HostState.{row_at};
ghost use Rattle.rig_model.specs.Legal.{is_legal, next_tick};
ghost use Rattle.tenant_sources.specs.cited.Additions.{AreAdded, IsPlaceOf, with_link, with_links};
ghost use Rattle.tenant_sources.specs.Links.{IsChain, IsLinkTable, first_link, is_source_of, link_in, has_source};
ghost use Rattle.rig_model.specs.Base.{Setting};
ghost use Rattle.rig_model.specs.Sources.{suppliers_of};
ghost use Rattle.rig_model.specs.Views.{row_of};
ghost use Rattle.rig_model.specs.declared.events.Event.{Event};
ghost use Rattle.tenant_sources.specs.declared.tables.Addition.{Addition};
ghost use Rattle.tenant_sources.specs.inner.Links.{Adds, next_link};
ghost use Rattle.rig_model.specs.config.Roster.{is_tenant};

use giotto_tasks::names::Name;
use host_core::hosts::Host;
use rig_model::config::TenantId;
use std::alloc::{AllocError, Global};
use std::marker::Model;

/// A bind that gave a tenant a source.
#[derive(Drop)]
pub struct Link {
    /// The number of the instant just before which the bind existed.
    pub tick: u64,
    pub sensor: Name,
    pub supplier: TenantId,
    pub actuator: Name,
}

impl Link {
    /// An equal link. Allocates nothing.
    pub fn copy(&self) -> Link
        ensures { result ≡ self.now }
    {
        Link {
            tick: self.tick,
            sensor: self.sensor.copy(),
            supplier: self.supplier,
            actuator: self.actuator.copy(),
        }
    }
}

/// A source that a tenant gains, and the bind that gives it.
#[derive(Drop)]
pub struct Addition {
    tenant: TenantId,
    source: TenantId,
    link: Link,
}

/// For each tenant the first link to each other tenant that is its source. Contracts see it as a table of links.
#[derive(Drop)]
pub struct SourceTable {
    rows: Vec<Vec<Option<Link>>>,
}

impl Model for SourceTable {
    ghost use Rattle.std.specs.Prelude.{List, Option, Vec, map};
    ghost use Rattle.tenant_sources.specs.declared.tables.Link.{Link};
    ghost use Rattle.tenant_sources.specs.inner.Links.{IsSquare};
    ghost use Rattle.std.specs.declared.alloc.Global.{Global};

    ghost Value = { List (List (Option Link)) };

    ghost view = { λ t. map (λ (row : Vec (Option Link) Global). row.items) t.rows.items };

    ghost invariant = { λ t. IsSquare (map (λ (row : Vec (Option Link) Global). row.items) t.rows.items) };
}

impl SourceTable {
    /// The table of this many tenants before any instant: each tenant is its only source.
    ///
    /// # Errors
    /// Out of memory.
    pub fn new(alloc: Global, tenants: usize) -> Result<SourceTable, AllocError>
        ensures { IfOk result (λ table. (setting : Setting) → length setting.config.tenants ≡ tenants → IsLinkTable setting [] table) }
    {
        let mut rows = Vec::new(alloc);
        for _tenant in 0..tenants {
            rows.push(no_links(alloc, tenants)?)?;
        }
        Ok(SourceTable { rows })
    }

    /// The links that the next instant adds, given the host just before it.
    ///
    /// # Errors
    /// Out of memory.
    pub fn additions(&self, alloc: Global, host: &Host) -> Result<Vec<Addition>, AllocError>
        ensures added { IfOk result (λ added. AreAdded self.now host.now added.items) }
    {
        let mut added = Vec::new(alloc);
        let tenants = self.rows.len().min(host.config().tenants().len());
        for tenant in 0..tenants {
            if host.bind_count(tenant) == 0 {
                continue;
            }
            self.add_of(host, tenant, &mut added)?;
        }
        Ok(added)
    }

    // Appends the links that the next instant adds to a tenant's sources.
    fn add_of(
        &self,
        host: &Host,
        tenant: TenantId,
        added: &mut Vec<Addition>,
    ) -> Result<(), AllocError>
        requires roster { tenant < length host.now.config.tenants }
        requires row { tenant < length self.now }
        requires places { All (IsPlaceOf self.now) added.old.items }
        ensures places { OnOk result (All (IsPlaceOf self.now) added.new.items) }
        ensures added { OnOk result (ForEachState host.now (λ setting state.
            Adds self.now added.old.items added.new.items (λ t u. if t == tenant then next_link setting self.now state.clock (row_at state t) t u else None))) }
    {
        for source in 0..self.rows.len() {
            let Some(link) = self.next_link(host, tenant, source) else {
                continue;
            };
            added.push(Addition {
                tenant,
                source,
                link,
            })?;
        }
        Ok(())
    }

    // The link that the next instant adds from a tenant to a source, if it adds one: the first of the tenant's binds whose supplier has the
    // source.
    fn next_link(&self, host: &Host, tenant: TenantId, source: TenantId) -> Option<Link>
        requires { tenant < length host.now.config.tenants }
        ensures { ForEachState host.now (λ setting state. result ≡ next_link setting self.now state.clock (row_at state tenant) tenant source) }
    {
        if self.is_source(tenant, source) {
            return None;
        }
        for i in 0..host.bind_count(tenant) {
            let Some((sensor, supplier, actuator)) = host.bind_at(tenant, i) else {
                unreachable!()
            };
            if self.is_source(supplier, source) {
                return Some(Link {
                    tick: host.clock(),
                    sensor: sensor.copy(),
                    supplier,
                    actuator: actuator.copy(),
                });
            }
        }
        None
    }

    /// Adds these links, in their order, each unless there is already a link in its place, or the table has no such place. Allocates
    /// nothing.
    pub fn add(&mut self, added: &[Addition])
        ensures { self.new ≡ with_links self.old added.now }
    {
        for addition in added {
            self.put(addition);
        }
    }

    // Adds a link, unless there is already one in its place, or there is no such place.
    fn put(&mut self, addition: &Addition)
        ensures { self.new ≡ with_link self.old addition.now }
    {
        if !self.has_place(addition) {
            return;
        }
        if self.link(addition.tenant, addition.source).is_some() {
            return;
        }
        let row = &mut self.rows[addition.tenant];
        row[addition.source] = Some(addition.link.copy());
    }

    // Whether there is a place for an addition.
    fn has_place(&self, addition: &Addition) -> bool
        ensures has { result ≡ true → IsPlaceOf self.now addition.now }
        ensures none { result ≡ false → with_link self.now addition.now ≡ self.now }
    {
        let size = self.rows.len();
        addition.tenant < size && addition.source < size
    }

    // The link from a tenant to a source, if there is one.
    fn link(&self, tenant: TenantId, source: TenantId) -> Option<&Link>
        ensures some { IfSome result (λ link. link_in self.now tenant source ≡ Some link.now) }
        ensures none { result ≡ None → link_in self.now tenant source ≡ None }
    {
        self.rows.get(tenant)?.get(source)?.as_ref()
    }

    /// Whether `source` is a source of `tenant`. Each tenant is its own source. Allocates nothing.
    pub fn is_source(&self, tenant: TenantId, source: TenantId) -> bool
        ensures links { result ≡ has_source self.now tenant source }
        ensures sources { (setting : Setting) (past : List Event) → IsLinkTable setting past self.now → is_tenant setting.config tenant ≡ true → is_tenant setting.config source ≡ true
            → result ≡ is_source_of setting past tenant source }
    {
        if tenant == source {
            return true;
        }
        self.link(tenant, source).is_some()
    }

    /// The links from `tenant` to `source`, beginning with the tenant's own. Each is at an earlier tick than the one before it. Empty if
    /// `source` is no source of `tenant`, or is `tenant` itself.
    ///
    /// # Errors
    /// Out of memory, only if there is a link.
    pub fn chain(
        &self,
        alloc: Global,
        tenant: TenantId,
        source: TenantId,
    ) -> Result<Vec<Link>, AllocError>
        ensures chain { IfOk result (λ links. (setting : Setting) (past : List Event) → is_legal setting past ≡ true → IsLinkTable setting past self.now
            → is_tenant setting.config tenant ≡ true → is_tenant setting.config source ≡ true → is_source_of setting past tenant source ≡ true
            → IsChain setting past (next_tick setting past) tenant source links.items) }
        ensures none { link_in self.now tenant source ≡ None → IfOk result (λ links. links.items ≡ []) }
        ensures never_refused { link_in self.now tenant source ≡ None → IsOk result }
    {
        let mut links = Vec::new(alloc);
        let mut at = tenant;
        let mut before = u64::MAX;
        while let Some(link) = self.link(at, source) {
            if link.tick >= before {
                return Ok(links);
            }
            before = link.tick;
            at = link.supplier;
            links.push(link.copy())?;
        }
        Ok(links)
    }
}

// A row without a link.
fn no_links(alloc: Global, tenants: usize) -> Result<Vec<Option<Link>>, AllocError>
    ensures { IfOk result (λ row. row.items ≡ replicate tenants None) }
{
    let mut row = Vec::new(alloc);
    for _source in 0..tenants {
        row.push(None)?;
    }
    Ok(row)
}

/// A tenant's sources are itself and the tenants that it has a link to. After an instant they are those before it, and those that its
/// suppliers had. This holds for each tenant and each list of events, the newest first.
pub fn links_lead_to_sources()
    ensures linked { (setting : Setting) (past : List Event) (t u : ℕ) → is_source_of setting past t u ≡ (t == u || is_some (first_link setting past t u)) }
    ensures forward { (setting : Setting) (past : List Event) (frame : List ℤ) (t u : ℕ) → is_source_of setting (Event.Tick frame ∷ past) t u
        ≡ (is_source_of setting past t u || list_any (λ v. is_source_of setting past v u) (suppliers_of setting (row_of setting past t))) }
{}
