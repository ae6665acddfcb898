//! The sources of all tenants in a script.

ghost use Rattle.std.specs.Prelude.{◌≡◌, ◌≢◌, ◌==◌, ◌&&◌, ◌++◌, true, false, not, [], None, List, length, slice_get, IfOk, IsOk, OnOk};
ghost use Rattle.rig_model.specs.Legal.{is_legal, next_tick};
ghost use Rattle.tenant_sources.specs.Links.{IsChain, IsLinkTable, is_source_of, link_in, has_source};
ghost use Rattle.tenant_sources.specs.cited.Additions.{AreAdded};
ghost use Rattle.rig_model.specs.Base.{Setting};
ghost use Rattle.rig_model.specs.declared.events.Event.{Event};
ghost use Rattle.rig_model.specs.config.Roster.{is_tenant};
ghost use Rattle.rig_script.specs.Courses.{IsCourseOf};
ghost use Rattle.rig_script.specs.Instants.{is_instant};
ghost use Rattle.rig_model.specs.TextLines.{cut};
ghost use Rattle.rig_retests.specs.Ticks.{number_if, tick_lines_of};
ghost use Rattle.rig_retests.specs.inner.Watching.{table_behind};
ghost use Rattle.rig_script.specs.BrokenOff.{ForNewHostReading};
ghost use Rattle.rig_model.specs.Script.{past_after};

use crate::direct_binds::{DirectBind, DirectBinds};
use crate::plant_lines::PlantLines;
use host_core::events::Event;
use host_core::hosts::Host;
use rig_model::config::{Config, TenantId};
use rig_model::lines::commands::Command;
use rig_script::courses::Course;
use rig_script::faults::ScriptFault;
use rig_script::listeners::{Answered, Listener};
use rig_script::{Heard, heard_script};
use std::alloc::{AllocError, Global};
use std::io;
use std::io::Read;
use std::marker::Model;
use tenant_sources::tables::{Addition, Link, SourceTable};

/// Which tenants of a script need a retest after another one changes.
///
/// Contracts see it as the table of links between the tenants, and how the script went.
#[derive(Drop)]
pub struct Retests {
    table: SourceTable,
    // The line that gave each tick, from tick 0 on.
    lines: Vec<u64>,
    binds: DirectBinds,
    plant: PlantLines,
    course: Course,
}

impl Model for Retests {
    ghost use Rattle.rig_retests.specs.Retested.{Retested};

    ghost Value = { Retested };

    ghost view = { λ r. record { links = r.table; tick_lines = r.lines.items; course = r.course } };
}

impl Retests {
    /// Whether `source`, another tenant, is a source of `tenant` somewhere in the script. Allocates no memory.
    pub fn is_source(&self, tenant: TenantId, source: TenantId) -> bool
        ensures links { result ≡ (not (tenant == source) && has_source self.now.links tenant source) }
        ensures itself { tenant ≡ source → result ≡ false }
        ensures sources { tenant ≢ source → (setting : Setting) (past : List Event) → IsLinkTable setting past self.now.links → is_tenant setting.config tenant ≡ true → is_tenant setting.config source ≡ true
            → result ≡ is_source_of setting past tenant source }
    {
        if tenant == source {
            return false;
        }
        self.table.is_source(tenant, source)
    }

    /// Returns the binds that lead from `tenant` to `source`, the tenant's own first. Empty if it is no source, or the tenant itself.
    ///
    /// Each bind existed just before its tick, and its tick is earlier than that of the bind before it in the list. The tick of the first
    /// bind is the first at which `source` is a source of `tenant`.
    ///
    /// # Errors
    /// Out of memory, only if it is a source.
    pub fn chain(
        &self,
        alloc: Global,
        tenant: TenantId,
        source: TenantId,
    ) -> Result<Vec<Link>, AllocError>
        ensures chain { IfOk result (λ links. (setting : Setting) (past : List Event) → is_legal setting past ≡ true → IsLinkTable setting past self.now.links
            → is_tenant setting.config tenant ≡ true → is_tenant setting.config source ≡ true → is_source_of setting past tenant source ≡ true
            → IsChain setting past (next_tick setting past) tenant source links.items) }
        ensures none { link_in self.now.links tenant source ≡ None → IfOk result (λ links. links.items ≡ []) }
        ensures never_refused { link_in self.now.links tenant source ≡ None → IsOk result }
    {
        self.table.chain(alloc, tenant, source)
    }

    /// Returns the line of the script that gave a tick, counted from 1, if the script had that tick. Each line counts, a blank one too.
    pub fn line_of(&self, tick: u64) -> Option<u64>
        ensures { result ≡ slice_get self.now.tick_lines tick }
    {
        self.lines.get(tick as usize).copied()
    }

    /// The binds that existed just before an instant of the script.
    pub fn direct_binds(&self) -> &[DirectBind] {
        self.binds.as_slice()
    }

    /// The rig lines that the programs of the script use.
    pub fn plant_lines(&self) -> &PlantLines {
        &self.plant
    }

    /// How the script went.
    pub fn course(&self) -> Course
        ensures { result ≡ self.now.course }
    {
        self.course
    }
}

/// Answers the lines of a reader as `rig_script::script` does, and returns which tenants need a retest after another one changes.
///
/// # Errors
/// As `script`; `Memory` also if an allocation for the table fails. If it fails after the first line was read, all lines are answered.
pub fn retests_of<R: Read>(
    alloc: Global,
    reader: &mut R,
    config: &Config,
) -> Result<Retests, ScriptFault>
    ensures sources { IfOk result (λ retests. ForNewHostReading config.now (R.remaining reader.old) (λ setting bytes. IsLinkTable setting (past_after setting [] (cut bytes)) retests.links)) }
    ensures lines { IfOk result (λ retests. ForNewHostReading config.now (R.remaining reader.old) (λ setting bytes. retests.tick_lines ≡ tick_lines_of setting bytes)) }
    ensures course { IfOk result (λ retests. ForNewHostReading config.now (R.remaining reader.old) (λ setting bytes.
        IsCourseOf config.now bytes (R.remaining reader.new) (past_after setting [] (cut bytes)) retests.course)) }
{
    let host = Host::new(alloc, config, 0)?;
    let watcher = Watcher::new(alloc, &host)?;
    let heard = heard_script(alloc, reader, &mut io::sink(), host, watcher)?;
    let Heard {
        listener,
        host: _,
        course,
    } = heard;
    let Watcher {
        table,
        added: _,
        lines,
        binds,
        plant,
    } = listener;
    Ok(Retests {
        table,
        lines,
        binds,
        plant,
        course,
    })
}

// Follows the sources of all tenants from line to line.
#[derive(Drop)]
struct Watcher {
    table: SourceTable,
    // What the next instant adds to the table.
    added: Vec<Addition>,
    lines: Vec<u64>,
    binds: DirectBinds,
    plant: PlantLines,
}

impl Watcher {
    // A watcher that has heard nothing yet, of a new host.
    fn new(alloc: Global, host: &Host) -> Result<Watcher, AllocError>
        ensures table { IfOk result (λ watcher. (setting : Setting) → length setting.config.tenants ≡ length host.now.config.tenants → IsLinkTable setting [] watcher.table) }
        ensures added { IfOk result (λ watcher. AreAdded watcher.table host.now watcher.added.items) }
        ensures lines { IfOk result (λ watcher. watcher.lines.items ≡ []) }
    {
        let table = SourceTable::new(alloc, host.config().tenants().len())?;
        let added = table.additions(alloc, host)?;
        Ok(Watcher {
            table,
            added,
            lines: Vec::new(alloc),
            binds: DirectBinds::new(alloc),
            plant: PlantLines::new(alloc),
        })
    }

    // Adds what the instant of a line adds, and the line's number, if it gave one.
    fn add_instant(&mut self, line: &Answered<'_>) -> Result<(), AllocError>
        ensures table { OnOk result (self.new.table ≡ table_behind line.now.events.items self.old.table self.old.added.items) }
        ensures lines { OnOk result (self.new.lines.items ≡ self.old.lines.items ++ number_if (is_instant line.now.events.items) line.now.number) }
    {
        if !line.is_instant() {
            return Ok(());
        }
        self.table.add(self.added.as_slice());
        self.lines.push(line.number)?;
        Ok(())
    }
}

impl Listener for Watcher {
    ghost use Rattle.rig_retests.specs.inner.Watching.{IsWatching};

    ghost heard = { λ w setting texts. IsWatching setting w.table w.added.items w.lines.items texts };

    fn hear(
        &mut self,
        alloc: Global,
        host: &mut Host,
        line: Answered<'_>,
    ) -> Result<(), AllocError> {
        self.add_instant(&line)?;
        self.added = self.table.additions(alloc, host)?;
        let tick = self.lines.len() as u64;
        add_binds(&mut self.binds, host, &line, tick)?;
        add_programs(&mut self.plant, host, line.events.as_slice(), tick)
    }
}

// Adds the binds that existed just before the instant of a line, if it gave one, the last of this many ticks.
fn add_binds(
    binds: &mut DirectBinds,
    host: &Host,
    line: &Answered<'_>,
    ticks: u64,
) -> Result<(), AllocError> {
    if line.is_instant() {
        binds.add_instant(host, ticks.saturating_sub(1))?;
    }
    Ok(())
}

// Adds the lines of the programs of a tenant whose command before this tick was `load` or `replace`, answered or refused: those of its program,
// and of the one that waits.
fn add_programs(
    lines: &mut PlantLines,
    host: &Host,
    events: &[Event],
    tick: u64,
) -> Result<(), AllocError> {
    let Some(Event::Own(tenant, Command::Load(_) | Command::Replace(_))) = events.first() else {
        return Ok(());
    };
    let tenant = *tenant;
    if tenant >= host.config().tenants().len() {
        return Ok(());
    }
    if let Some(program) = host.program(tenant) {
        lines.add_program(tenant, program.program(), tick)?;
    }
    if let Some(program) = host.waiting_program(tenant) {
        lines.add_program(tenant, program.program(), tick)?;
    }
    Ok(())
}
