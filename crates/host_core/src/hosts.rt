//! The host of a rig: all its tenants, on one clock.

ghost use Rattle.std.specs.Prelude.{◌≡◌, ◌≢◌, ◌<◌, ◌≤◌, ◌+◌, ◌-◌, ◌^◌, ◌↔◌, ◌||◌, ◌⊎◌, length, map, is_some, option_map, if◌then◌else◌, IsOk, IsErr, IsTrue, IsSome, IfOk, IfSome, OnOk, OnErr, OnSome, Ok, Err, None, true, false};
ghost use Rattle.std.specs.List.{All};
ghost use Rattle.instant_engine.specs.cited.Tables.{IsTaskTable};
ghost use Rattle.instant_engine.specs.Tenants.{ArePlaced, most_of, released_from, tenant_at};
ghost use Rattle.instant_engine.specs.cited.Tenants.{is_active_among};
ghost use Rattle.instant_engine.specs.cited.Halves.{IsReady};
ghost use Rattle.rig_model.specs.HostState.{row_at, is_awaited};
ghost use Rattle.rig_model.specs.Base.{Setting, new_base};
ghost use Rattle.host_core.specs.HostStanding.{ForEachState, IsOwn, Stands, TakesCompletions, TakesEvent, new_host, awaited_in, line_of, outstanding_count, outstanding_from, outstanding_jobs, outstanding_of};
ghost use Rattle.rig_model.specs.LineValues.{value_of_line, writer_of};
ghost use Rattle.rig_model.specs.Tenancies.{roster_of};
ghost use Rattle.rig_model.specs.Views.{after_command};
ghost use Rattle.rig_model.specs.declared.events.Event.{Event};
ghost use Rattle.host_core.specs.declared.hosts.Counted.{Counted};
ghost use Rattle.host_core.specs.declared.hosts.TickFault.{TickFault};
ghost use Rattle.rig_model.specs.grants.Grants.{bind_at};
ghost use Rattle.instant_engine.specs.job_table.Finished.{has_result};
ghost use Rattle.instant_engine.specs.job_table.cited.Finished.{is_entered};
ghost use Rattle.rig_model.specs.declared.jobs.JobId.{JobId};
ghost use Rattle.host_core.specs.SameHosts.{IsSameHost};
ghost use Rattle.host_core.specs.ListReplies.{is_list};
ghost use Rattle.host_core.specs.Questions.{LeavesRow, is_question, reply_of_port};
ghost use Rattle.rig_model.specs.declared.lines.commands.Command.{Command};
ghost use Rattle.rig_model.specs.declared.lines.replies.Refusal.{Refusal};
ghost use Rattle.rig_model.specs.declared.lines.replies.Reply.{Reply};
ghost use Rattle.instant_engine.specs.state.Memory.{takes_memory};
ghost use Rattle.instant_engine.specs.state.Standing.{IsKnown, Standing, at_rest};

use crate::instant_logs::InstantLog;
use crate::new_tenants::{new_tenant, places};
use crate::same::same_tenants;
use giotto_check::Checked;
use giotto_tasks::names::Name;
use instant_engine::instants::{advance, instant_with, ready};
use instant_engine::{Done, Finished, Job, JobId, Jobs, run_job};
use rig_model::config::{Config, TenantId};
use rig_model::grants::granted::Granted;
use rig_model::lines::commands::Command;
use rig_model::lines::ports::PortName;
use rig_model::lines::replies::{Refusal, Reply};
use std::alloc::{AllocError, Global};
use std::marker::Model;
use tenant_programs::prepared::{Prepared, prepare};
use tenant_state::tenants::Tenant;
use thiserror::Error;

/// Why an instant is refused.
#[derive(Clone, Copy, Debug, PartialEq, Eq, Error)]
pub enum TickFault {
    /// The frame doesn't have one value for each line.
    #[error("the frame has not one value for each line")]
    BadFrame,
    /// The number of the next instant would be `u64::MAX`.
    #[error("the clock has ended: there is no number for another instant")]
    ClockEnded,
    /// Out of memory.
    #[error("no memory for the jobs of the instant")]
    Memory,
}

impl From<AllocError> for TickFault {
    ghost use Rattle.std.specs.Prelude.{◌≡◌};
    ghost use Rattle.host_core.specs.declared.hosts.TickFault.TheVariants.{Memory};

    ghost from_gives = { λ _ fault. fault ≡ Memory };

    fn from(_error: AllocError) -> TickFault {
        TickFault::Memory
    }
}

/// Whether a completion counted.
#[derive(Clone, Copy, Debug, PartialEq, Eq)]
pub enum Counted {
    /// Its job was awaited, and has its result now.
    Counted,
    /// It is not awaited, and nothing has changed: its task has ended or has a result, or the job is another host's.
    Late,
}

/// All tenants of a rig and its clock.
#[derive(Drop)]
pub struct Host {
    alloc: Global,
    config: Config,
    tenants: Vec<Tenant>,
    /// Space for what is granted through each bind at an instant, so that no instant allocates it.
    granted: Vec<Granted>,
    finished: Finished,
    clock: u64,
}

impl Model for Host {
    ghost use Rattle.std.specs.Prelude.{map};
    ghost use Rattle.std.specs.Coded.{codes};
    ghost use Rattle.rig_model.specs.text.cited.ProgramCodes.{program_code};
    ghost use Rattle.host_core.specs.HostStanding.{HostStanding};
    ghost use Rattle.host_core.specs.inner.HostStanding.{IsHost};
    ghost use Rattle.instant_engine.specs.state.Standing.{at_rest};

    ghost Value = { HostStanding };

    ghost coded = { Prim.hlevel (codes, program_code) };

    ghost view = { λ h. record { config = h.config; tenants = map at_rest h.tenants.items; entries = h.finished.entries; clock = h.clock } };

    ghost invariant = { λ h. IsHost h.config h.clock h.tenants.items h.finished.entries h.granted.items };
}

impl Host {
    /// A new host of this configuration. No tenant has a program, and the first instant has this number.
    ///
    /// # Errors
    /// Out of memory.
    pub fn new(alloc: Global, config: &Config, first_tick: u64) -> Result<Host, AllocError>
        ensures host { IfOk result (λ host. host ≡ new_host config.now first_tick) }
        ensures base { IfOk result (λ host. (setting : Setting) → setting.config ≡ config.now → Stands setting host (new_base config.now first_tick)) }
    {
        let copy = config.copy(alloc)?;
        let granted = places(alloc, config)?;
        let mut tenants = Vec::new(alloc);
        for place in 0..config.tenants().len() {
            let tenant = new_tenant(alloc, config, place, first_tick)?;
            tenants.push(tenant)?;
        }
        Ok(Host {
            alloc,
            config: copy,
            tenants,
            granted,
            finished: Finished::new(alloc),
            clock: first_tick,
        })
    }

    /// An equal host. Programs and the bodies of tasks are shared, not copied.
    ///
    /// # Errors
    /// Out of memory, or a share is refused.
    pub fn copy(&self) -> Result<Host, AllocError>
        ensures { IfOk result (λ host. host ≡ self.now) }
    {
        let config = self.config.copy(self.alloc)?;
        let granted = places(self.alloc, &config)?;
        let finished = self.finished.copy()?;
        Ok(Host {
            alloc: self.alloc,
            config,
            tenants: self.tenants.clone()?,
            granted,
            finished,
            clock: self.clock,
        })
    }

    /// Whether both hosts are the same: the number of lines, the tenants' names and budgets, their rows with the last records, and the
    /// counted jobs of active tasks, whatever each has ready for the next instant. Takes no memory.
    #[tactic(auto, using(crate::proofs::SameHosts::same_rested))]
    pub fn is_same(&self, other: &Host) -> bool
        ensures { IsTrue result ↔ IsSameHost self.now other.now }
    {
        if self.config.lines() != other.config.lines() {
            return false;
        }
        if self.clock != other.clock {
            return false;
        }
        if !same_tenants(self.tenants.as_slice(), other.tenants.as_slice()) {
            return false;
        }
        self.finished.has_same_results(&other.finished)
    }

    /// Carries out a tenant's command, as `carry_out` does. Reads the command's text first, if it has one.
    pub fn command(&mut self, tenant: TenantId, command: Command) -> Reply
        requires { tenant < length self.old.config.tenants }
        ensures memory { result ≡ Reply.Refused Refusal.Memory → self.new ≡ self.old }
        ensures room { takes_memory (tenant_at self.old.tenants tenant).tenancy.owner command (tenant_at self.old.tenants tenant).row ≡ false → result ≢ Reply.Refused Refusal.Memory }
        ensures config { self.new.config ≡ self.old.config }
        ensures listed { IsTrue (is_list result) → self.new ≡ self.old }
        ensures asked { IsTrue (is_question command) → self.new ≡ self.old }
        ensures unchanged { LeavesRow (tenant_at self.old.tenants tenant) command → self.new ≡ self.old }
        ensures outstanding { outstanding_count self.new ≤ outstanding_count self.old }
        ensures reply { result ≢ Reply.Refused Refusal.Memory
            → ForEachState self.old (λ setting state. result ≡ (after_command setting tenant command (row_at state tenant)).reply) }
        ensures step { result ≢ Reply.Refused Refusal.Memory → TakesEvent (Event.Own tenant command) self.old self.new }
    {
        let prepared = prepare(self.alloc, command);
        let mut left = None;
        self.carry_out(tenant, prepared, &mut left)
    }

    /// Carries out a tenant's prepared command. Leaves in `left` the program that it replaces, or the new one if that is refused.
    ///
    /// A refusal changes nothing, `Refusal::Memory` included. No command changes another tenant, or makes more jobs outstanding. A
    /// command that leaves its tenant's row unchanged changes nothing. Nor does a question, or a command that is answered with a
    /// list.
    ///
    /// Only these can run out of memory: `load`, `replace`, `show all` of a program with a port, `trace` if there is a record, `offer`
    /// and `bind` if the row may be made, and `rows` if there is a row.
    pub fn carry_out(
        &mut self,
        tenant: TenantId,
        prepared: Prepared,
        left: &mut Option<Checked>,
    ) -> Reply
        requires { tenant < length self.old.config.tenants }
        ensures memory { result ≡ Reply.Refused Refusal.Memory → self.new ≡ self.old }
        ensures room { takes_memory (tenant_at self.old.tenants tenant).tenancy.owner prepared (tenant_at self.old.tenants tenant).row ≡ false → result ≢ Reply.Refused Refusal.Memory }
        ensures config { self.new.config ≡ self.old.config }
        ensures listed { IsTrue (is_list result) → self.new ≡ self.old }
        ensures asked { IsTrue (is_question prepared) → self.new ≡ self.old }
        ensures unchanged { LeavesRow (tenant_at self.old.tenants tenant) prepared → self.new ≡ self.old }
        ensures outstanding { outstanding_count self.new ≤ outstanding_count self.old }
        ensures reply { result ≢ Reply.Refused Refusal.Memory
            → ForEachState self.old (λ setting state. result ≡ (after_command setting tenant prepared (row_at state tenant)).reply) }
        ensures step { result ≢ Reply.Refused Refusal.Memory → TakesEvent (Event.Own tenant prepared) self.old self.new }
    {
        let tenant = &mut self.tenants[tenant];
        let reply = tenant.carry_out(prepared, left);
        tenant.known();
        tenant.leave(&mut self.finished);
        reply
    }

    /// Returns the value of a port of a tenant's program, as `show port` shows it. If `port` names a task, it is an input or a
    /// state of that task, else a sensor, an actuator or an output. Takes no memory.
    ///
    /// # Errors
    /// `NotLoaded` if the tenant has no program, else `NoPort` if the program has no such port.
    #[inline(always)]
    pub fn port_value(&self, tenant: TenantId, port: &PortName) -> Result<i64, Refusal>
        requires { tenant < length self.now.config.tenants }
        ensures room { result ≢ Err Refusal.Memory }
        ensures reply { ForEachState self.now (λ setting state. reply_of_port port.now result ≡ (after_command setting tenant (Command.ShowPort port.now) (row_at state tenant)).reply) }
        ensures step { TakesEvent (Event.Own tenant (Command.ShowPort port.now)) self.now self.now }
    {
        self.tenants[tenant].port_value(port)
    }

    /// Runs an instant of all tenants: the first half of each, then all granted values at once, then the second half of each.
    /// `frame` has the input value of each line. Returns the jobs of the released tasks, tenant by tenant in the order of the
    /// roster. No other jobs become outstanding.
    ///
    /// # Errors
    /// `BadFrame` if the frame doesn't have one value for each line, else `ClockEnded` if the instant's number would be `u64::MAX`,
    /// else `Memory`, but never if the instant can release no task. Nothing has changed then.
    pub fn tick(&mut self, frame: &[i64]) -> Result<Jobs, TickFault>
        ensures step { OnOk result (TakesEvent (Event.Tick frame.now) self.old self.new) }
        ensures jobs { IfOk result (λ jobs. jobs.jobs ≡ released_from self.old.clock 0 self.new.tenants) }
        ensures refused { OnErr result (self.new ≡ self.old) }
        ensures bad_frame { result ≡ Err TickFault.BadFrame ↔ length frame.now ≢ self.old.config.lines }
        ensures clock_ended { result ≡ Err TickFault.ClockEnded ↔ ((length frame.now ≡ self.old.config.lines) × (self.old.clock ≡ 2 ^ 64 - 1)) }
        ensures room { most_of self.old.tenants ≡ 0 → result ≢ Err TickFault.Memory }
        ensures known { OnOk result (All (λ (s : Standing). IsKnown s.tenancy s.row) self.new.tenants) }
        ensures few { IfOk result (λ jobs. length jobs.jobs ≤ most_of self.old.tenants) }
        ensures outstanding { IfOk result (λ jobs. outstanding_count self.new ≤ outstanding_count self.old + length jobs.jobs) }
    {
        self.tick_logged(frame, &mut ())
    }

    /// Runs an instant of all tenants, as `tick` does. It is logged just before it runs, with space for the completions of all jobs that
    /// can be outstanding after it.
    ///
    /// # Errors
    /// As `tick`, or the log is out of memory: then `Memory`. No tenant has changed then.
    pub fn tick_logged<L: InstantLog>(
        &mut self,
        frame: &[i64],
        log: &mut L,
    ) -> Result<Jobs, TickFault>
        ensures step { OnOk result (TakesEvent (Event.Tick frame.now) self.old self.new) }
        ensures jobs { IfOk result (λ jobs. jobs.jobs ≡ released_from self.old.clock 0 self.new.tenants) }
        ensures refused { OnErr result (self.new ≡ self.old) }
        ensures bad_frame { result ≡ Err TickFault.BadFrame ↔ length frame.now ≢ self.old.config.lines }
        ensures clock_ended { result ≡ Err TickFault.ClockEnded ↔ ((length frame.now ≡ self.old.config.lines) × (self.old.clock ≡ 2 ^ 64 - 1)) }
        ensures room { most_of self.old.tenants ≡ 0 → result ≡ Err TickFault.Memory → L.was_refused log.old log.new }
        ensures known { OnOk result (All (λ (s : Standing). IsKnown s.tenancy s.row) self.new.tenants) }
        ensures few { IfOk result (λ jobs. length jobs.jobs ≤ most_of self.old.tenants) }
        ensures outstanding { IfOk result (λ jobs. outstanding_count self.new ≤ outstanding_count self.old + length jobs.jobs) }
        ensures logged { OnOk result (L.has_added log.old log.new frame.now (most_of self.old.tenants + outstanding_count self.old)) }
        ensures unlogged { OnErr result ((log.new ≡ log.old) ⊎ (L.was_refused log.old log.new)) }
    {
        self.check(frame)?;
        let outstanding = self.outstanding();
        let most = all_ready(self.tenants.as_mut_slice(), &mut self.finished).ok_or(AllocError)?;
        let mut jobs = Jobs::with_room(self.alloc, most)?;
        let completions = most.checked_add(outstanding).ok_or(AllocError)?;
        log.add_instant(frame, completions)?;
        let tenants = self.tenants.as_mut_slice();
        let granted = self.granted.as_mut_slice();
        instant_with(tenants, frame, granted, &mut self.finished, &mut jobs);
        self.clock += 1;
        Ok(jobs)
    }

    /// Runs an instant of all tenants, as `tick` does, without returning its jobs.
    ///
    /// # Errors
    /// As `tick`. Nothing has changed then.
    pub fn instant(&mut self, frame: &[i64]) -> Result<(), TickFault>
        ensures step { OnOk result (TakesEvent (Event.Tick frame.now) self.old self.new) }
        ensures refused { OnErr result (self.new ≡ self.old) }
        ensures bad_frame { result ≡ Err TickFault.BadFrame ↔ length frame.now ≢ self.old.config.lines }
        ensures clock_ended { result ≡ Err TickFault.ClockEnded ↔ ((length frame.now ≡ self.old.config.lines) × (self.old.clock ≡ 2 ^ 64 - 1)) }
        ensures room { most_of self.old.tenants ≡ 0 → result ≢ Err TickFault.Memory }
    {
        self.check(frame)?;
        let _most = all_ready(self.tenants.as_mut_slice(), &mut self.finished).ok_or(AllocError)?;
        let tenants = self.tenants.as_mut_slice();
        let granted = self.granted.as_mut_slice();
        advance(tenants, frame, granted, &mut self.finished);
        self.clock += 1;
        Ok(())
    }

    // Whether an instant with this frame may come.
    fn check(&self, frame: &[i64]) -> Result<(), TickFault>
        ensures bad_frame { result ≡ Err TickFault.BadFrame ↔ length frame.now ≢ self.now.config.lines }
        ensures clock_ended { result ≡ Err TickFault.ClockEnded ↔ ((length frame.now ≡ self.now.config.lines) × (self.now.clock ≡ 2 ^ 64 - 1)) }
        ensures room { result ≢ Err TickFault.Memory }
        ensures next { OnOk result (self.now.clock < 2 ^ 64 - 1) }
    {
        if frame.len() != self.config.lines() {
            return Err(TickFault::BadFrame);
        }
        if self.clock == u64::MAX {
            return Err(TickFault::ClockEnded);
        }
        Ok(())
    }

    /// Takes a completion. It counts if its job is awaited, with this name and body, and the inputs and states of the release. A late
    /// completion changes nothing. Takes no memory.
    pub fn done(&mut self, done: Done) -> Counted
        ensures counted { result ≡ Counted.Counted ↔ awaited_in self.old done.id ≡ Some done }
        ensures late { result ≡ Counted.Late → self.new ≡ self.old }
        ensures answer { IsOwn self.old done
            → ForEachState self.old (λ setting state. result ≡ (if is_awaited state done.id then Counted.Counted else Counted.Late)) }
        ensures step { IsOwn self.old done → TakesEvent (Event.Done done.id) self.old self.new }
        ensures left { result ≡ Counted.Counted → outstanding_count self.old ≡ outstanding_count self.new + 1 }
    {
        let place = done.id().tenant;
        if place >= self.tenants.len() {
            return Counted::Late;
        }
        if !self.tenants[place].awaits(&done) || self.finished.has(&done) {
            return Counted::Late;
        }
        self.finished.add(done);
        Counted::Counted
    }

    /// Computes and counts all outstanding jobs, in the order of the roster. Returns how many there were. Takes no memory.
    pub fn complete_all(&mut self) -> u128
        ensures number { result ≡ outstanding_count self.old }
        ensures step { TakesCompletions (outstanding_jobs self.old) self.old self.new }
    {
        complete_each(self.tenants.as_slice(), &mut self.finished)
    }

    /// Computes and counts one tenant's outstanding jobs. Returns how many there were. Takes no memory.
    pub fn complete_tenant(&mut self, tenant: TenantId) -> usize
        requires { tenant < length self.old.config.tenants }
        ensures number { result ≡ length (outstanding_of self.old tenant) }
        ensures step { TakesCompletions (outstanding_of self.old tenant) self.old self.new }
    {
        self.tenants[tenant].complete_all(&mut self.finished)
    }

    /// Returns the job of this name if its completion is awaited, else `None`.
    ///
    /// # Errors
    /// A share of the task's body is refused. Never fails if the completion isn't awaited.
    pub fn job(&self, id: &JobId) -> Result<Option<Job>, AllocError>
        ensures job { IfOk result (λ job. job ≡ awaited_in self.now id.now) }
        ensures awaited { IfOk result (λ job. ForEachState self.now (λ setting state. is_some job ≡ is_awaited state id.now)) }
        ensures never_refused { awaited_in self.now id.now ≡ None → IsOk result }
    {
        if id.tenant >= self.tenants.len() {
            return Ok(None);
        }
        self.tenants[id.tenant].job(id, &self.finished)
    }

    /// The rig's configuration.
    pub fn config(&self) -> &Config
        ensures { result.now ≡ self.now.config }
    {
        &self.config
    }

    /// The number of the next instant.
    pub fn clock(&self) -> u64
        ensures { result ≡ self.now.clock }
    {
        self.clock
    }

    /// The value of a line of the rig: that of the actuator with this line in the program of the tenant that may drive it. It is 0
    /// if no tenant may drive it, or its program has no such actuator. Takes no memory.
    pub fn line_value(&self, line: usize) -> i64
        ensures value { result ≡ line_of self.now line }
        ensures rows { ForEachState self.now (λ setting state. result ≡ value_of_line setting.config (row_at state) line) }
    {
        let Some(tenant) = writer(&self.config, line) else {
            return 0;
        };
        self.tenants[tenant].line(line).unwrap_or(0)
    }

    /// The program of the tenant at this place, if it has one.
    pub fn program(&self, tenant: TenantId) -> Option<&Checked>
        requires { tenant < length self.now.config.tenants }
        ensures program { option_map (λ p. p.now) result ≡ (tenant_at self.now.tenants tenant).row.program }
        ensures rows { ForEachState self.now (λ setting state. option_map (λ p. p.now) result ≡ (row_at state tenant).program) }
    {
        self.tenants[tenant].program()
    }

    /// The program that replaces the tenant's program when its mode's period ends, if one waits.
    pub fn waiting_program(&self, tenant: TenantId) -> Option<&Checked>
        requires { tenant < length self.now.config.tenants }
        ensures program { option_map (λ p. p.now) result ≡ (tenant_at self.now.tenants tenant).row.waiting }
        ensures rows { ForEachState self.now (λ setting state. option_map (λ p. p.now) result ≡ (row_at state tenant).waiting) }
    {
        self.tenants[tenant].waiting_program()
    }

    /// How many binds the tenant at this place has. Takes no memory.
    pub fn bind_count(&self, tenant: TenantId) -> usize
        requires { tenant < length self.now.config.tenants }
        ensures count { result ≡ length (tenant_at self.now.tenants tenant).row.binds }
        ensures rows { ForEachState self.now (λ setting state. result ≡ length (row_at state tenant).binds) }
    {
        self.tenants[tenant].bind_count()
    }

    /// Returns bind `i`, counted from 0, of the tenant at this place: its sensor, the place of the tenant that it is bound to, and that
    /// tenant's actuator. `None` if the tenant has fewer binds. Takes no memory.
    pub fn bind_at(&self, tenant: TenantId, i: usize) -> Option<(&Name, TenantId, &Name)>
        requires { tenant < length self.now.config.tenants }
        ensures bind { option_map (λ b. (b.0.now, b.1, b.2.now)) result ≡ bind_at (roster_of self.now.config) (tenant_at self.now.tenants tenant).row.binds i }
        ensures found { IsSome result ↔ (i < length (tenant_at self.now.tenants tenant).row.binds) }
        ensures rows { ForEachState self.now (λ setting state. option_map (λ b. (b.0.now, b.1, b.2.now)) result ≡ bind_at (roster_of setting.config) (row_at state tenant).binds i) }
    {
        self.tenants[tenant].bind_at(i)
    }

    /// The names of the outstanding jobs, tenant by tenant in the order of the roster.
    ///
    /// # Errors
    /// Out of memory, only if a job is outstanding.
    pub fn outstanding_jobs(&self) -> Result<Vec<JobId>, AllocError>
        ensures names { IfOk result (λ names. names.items ≡ outstanding_jobs self.now) }
        ensures memory { IsErr result → 0 < outstanding_count self.now }
    {
        let mut names = Vec::new(self.alloc);
        for tenant in &self.tenants {
            tenant.add_outstanding(&self.finished, &mut names)?;
        }
        Ok(names)
    }

    /// The names of one tenant's outstanding jobs.
    ///
    /// # Errors
    /// Out of memory, only if a job of this tenant is outstanding.
    pub fn outstanding_jobs_of(&self, tenant: TenantId) -> Result<Vec<JobId>, AllocError>
        requires { tenant < length self.now.config.tenants }
        ensures names { IfOk result (λ names. names.items ≡ outstanding_of self.now tenant) }
        ensures memory { IsErr result → 0 < length (outstanding_of self.now tenant) }
    {
        let mut names = Vec::new(self.alloc);
        self.tenants[tenant].add_outstanding(&self.finished, &mut names)?;
        Ok(names)
    }

    /// How many jobs are outstanding: their tasks are active, and not completed. Takes no memory, and the same time for any number
    /// of jobs.
    pub fn outstanding(&self) -> usize
        ensures { result ≡ outstanding_count self.now }
    {
        // The table has an entry for each active task, and no other.
        self.finished.known();
        self.finished.entry_count() - self.finished.len()
    }
}

/// Computes the job of this name and takes its result, if its completion is awaited. Else the completion is late and changes nothing.
///
/// # Errors
/// A share of the task's body is refused. Nothing has changed then. Never fails if the completion isn't awaited.
pub fn complete(host: &mut Host, id: &JobId) -> Result<Counted, AllocError>
    ensures counted { IfOk result (λ c. c ≡ Counted.Counted ↔ awaited_in host.old id.now ≢ None) }
    ensures step { OnOk result (TakesEvent (Event.Done id.now) host.old host.new) }
    ensures left { result ≡ Ok Counted.Counted → outstanding_count host.old ≡ outstanding_count host.new + 1 }
    ensures memory { OnErr result (host.new ≡ host.old) }
    ensures never_refused { awaited_in host.old id.now ≡ None → IsOk result }
{
    let Some(job) = host.job(id)? else {
        return Ok(Counted::Late);
    };
    let counted = host.done(run_job(job));
    Ok(counted)
}

// The place of the tenant that may drive this line, if one may.
fn writer(config: &Config, line: usize) -> Option<TenantId>
    ensures { result ≡ writer_of config.now line }
{
    config
        .tenants()
        .iter()
        .position(|tenant| tenant.budgets.writes.as_slice().contains(&line))
}

// Makes the tenants ready for the next instant, and reserves space in the table for all that they can release. Returns how many
// jobs that is at most. `None` if this fails, or the number is too large for its type. Takes no memory if no job can be released.
fn all_ready(tenants: &mut [Tenant], finished: &mut Finished) -> Option<usize>
    ensures rest { map at_rest tenants.new ≡ map at_rest tenants.old }
    ensures ready { OnSome result (All IsReady tenants.new) }
    ensures most { IfSome result (λ n. n ≡ most_of tenants.new) }
    ensures entries { finished.new.entries ≡ finished.old.entries }
    ensures room { OnSome result (most_of tenants.new ≤ finished.new.room) }
    ensures never_refused { most_of tenants.old ≡ 0 → IsSome result }
{
    let most = ready(tenants)?;
    let entries = finished.entry_count().checked_add(most)?;
    finished.room(entries).ok()?;
    Some(most)
}

// Computes and counts each tenant's outstanding jobs. Returns how many there were.
fn complete_each(tenants: &[Tenant], finished: &mut Finished) -> u128
    requires placed { ArePlaced tenants.now }
    requires table { IsTaskTable tenants.now finished.old.entries }
    ensures number { result ≡ length (outstanding_from finished.old.entries 0 tenants.now) }
    ensures table { IsTaskTable tenants.now finished.new.entries }
    ensures results { (j : JobId) → has_result finished.new.entries j ≡ (has_result finished.old.entries j || is_active_among tenants.now j) }
{
    let mut number: u128 = 0;
    for tenant in tenants {
        number += tenant.complete_all(finished) as u128;
    }
    number
}
