//! A tenant: its program, and the program's state.

ghost use Rattle.std.specs.Prelude.{◌≡◌, ◌≤◌, length, option_map, IfOk};
ghost use Rattle.tenant_state.specs.Standing.{empty_standing, IsKnown};

pub mod active_tasks;
pub mod commands;
pub mod completions;
mod copies;
pub mod entries;
pub mod granted;
pub mod phase_one;
pub mod phase_two;
pub mod readers;
pub mod readiness;
pub mod releases;
mod same;
pub mod shown;
pub mod stops;
pub mod switches;
pub mod waiting;

use crate::tenants::active_tasks::ActiveTasks;
use crate::tenants::waiting::Waiting;
use giotto_check::Checked;
use giotto_tasks::bodies::Body;
use giotto_tasks::names::Name;
use giotto_tasks::values::Values;
use rig_model::config::Budgets;
use rig_model::grants::grants::Grants;
use rig_model::trace::traces::Trace;
use std::alloc::{AllocError, Global};
use std::marker::Model;
use std::sync::Arc;
use tenant_jobs::jobs::Key;

/// Why a tenant was stopped.
#[derive(Drop)]
pub enum Reason {
    /// The tenant asked for it, by a command.
    Asked,
    /// This task was due, and its computation wasn't completed.
    Overrun(Name),
}

/// What a tenant is doing.
#[derive(Drop)]
pub enum State {
    Empty,
    Loaded,
    Running,
    Stopped(Reason),
}

/// A task between its release and its deadline.
#[derive(Drop)]
pub(crate) struct Active {
    /// The place of the task in the program's text, from 0.
    pub(crate) task: usize,
    /// The number of the instant that released it.
    pub(crate) release: u64,
    /// The key of its entry in the table of active tasks.
    pub(crate) key: Key,
    /// The task's inputs and states at its release.
    pub(crate) inputs: Values,
    pub(crate) states: Values,
}

/// One tenant of a host.
#[derive(Drop)]
pub struct Tenant {
    pub(crate) alloc: Global,
    pub(crate) budgets: Budgets,
    pub(crate) grants: Grants,
    pub(crate) state: State,
    pub(crate) program: Option<Checked>,
    /// The place of the mode in the program's text, from 0.
    pub(crate) mode: usize,
    pub(crate) mode_time: u64,
    /// No task, update, switch or invocation of the mode is due before this mode time.
    pub(crate) next_due: u64,
    pub(crate) active: ActiveTasks,
    /// The value of each port, by its slot.
    pub(crate) values: Vec<i64>,
    /// For each task a share of its body, if one is available.
    pub(crate) shares: Vec<Option<Arc<Body, Global>>>,
    /// A program that replaces the running one when its mode's period ends.
    pub(crate) waiting: Option<Waiting>,
    pub(crate) trace: Trace,
    /// The number of the next instant.
    pub(crate) next_tick: u64,
}

impl Active {
    // An equal task.
    fn copy(&self) -> Active
        ensures { result ≡ self.now }
    {
        Active {
            task: self.task,
            release: self.release,
            key: self.key.copy(),
            inputs: self.inputs.copy(),
            states: self.states.copy(),
        }
    }
}

impl Clone for Active {
    ghost is_clone = { λ task copy. copy ≡ task };

    fn clone(&self) -> Result<Active, AllocError> {
        Ok(self.copy())
    }
}

impl Reason {
    /// An equal reason. Takes no memory.
    pub fn copy(&self) -> Reason
        ensures { result ≡ self.now }
    {
        match self {
            Reason::Asked => Reason::Asked,
            Reason::Overrun(task) => Reason::Overrun(task.copy()),
        }
    }
}

impl State {
    /// An equal state. Takes no memory.
    pub fn copy(&self) -> State
        ensures { result ≡ self.now }
    {
        match self {
            State::Empty => State::Empty,
            State::Loaded => State::Loaded,
            State::Running => State::Running,
            State::Stopped(reason) => State::Stopped(reason.copy()),
        }
    }
}

impl Model for Tenant {
    ghost use Rattle.std.specs.Prelude.{map};
    ghost use Rattle.std.specs.Arc.{arc_value};
    ghost use Rattle.std.specs.Option.{option_map};
    ghost use Rattle.tenant_state.specs.Standing.{Standing};
    ghost use Rattle.tenant_state.specs.Tenants.{standing_of, state_of};
    ghost use Rattle.tenant_state.specs.inner.Tenants.{FitsWaiting, IsTenant, IsTraceOf};
    ghost use Rattle.std.specs.Coded.{codes};
    ghost use Rattle.rig_model.specs.text.cited.ProgramCodes.{program_code};

    ghost Value = { Standing };

    ghost coded = { Prim.hlevel (codes, program_code) };

    ghost view = { λ t. standing_of t.budgets t.grants t.state t.program t.mode t.mode_time t.active.items t.active.ended t.active.room t.values.items (map (option_map arc_value) t.shares.items) t.waiting t.trace t.next_tick };

    ghost invariant = { λ t. IsTenant (state_of t.state) t.program t.mode t.mode_time t.next_due t.active.items t.active.ended t.values.items (map (option_map arc_value) t.shares.items) t.next_tick × IsTraceOf t.budgets.trace t.trace × FitsWaiting t.program t.waiting };
}

impl Tenant {
    /// Makes a tenant with these budgets and these rows of grants, without a program. `first_tick` is the number of its first
    /// instant. The tenant has capacity for as many trace records as its budget says.
    ///
    /// # Errors
    /// Out of memory.
    pub fn new(
        alloc: Global,
        budgets: Budgets,
        grants: Grants,
        first_tick: u64,
    ) -> Result<Tenant, AllocError>
        ensures { IfOk result (λ tenant. tenant ≡ empty_standing budgets grants first_tick) }
    {
        let trace = Trace::new(alloc, budgets.trace)?;
        Ok(Tenant {
            alloc,
            budgets,
            grants,
            state: State::Empty,
            program: None,
            mode: 0,
            mode_time: 0,
            next_due: 0,
            active: ActiveTasks::new(alloc),
            values: Vec::new(alloc),
            shares: Vec::new(alloc),
            waiting: None,
            trace,
            next_tick: first_tick,
        })
    }

    /// The program, if the tenant has one.
    pub fn program(&self) -> Option<&Checked>
        ensures { option_map (λ p. p.now) result ≡ self.now.row.program }
    {
        self.program.as_ref()
    }

    /// The program that replaces it when its mode's period ends, if one waits.
    pub fn waiting_program(&self) -> Option<&Checked>
        ensures { option_map (λ p. p.now) result ≡ self.now.row.waiting }
    {
        match &self.waiting {
            Some(waiting) => Some(&waiting.program),
            None => None,
        }
    }

    /// The number of the tenant's next instant. Each active task was released before it, and the tenant has no more binds than it
    /// may have.
    pub fn next_tick(&self) -> u64
        ensures number { result ≡ self.now.row.next_tick }
        ensures known { IsKnown self.now.tenancy self.now.row }
        ensures binds { length self.now.row.binds ≤ self.now.tenancy.owner.most_binds }
    {
        self.known();
        self.next_tick
    }

    /// Makes the invariants of the type available to a proof. Does nothing at run time.
    #[inline(always)]
    pub fn known(&self)
        ensures row { IsKnown self.now.tenancy self.now.row }
        ensures binds { length self.now.row.binds ≤ self.now.tenancy.owner.most_binds }
    {
        self.grants.known();
    }
}
