//! Copies of a tenant. Programs and task bodies are shared, not copied.

ghost use Rattle.std.specs.Prelude.{◌≡◌, IfOk, map, option_map};
ghost use Rattle.std.specs.Arc.{arc_value};
ghost use Rattle.tenant_state.specs.inner.Copies.{AreCopied, IsCopied};

use crate::tenants::Tenant;
use crate::tenants::active_tasks::ActiveTasks;
use crate::tenants::waiting::{Beginning, Waiting};
use giotto_check::Checked;
use giotto_tasks::bodies::Body;
use rig_model::config::Budgets;
use rig_model::grants::grants::Grants;
use rig_model::trace::traces::Trace;
use std::alloc::{AllocError, Global};
use std::sync::Arc;
use tenant_slots::replacement::Carried;

impl Tenant {
    /// Makes an equal tenant. The two share the program, a waiting program, and the bodies of their tasks.
    ///
    /// # Errors
    /// Out of memory, or a share is refused.
    pub fn copy(&self) -> Result<Tenant, AllocError>
        ensures { IfOk result (λ tenant. tenant ≡ self.now) }
    {
        let alloc = self.alloc;
        let (budgets, grants) = copied_rights(alloc, &self.budgets, &self.grants)?;
        let (program, waiting) = copied_programs(alloc, &self.program, &self.waiting)?;
        let (active, trace) = copied_tasks(&self.active, &self.trace)?;
        let beginning = copied_beginning(alloc, self.values.as_slice(), self.shares.as_slice())?;
        Ok(Tenant {
            alloc,
            budgets,
            grants,
            state: self.state.copy(),
            program,
            mode: self.mode,
            mode_time: self.mode_time,
            next_due: self.next_due,
            active,
            values: beginning.values,
            shares: beginning.shares,
            waiting,
            trace,
            next_tick: self.next_tick,
        })
    }
}

impl Clone for Tenant {
    ghost is_clone = { λ tenant copy. copy ≡ tenant };

    fn clone(&self) -> Result<Tenant, AllocError> {
        self.copy()
    }
}

// Equal budgets and rows of grants.
fn copied_rights(
    alloc: Global,
    budgets: &Budgets,
    grants: &Grants,
) -> Result<(Budgets, Grants), AllocError>
    ensures { IfOk result (λ copies. copies ≡ (budgets.now, grants.now)) }
{
    let budgets = budgets.copy(alloc)?;
    Ok((budgets, grants.copy()?))
}

// Equal active tasks and records.
fn copied_tasks(active: &ActiveTasks, trace: &Trace) -> Result<(ActiveTasks, Trace), AllocError>
    ensures { IfOk result (λ copies. copies ≡ (active.now, trace.now)) }
{
    let active = active.copy()?;
    Ok((active, trace.copy()?))
}

// Shares of the program and of the waiting program, if there are any.
fn copied_programs(
    alloc: Global,
    program: &Option<Checked>,
    waiting: &Option<Waiting>,
) -> Result<(Option<Checked>, Option<Waiting>), AllocError>
    ensures program { IfOk result (λ copies. copies.0 ≡ program.now) }
    ensures waiting { IfOk result (λ copies. AreCopied waiting.now copies.1) }
{
    let program = match program {
        Some(program) => Some(program.share()?),
        None => None,
    };
    let waiting = match waiting {
        Some(waiting) => Some(waiting.copy(alloc)?),
        None => None,
    };
    Ok((program, waiting))
}

impl Waiting {
    // A share of the same program, with all that its installation needs.
    fn copy(&self, alloc: Global) -> Result<Waiting, AllocError>
        ensures { IfOk result (IsCopied self.now) }
    {
        let program = self.program.share()?;
        let Beginning { values, shares } = &self.beginning;
        let beginning = copied_beginning(alloc, values.as_slice(), shares.as_slice())?;
        Ok(Waiting {
            program,
            beginning,
            carried: copied_table(alloc, self.carried.as_slice())?,
        })
    }
}

// An equal table of the values that are carried over.
fn copied_table(alloc: Global, carried: &[Carried]) -> Result<Vec<Carried>, AllocError>
    ensures { IfOk result (λ copies. copies.items ≡ carried.now) }
{
    let mut copies = Vec::new(alloc);
    for Carried { from, to } in carried {
        copies.push(Carried {
            from: *from,
            to: *to,
        })?;
    }
    Ok(copies)
}

// Equal values, and shares of the same bodies.
fn copied_beginning(
    alloc: Global,
    values: &[i64],
    shares: &[Option<Arc<Body, Global>>],
) -> Result<Beginning, AllocError>
    ensures values { IfOk result (λ copy. copy.values.items ≡ values.now) }
    ensures shares { IfOk result (λ copy. map (option_map arc_value) copy.shares.items ≡ map (option_map arc_value) shares.now) }
{
    let mut copies = Vec::new(alloc);
    for share in shares {
        let copy = copied_share(share)?;
        copies.push(copy)?;
    }
    Ok(Beginning {
        values: Vec::from_slice(alloc, values)?,
        shares: copies,
    })
}

// A share of the same body, if there is one.
fn copied_share(share: &Option<Arc<Body, Global>>) -> Result<Option<Arc<Body, Global>>, AllocError>
    ensures { IfOk result (λ copy. option_map arc_value copy ≡ option_map arc_value share.now) }
{
    match share {
        Some(body) => Ok(Some(Arc::try_clone(body)?)),
        None => Ok(None),
    }
}
