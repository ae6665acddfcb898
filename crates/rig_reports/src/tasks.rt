//! What a line of a script does to the jobs of a task.

use giotto_check::Checked;
use giotto_tasks::names::Name;
use host_core::hosts::Host;
use rig_model::config::TenantId;
use rig_model::lines::replies::Status;
use std::alloc::{AllocError, Global};
use tenant_dumps::views::View;
use tenant_jobs::jobs::{Job, JobId};
use tenant_timelines::jobs::{End, JobBar, Outcome, PortTexts, TaskLane};
use tenant_timelines::places::Place;

/// A line of the script, for one tenant.
#[derive(Drop)]
pub struct Moment<'a> {
    pub host: &'a Host,
    pub tenant: TenantId,
    pub view: &'a View,
    pub place: Place,
    /// The number of the instant, if the line gave one.
    pub instant: Option<u64>,
    /// Whether a waiting program was installed at it.
    pub is_installed: bool,
}

/// Notes what becomes of a task's open job, and the job that is released.
///
/// # Errors
/// Out of memory.
pub fn see_task(
    alloc: Global,
    lane: &mut TaskLane,
    moment: &Moment<'_>,
    program: &Checked,
) -> Result<(), AllocError> {
    see_open(alloc, lane, moment)?;
    let Some(tick) = moment.instant else {
        return Ok(());
    };
    let Status::Running(mode, _) = &moment.view.status else {
        return Ok(());
    };
    match period_of(program, mode, &lane.name) {
        Some(period) => see_release(alloc, lane, moment, tick, period),
        None => Ok(()),
    }
}

// Notes what becomes of the open job.
fn see_open(alloc: Global, lane: &mut TaskLane, moment: &Moment<'_>) -> Result<(), AllocError> {
    let Some(mut job) = lane.open.take() else {
        return Ok(());
    };
    job.end = end_of(alloc, &lane.name, &job, moment)?;
    if job.end.is_some() {
        lane.jobs.push(job)?;
        return Ok(());
    }
    if job.worked.is_none() && !is_awaited(&lane.name, job.tick, moment)? {
        job.worked = Some(moment.place);
    }
    lane.open = Some(job);
    Ok(())
}

// How a job of this task ends here, if it does.
fn end_of(
    alloc: Global,
    task: &Name,
    job: &JobBar,
    moment: &Moment<'_>,
) -> Result<Option<End>, AllocError> {
    let outcome = match &moment.view.status {
        Status::Running(_, _) => {
            if !is_due(job, moment) {
                return Ok(None);
            }
            Outcome::Written(written_by(alloc, job, moment)?)
        }
        Status::StoppedOverrun(late) if *late == *task => Outcome::Missed,
        _ => Outcome::Dropped,
    };
    Ok(Some(End {
        place: moment.place,
        outcome,
    }))
}

// What a job wrote. Empty if another program was installed after the job: nothing shows its outputs then.
fn written_by(alloc: Global, job: &JobBar, moment: &Moment<'_>) -> Result<PortTexts, AllocError> {
    if moment.is_installed {
        return Ok(PortTexts::new(alloc));
    }
    outputs_of(alloc, moment.view, job.outputs.as_slice())
}

// Whether this is the job's deadline.
fn is_due(job: &JobBar, moment: &Moment<'_>) -> bool {
    match moment.instant {
        Some(tick) => job.deadline <= tick,
        None => false,
    }
}

// Whether the completion of the task's job that was released at this tick is awaited.
fn is_awaited(task: &Name, tick: u64, moment: &Moment<'_>) -> Result<bool, AllocError> {
    let host = moment.host;
    let id = job_id(moment.tenant, tick, task);
    let job = host.job(&id)?;
    Ok(job.is_some())
}

// Notes the job that this instant releases, if any.
fn see_release(
    alloc: Global,
    lane: &mut TaskLane,
    moment: &Moment<'_>,
    tick: u64,
    period: u64,
) -> Result<(), AllocError> {
    let host = moment.host;
    let id = job_id(moment.tenant, tick, &lane.name);
    let Some(job) = host.job(&id)? else {
        return Ok(());
    };
    let bar = bar_of(alloc, &lane.name, &job, moment.view, tick, period)?;
    lane.open = Some(bar);
    Ok(())
}

// The id of the task's job that was released at this tick.
fn job_id(tenant: TenantId, tick: u64, task: &Name) -> JobId {
    JobId {
        tenant,
        tick,
        task: task.copy(),
    }
}

// A job that was released at this tick.
fn bar_of(
    alloc: Global,
    task: &Name,
    job: &Job,
    view: &View,
    tick: u64,
    period: u64,
) -> Result<JobBar, AllocError> {
    let body = job.body();
    let inputs = inputs_of(alloc, view, task, body.inputs.as_slice())?;
    let outputs = copies(alloc, body.outputs.as_slice())?;
    Ok(JobBar {
        tick,
        deadline: tick.saturating_add(period),
        inputs,
        outputs,
        worked: None,
        end: None,
    })
}

/// The number of ticks between two invocations of a task in a mode, if the mode invokes it.
pub(crate) fn period_of(program: &Checked, mode: &Name, task: &Name) -> Option<u64> {
    let mode = program
        .program()
        .modes()
        .iter()
        .position(|it| it.name == *mode)?;
    let task = program
        .program()
        .tasks()
        .iter()
        .position(|it| it.name == *task)?;
    program
        .invocations(mode)
        .iter()
        .find(|it| it.task == task)
        .map(|it| it.interval)
}

// The inputs of a task with their values.
fn inputs_of(
    alloc: Global,
    view: &View,
    task: &Name,
    names: &[Name],
) -> Result<PortTexts, AllocError> {
    let mut texts = PortTexts::new(alloc);
    for name in names {
        texts.add(name, view.own_value(task, name))?;
    }
    Ok(texts)
}

// The outputs with their values.
fn outputs_of(alloc: Global, view: &View, names: &[Name]) -> Result<PortTexts, AllocError> {
    let mut texts = PortTexts::new(alloc);
    for name in names {
        texts.add(name, view.value(name))?;
    }
    Ok(texts)
}

// Copies of these names.
fn copies(alloc: Global, names: &[Name]) -> Result<Vec<Name>, AllocError> {
    let mut copies = Vec::new(alloc);
    for name in names {
        copies.push(name.copy())?;
    }
    Ok(copies)
}
