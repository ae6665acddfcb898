//! The runs of tenants, seen line by line.
//!
//! Marks are derived from the reply to `show mode` after each line, and from the tenant's programs. A switch into the same mode gives no
//! mark: only a trace record shows it, and a tenant's budget may allow no record.

use crate::port_filters::PortFilter;
use crate::questions::views_of;
use crate::tasks::{Moment, see_task};
use giotto_check::Checked;
use giotto_tasks::names::Name;
use host_core::hosts::Host;
use rig_model::config::{Config, TenantId};
use rig_model::lines::replies::Status;
use rig_script::listeners::{Answered, Listener};
use std::alloc::{AllocError, Global};
use tenant_dumps::views::View;
use tenant_timelines::marks::Doing;
use tenant_timelines::places::Place;
use tenant_timelines::ports::{Kind, PortLane};
use tenant_timelines::timelines::Timeline;

/// The runs of tenants, and which of their ports are drawn.
#[derive(Drop)]
pub struct TimelineListener {
    runs: Vec<Run>,
    ports: PortFilter,
}

impl TimelineListener {
    /// Creates a listener that saw nothing yet: for the run of this tenant, or for those of all if it is `None`.
    ///
    /// # Errors
    /// Out of memory.
    pub fn new(
        alloc: Global,
        config: &Config,
        tenant: Option<TenantId>,
        ports: PortFilter,
    ) -> Result<TimelineListener, AllocError> {
        let mut runs = Vec::new(alloc);
        for (place, it) in config.tenants().iter().enumerate() {
            if tenant.is_none_or(|named| named == place) {
                runs.push(Run::new(alloc, place, &it.name)?)?;
            }
        }
        Ok(TimelineListener { runs, ports })
    }

    /// The ports that are asked for.
    pub fn ports(&self) -> &PortFilter {
        &self.ports
    }

    /// The runs, in the order of the roster.
    pub fn into_runs(self) -> Vec<Run> {
        let TimelineListener { runs, ports: _ } = self;
        runs
    }
}

/// The run of one tenant.
#[derive(Drop)]
pub struct Run {
    tenant: TenantId,
    timeline: Timeline,
    // Whether a program waits to be installed.
    is_waiting: bool,
    // Whether the mode time of the next instant is 0.
    is_round: bool,
}

impl Run {
    // Creates the run of a tenant, of which nothing was seen.
    fn new(alloc: Global, tenant: TenantId, name: &Name) -> Result<Run, AllocError> {
        Ok(Run {
            tenant,
            timeline: Timeline::new(alloc, name)?,
            is_waiting: false,
            is_round: false,
        })
    }

    /// The timeline that is drawn of it.
    pub fn timeline(&self) -> &Timeline {
        &self.timeline
    }

    /// The timeline that is drawn of it.
    pub fn into_timeline(self) -> Timeline {
        self.timeline
    }

    // Notes the state after a line, which may have given an instant.
    fn see(
        &mut self,
        alloc: Global,
        host: &Host,
        views: &[View],
        is_instant: bool,
        ports: &mut PortFilter,
    ) -> Result<(), AllocError> {
        let number = self.timeline.instants;
        let instant = if is_instant { Some(number) } else { None };
        let place = match instant {
            Some(number) => Place::of_instant(number),
            None => Place::before_instant(number),
        };
        self.timeline.instants = host.clock();
        let tenant = self.tenant;
        let Some(view) = views.get(tenant) else {
            return Ok(());
        };
        self.see_round(place, is_instant, &view.status)?;
        let is_installed = self.see_waiting(host, tenant, &view.status);
        let moment = Moment {
            host,
            tenant,
            view,
            place,
            instant,
            is_installed,
        };
        self.timeline
            .note(place, doing_of(&view.status), is_installed)?;
        self.see_lanes(alloc, &moment, ports)
    }

    // Whether the program that waited was installed. A tenant that runs loses such a program in no other way.
    fn see_waiting(&mut self, host: &Host, tenant: TenantId, status: &Status) -> bool {
        let was_waiting = self.is_waiting;
        self.is_waiting = is_waiting(host, tenant);
        was_waiting && !self.is_waiting && is_running(status)
    }

    // Notes the begin of a round at an instant.
    fn see_round(
        &mut self,
        place: Place,
        is_instant: bool,
        status: &Status,
    ) -> Result<(), AllocError> {
        let was_round = self.is_round;
        self.is_round = is_at_begin(status);
        if is_running(status) && is_instant && was_round {
            self.timeline.rounds.push(place)?;
        }
        Ok(())
    }

    // Notes the ends and releases of jobs, and the values of ports.
    fn see_lanes(
        &mut self,
        alloc: Global,
        moment: &Moment<'_>,
        ports: &mut PortFilter,
    ) -> Result<(), AllocError> {
        let Some(program) = program_of(moment.host, moment.tenant) else {
            return Ok(());
        };
        if moment.is_installed || is_loaded(&moment.view.status) {
            add_tasks(alloc, &mut self.timeline, program)?;
            ports.add_lanes(alloc, &mut self.timeline, program)?;
        }
        for lane in self.timeline.tasks.iter_mut() {
            see_task(alloc, lane, moment, program)?;
        }
        for lane in self.timeline.ports.iter_mut() {
            lane.note(moment.place, value_of(lane, program, moment.view))?;
        }
        Ok(())
    }
}

impl Listener for TimelineListener {
    ghost use Rattle.std.specs.Prelude.{⊤};

    ghost heard = { λ it setting texts. ⊤ };

    fn hear(
        &mut self,
        alloc: Global,
        host: &mut Host,
        line: Answered<'_>,
    ) -> Result<(), AllocError> {
        let views = views_of(alloc, host)?;
        for run in self.runs.iter_mut() {
            run.see(
                alloc,
                host,
                views.as_slice(),
                line.is_instant(),
                &mut self.ports,
            )?;
        }
        Ok(())
    }
}

// What this status says, without the mode time.
fn doing_of(status: &Status) -> Doing {
    match status {
        Status::Empty => Doing::Empty,
        Status::Loaded(mode) => Doing::Loaded(mode.copy()),
        Status::Running(mode, _) => Doing::Running(mode.copy()),
        Status::StoppedAsked => Doing::StoppedAsked,
        Status::StoppedOverrun(task) => Doing::StoppedOverrun(task.copy()),
    }
}

fn is_running(status: &Status) -> bool {
    match status {
        Status::Running(_, _) => true,
        _ => false,
    }
}

fn is_loaded(status: &Status) -> bool {
    matches!(status, Status::Loaded(_))
}

// Whether a round of the mode begins at the next instant.
fn is_at_begin(status: &Status) -> bool {
    match status {
        Status::Running(_, time) => *time == 0,
        _ => false,
    }
}

// Adds a lane for each task of the program that has none yet.
fn add_tasks(alloc: Global, timeline: &mut Timeline, program: &Checked) -> Result<(), AllocError> {
    for task in program.program().tasks() {
        timeline.add_task(alloc, &task.name)?;
    }
    Ok(())
}

// The value of a lane's port, if the program has such a port.
fn value_of(lane: &PortLane, program: &Checked, view: &View) -> Option<i64> {
    if is_in(program, lane.kind, &lane.name) {
        view.value(&lane.name)
    } else {
        None
    }
}

// Whether the program has a port of this kind and name.
fn is_in(program: &Checked, kind: Kind, name: &Name) -> bool {
    let program = program.program();
    match kind {
        Kind::Sensor => program.sensors().iter().any(|it| it.name == *name),
        Kind::Output => program.outputs().iter().any(|it| it.name == *name),
        Kind::Actuator => program.actuators().iter().any(|it| it.name == *name),
    }
}

/// The program of the tenant at this place of the roster, if it has one.
pub(crate) fn program_of(host: &Host, tenant: TenantId) -> Option<&Checked> {
    if tenant < host.config().tenants().len() {
        host.program(tenant)
    } else {
        None
    }
}

// Whether a program of the tenant at this place of the roster waits to be installed.
fn is_waiting(host: &Host, tenant: TenantId) -> bool {
    tenant < host.config().tenants().len() && host.waiting_program(tenant).is_some()
}
