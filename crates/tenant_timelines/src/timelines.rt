//! Timelines: what is drawn of a tenant's run.

use crate::jobs::TaskLane;
use crate::marks::{Band, Doing, Mark, Marked};
use crate::places::Place;
use crate::ports::{Kind, PortLane};
use giotto_tasks::names::Name;
use std::alloc::{AllocError, Global};

/// What is drawn of a tenant's run.
#[derive(Drop)]
pub struct Timeline {
    pub tenant: Name,
    /// The number of instants so far.
    pub instants: u64,
    /// What the tenant is doing, in the order of the places.
    pub bands: Vec<Band>,
    /// The instants at which a round of a mode begins: the mode time is 0.
    pub rounds: Vec<Place>,
    /// In the order of the places.
    pub marks: Vec<Marked>,
    pub tasks: Vec<TaskLane>,
    pub ports: Vec<PortLane>,
}

impl Timeline {
    /// The timeline of this tenant, without a program.
    ///
    /// # Errors
    /// Out of memory.
    pub fn new(alloc: Global, tenant: &Name) -> Result<Timeline, AllocError> {
        let mut bands = Vec::new(alloc);
        bands.push(Band {
            from: Place::begin(),
            doing: Doing::Empty,
        })?;
        Ok(Timeline {
            tenant: tenant.copy(),
            instants: 0,
            bands,
            rounds: Vec::new(alloc),
            marks: Vec::new(alloc),
            tasks: Vec::new(alloc),
            ports: Vec::new(alloc),
        })
    }

    /// Whether the tenant ever had a program.
    pub fn has_program(&self) -> bool {
        self.bands.iter().any(|it| it.doing != Doing::Empty)
    }

    /// Adds a lane for a task, if it has none yet.
    ///
    /// # Errors
    /// Out of memory.
    pub fn add_task(&mut self, alloc: Global, name: &Name) -> Result<(), AllocError> {
        if !self.tasks.iter().any(|it| it.name == *name) {
            self.tasks.push(TaskLane::new(alloc, name))?;
        }
        Ok(())
    }

    /// Adds a lane for a port, if it has none yet.
    ///
    /// # Errors
    /// Out of memory.
    pub fn add_port(&mut self, alloc: Global, kind: Kind, name: &Name) -> Result<(), AllocError> {
        if !self
            .ports
            .iter()
            .any(|it| it.kind == kind && it.name == *name)
        {
            self.ports.push(PortLane::new(alloc, kind, name))?;
        }
        Ok(())
    }

    /// Notes what the tenant is doing from a place on, and marks what happened to it there. The mark is that of a replacement if a
    /// program was installed; otherwise it follows from what the tenant did before.
    ///
    /// # Errors
    /// Out of memory.
    pub fn note(
        &mut self,
        place: Place,
        doing: Doing,
        is_installed: bool,
    ) -> Result<(), AllocError> {
        let Some(band) = self.bands.as_slice().last() else {
            return Ok(());
        };
        if band.doing == doing && !is_installed {
            return Ok(());
        }
        let mark = if is_installed {
            Some(Mark::Replaced)
        } else {
            Mark::between(&band.doing, &doing)
        };
        if let Some(mark) = mark {
            self.marks.push(Marked { place, mark })?;
        }
        let from = place;
        self.bands.push(Band { from, doing })?;
        Ok(())
    }
}
