//! Which rig lines the programs of a script drive and read, with the ports that do and from which tick on.

use giotto_tasks::names::Name;
use rig_model::config::TenantId;
use rig_model::text::programs::{Program, Source};
use std::alloc::{AllocError, Global};

/// The rig lines that programs use.
#[derive(Drop)]
pub struct PlantLines {
    uses: Vec<LineUse>,
}

/// A rig line that a program of a tenant drives or reads.
#[derive(Drop)]
pub struct LineUse {
    tenant: TenantId,
    direction: Direction,
    line: usize,
    /// The actuator or sensor that uses the line.
    pub port: Name,
    /// The first tick after the line of the script that gave the program.
    pub tick: u64,
}

/// Whether a value goes to the plant or comes from it.
#[derive(Clone, Copy, PartialEq, Eq)]
pub enum Direction {
    /// An actuator drives the line.
    Driven,
    /// A sensor reads the line.
    Read,
}

impl PlantLines {
    /// Creates the lines of no program.
    pub fn new(alloc: Global) -> PlantLines {
        PlantLines {
            uses: Vec::new(alloc),
        }
    }

    /// Adds the lines of a tenant's program, which comes before this tick.
    ///
    /// # Errors
    /// Out of memory.
    pub fn add_program(
        &mut self,
        tenant: TenantId,
        program: &Program,
        tick: u64,
    ) -> Result<(), AllocError> {
        for sensor in program.sensors() {
            if let Source::Line(line) = sensor.source {
                self.add(tenant, Direction::Read, line, &sensor.name, tick)?;
            }
        }
        for actuator in program.actuators() {
            if let Some(line) = actuator.line {
                self.add(tenant, Direction::Driven, line, &actuator.name, tick)?;
            }
        }
        Ok(())
    }

    // Adds a line's use, unless the tenant already used it so.
    fn add(
        &mut self,
        tenant: TenantId,
        direction: Direction,
        line: u64,
        port: &Name,
        tick: u64,
    ) -> Result<(), AllocError> {
        let line = line as usize;
        if self.find(tenant, direction, line).is_none() {
            self.uses.push(LineUse {
                tenant,
                direction,
                line,
                port: port.copy(),
                tick,
            })?;
        }
        Ok(())
    }

    /// The first program of a tenant that uses a line in this direction, if there is one.
    pub fn find(&self, tenant: TenantId, direction: Direction, line: usize) -> Option<&LineUse> {
        self.uses.iter().find(|it| it.tenant == tenant
            && it.direction == direction
            && it.line == line)
    }
}
