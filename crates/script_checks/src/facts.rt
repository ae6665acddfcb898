//! What the lines of a script say about ports and offers.

ghost use Rattle.std.specs.Prelude.{◌≡◌, ◌∷◌, ◌++◌, [], OnOk, map};
ghost use Rattle.rig_model.specs.text.ProgramTrees.{actuator_of, sensor_of};
ghost use Rattle.script_checks.specs.Grants.{fact_of_actuator, fact_of_sensor, facts_of};
ghost use Rattle.script_checks.specs.inner.Facts.{Gains, HasNone, has_fact};

use crate::binds::What;
use giotto_tasks::names::Name;
use rig_model::config::TenantId;
use rig_model::lines::grant_lines::GrantCommand;
use rig_model::text::programs::{Actuator, Program, Sensor, Source};
use std::alloc::{AllocError, Global};
use std::collections::BTreeSet;

/// What a line says about a port of the tenant at a place.
#[derive(PartialEq, Eq, PartialOrd, Ord, Drop)]
pub(crate) enum Fact {
    /// A program of the tenant has a sensor of this name that is declared with `grant`.
    GrantSensor(TenantId, Name),
    /// A program of the tenant has a sensor of this name that reads a line of the rig.
    LineSensor(TenantId, Name),
    /// A program of the tenant has an actuator of this name.
    Actuator(TenantId, Name),
    /// The tenant offers this actuator to the tenant of the other name.
    Offered(TenantId, Name, Name),
}

/// What the lines of a script say, each fact once.
#[derive(Drop)]
pub(crate) struct Facts {
    set: BTreeSet<Fact>,
}

impl Facts {
    /// No fact.
    pub(crate) fn new(alloc: Global) -> Facts
        ensures { HasNone result }
    {
        Facts {
            set: BTreeSet::new(alloc),
        }
    }

    /// Whether a line says this.
    pub(crate) fn has(&self, fact: &Fact) -> bool
        ensures { result ≡ has_fact self.now fact.now }
    {
        self.set.contains(fact)
    }

    /// Adds what a command of the tenant at a place says.
    ///
    /// # Errors
    /// Out of memory.
    pub(crate) fn add(&mut self, tenant: TenantId, what: &What) -> Result<(), AllocError>
        ensures { OnOk result (Gains (facts_of tenant what.now) self.old self.new) }
    {
        match what {
            What::Program(checked) => self.add_program(tenant, checked.program()),
            What::Grants(
                GrantCommand::Offer {
                    actuator,
                    tenant: to,
                    ..
                },
            ) => self.insert(Fact::Offered(tenant, actuator.copy(), to.copy())),
            What::Grants(_) => Ok(()),
        }
    }

    // Adds the ports of a program.
    fn add_program(&mut self, tenant: TenantId, program: &Program) -> Result<(), AllocError>
        ensures { OnOk result (Gains (map (fact_of_sensor tenant) program.now.sensors ++ map (fact_of_actuator tenant) program.now.actuators) self.old self.new) }
    {
        self.add_sensors(tenant, program.sensors())?;
        self.add_actuators(tenant, program.actuators())
    }

    fn add_sensors(&mut self, tenant: TenantId, sensors: &[Sensor]) -> Result<(), AllocError>
        ensures { OnOk result (Gains (map (fact_of_sensor tenant) (map sensor_of sensors.now)) self.old self.new) }
    {
        for sensor in sensors {
            self.insert(fact_of_sensor(tenant, sensor))?;
        }
        Ok(())
    }

    fn add_actuators(&mut self, tenant: TenantId, actuators: &[Actuator]) -> Result<(), AllocError>
        ensures { OnOk result (Gains (map (fact_of_actuator tenant) (map actuator_of actuators.now)) self.old self.new) }
    {
        for actuator in actuators {
            self.insert(Fact::Actuator(tenant, actuator.name.copy()))?;
        }
        Ok(())
    }

    fn insert(&mut self, fact: Fact) -> Result<(), AllocError>
        ensures { OnOk result (Gains (fact ∷ []) self.old self.new) }
    {
        match self.set.insert(fact) {
            Ok(_) => Ok(()),
            Err(_) => Err(AllocError),
        }
    }
}

// What the declaration of a sensor says.
fn fact_of_sensor(tenant: TenantId, sensor: &Sensor) -> Fact
    ensures { result ≡ fact_of_sensor tenant (sensor_of sensor.now) }
{
    let name = sensor.name.copy();
    match sensor.source {
        Source::Grant => Fact::GrantSensor(tenant, name),
        Source::Line(_) => Fact::LineSensor(tenant, name),
    }
}
