//! Which ports are drawn: those that are asked for, or all sensors and actuators.

use giotto_check::Checked;
use giotto_tasks::names::Name;
use std::alloc::{AllocError, Global};
use tenant_timelines::ports::Kind;
use tenant_timelines::timelines::Timeline;

/// The ports that are asked for, and those that the tenants' programs have.
#[derive(Drop)]
pub struct PortFilter {
    // None for all sensors and actuators.
    asked: Vec<Asked>,
    // The names of the ports of programs so far.
    known: Vec<Name>,
}

// A name that is asked for, which may be none that a port can have.
#[derive(Drop)]
struct Asked {
    name: String,
}

impl PortFilter {
    /// The filter for these names, or for all sensors and actuators if there are none.
    ///
    /// # Errors
    /// Out of memory.
    pub fn new(alloc: Global, names: &[&str]) -> Result<PortFilter, AllocError> {
        let mut asked = Vec::new(alloc);
        for name in names {
            asked.push(Asked {
                name: String::from_str(alloc, *name)?,
            })?;
        }
        Ok(PortFilter {
            asked,
            known: Vec::new(alloc),
        })
    }

    /// Adds a lane for each port of the program that is asked for and has none yet.
    ///
    /// # Errors
    /// Out of memory.
    pub fn add_lanes(
        &mut self,
        alloc: Global,
        timeline: &mut Timeline,
        program: &Checked,
    ) -> Result<(), AllocError> {
        let program = program.program();
        for sensor in program.sensors() {
            self.add(alloc, timeline, Kind::Sensor, &sensor.name)?;
        }
        for output in program.outputs() {
            self.add(alloc, timeline, Kind::Output, &output.name)?;
        }
        for actuator in program.actuators() {
            self.add(alloc, timeline, Kind::Actuator, &actuator.name)?;
        }
        Ok(())
    }

    // Adds a lane for a port, if it is asked for and has none yet.
    fn add(
        &mut self,
        alloc: Global,
        timeline: &mut Timeline,
        kind: Kind,
        name: &Name,
    ) -> Result<(), AllocError> {
        if !self.known.as_slice().contains(name) {
            self.known.push(name.copy())?;
        }
        if self.is_asked(kind, name) {
            timeline.add_port(alloc, kind, name)?;
        }
        Ok(())
    }

    // Whether a port is asked for.
    fn is_asked(&self, kind: Kind, name: &Name) -> bool {
        if self.asked.is_empty() {
            kind != Kind::Output
        } else {
            self.asked
                .iter()
                .any(|it| it.name.as_str() == name.as_str())
        }
    }

    /// A sentence about the first name that no program's port has, with the names of the ports that there are.
    ///
    /// # Errors
    /// Out of memory.
    pub fn unknown(&self, alloc: Global) -> Result<Option<String>, AllocError> {
        for asked in &self.asked {
            if !self.is_known(asked.name.as_str()) {
                return Ok(Some(self.text_of_unknown(alloc, asked.name.as_str())?));
            }
        }
        Ok(None)
    }

    // Whether a port of a program has this name.
    fn is_known(&self, name: &str) -> bool {
        self.known.iter().any(|it| it.as_str() == name)
    }

    // The sentence that no program has a port of this name, and which ports they have.
    fn text_of_unknown(&self, alloc: Global, name: &str) -> Result<String, AllocError> {
        let mut text = format!(in alloc;
            "the programs have no sensor, actuator or output `{name}`"
        )?;
        if self.known.is_empty() {
            text.push_str("; none is loaded")?;
        }
        for (place, known) in self.known.iter().enumerate() {
            let before = if place == 0 { "; they have" } else { "," };
            let known = known.as_str();
            write!(text, "{before} {known}")?;
        }
        Ok(text)
    }
}
