//! Sensors, actuators and outputs.
#![tactic(auto, using(crate::proofs::Writing::writing))]

ghost use Rattle.std.specs.Prelude.{◌≡◌, OnOk, map};
ghost use Rattle.std.specs.List.{flat_map};
ghost use Rattle.giotto_text.specs.Canonical.{declaration_tokens, sensor_tokens, actuator_tokens, output_tokens};
ghost use Rattle.giotto_text.specs.ProgramTrees.{sensor_of, actuator_of, output_of};
ghost use Rattle.giotto_read.specs.inner.Printing.{written};

use super::Printer;
use giotto_tasks::names::Name;
use giotto_text::programs::{Actuator, Output, Sensor, Source};
use giotto_text::tokens::{Keyword, Symbol};
use std::alloc::AllocError;

impl Printer {
    pub(super) fn sensors(&mut self, sensors: &[Sensor]) -> Result<(), AllocError>
        ensures { OnOk result (self.new ≡ written self.old (flat_map sensor_tokens (map sensor_of sensors.now))) }
    {
        for sensor in sensors {
            self.sensor(sensor)?;
        }
        Ok(())
    }

    // sensor = "sensor" NAME ":=" init ("line" INT | "grant") ";"
    fn sensor(&mut self, sensor: &Sensor) -> Result<(), AllocError>
        ensures { OnOk result (self.new ≡ written self.old (sensor_tokens (sensor_of sensor.now))) }
    {
        self.declaration(Keyword::Sensor, &sensor.name, sensor.initial)?;
        match &sensor.source {
            Source::Line(line) => {
                self.keyword(Keyword::Line)?;
                self.number(*line)?;
            }
            Source::Grant => self.keyword(Keyword::Grant)?,
        }
        self.symbol(Symbol::Semicolon)
    }

    pub(super) fn actuators(&mut self, actuators: &[Actuator]) -> Result<(), AllocError>
        ensures { OnOk result (self.new ≡ written self.old (flat_map actuator_tokens (map actuator_of actuators.now))) }
    {
        for actuator in actuators {
            self.actuator(actuator)?;
        }
        Ok(())
    }

    // actuator = "actuator" NAME ":=" init ["line" INT] ";"
    fn actuator(&mut self, actuator: &Actuator) -> Result<(), AllocError>
        ensures { OnOk result (self.new ≡ written self.old (actuator_tokens (actuator_of actuator.now))) }
    {
        self.declaration(Keyword::Actuator, &actuator.name, actuator.initial)?;
        if let Some(line) = actuator.line {
            self.keyword(Keyword::Line)?;
            self.number(line)?;
        }
        self.symbol(Symbol::Semicolon)
    }

    pub(super) fn outputs(&mut self, outputs: &[Output]) -> Result<(), AllocError>
        ensures { OnOk result (self.new ≡ written self.old (flat_map output_tokens (map output_of outputs.now))) }
    {
        for output in outputs {
            self.output(output)?;
        }
        Ok(())
    }

    // output = "output" NAME ":=" init ";"
    fn output(&mut self, output: &Output) -> Result<(), AllocError>
        ensures { OnOk result (self.new ≡ written self.old (output_tokens (output_of output.now))) }
    {
        self.declaration(Keyword::Output, &output.name, output.initial)?;
        self.symbol(Symbol::Semicolon)
    }

    fn declaration(&mut self, kind: Keyword, name: &Name, initial: i64) -> Result<(), AllocError>
        ensures { OnOk result (self.new ≡ written self.old (declaration_tokens kind name.now initial)) }
    {
        self.keyword(kind)?;
        self.name(name)?;
        self.symbol(Symbol::Becomes)?;
        self.initial(initial)
    }
}
