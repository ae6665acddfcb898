//! Sensors, actuators and outputs.

ghost use Rattle.std.specs.Prelude.{map};
ghost use Rattle.giotto_read.specs.inner.Doing.{Does};
ghost use Rattle.giotto_text.specs.Parsing.{is_keyword, many, read_actuator, read_declaration, read_line, read_output, read_sensor, read_source};
ghost use Rattle.giotto_text.specs.ProgramTrees.{actuator_of, output_of, sensor_of, source_of};
ghost use Rattle.giotto_text.specs.declared.tokens.Keyword.TheVariants as keyword;

use super::{Reader, Stop};
use giotto_tasks::lists::List;
use giotto_tasks::names::Name;
use giotto_text::programs::{Actuator, Output, Sensor, Source};
use giotto_text::tokens::{Keyword, Symbol};

impl Reader<'_> {
    // {sensor}
    pub(super) fn sensors(&mut self) -> Result<List<Sensor>, Stop>
        ensures { Does (map sensor_of) (many (is_keyword keyword.Sensor) read_sensor) self.old result self.new }
    {
        let mut sensors = Vec::new(self.alloc);
        while self.next_is_keyword(Keyword::Sensor) {
            let sensor = self.sensor()?;
            sensors.push(sensor)?;
        }
        Ok(List::from_vec(sensors))
    }

    // sensor = "sensor" NAME ":=" init ("line" INT | "grant") ";"
    fn sensor(&mut self) -> Result<Sensor, Stop>
        ensures { Does sensor_of read_sensor self.old result self.new }
    {
        let (name, initial) = self.declaration(Keyword::Sensor)?;
        let source = self.source()?;
        self.symbol(Symbol::Semicolon)?;
        Ok(Sensor {
            name,
            initial,
            source,
        })
    }

    // "line" INT | "grant"
    fn source(&mut self) -> Result<Source, Stop>
        ensures { Does source_of read_source self.old result self.new }
    {
        if self.accept_keyword(Keyword::Line) {
            let line = self.int()?;
            return Ok(Source::Line(line));
        }
        self.keyword(Keyword::Grant)?;
        Ok(Source::Grant)
    }

    // {actuator}
    pub(super) fn actuators(&mut self) -> Result<List<Actuator>, Stop>
        ensures { Does (map actuator_of) (many (is_keyword keyword.Actuator) read_actuator) self.old result self.new }
    {
        let mut actuators = Vec::new(self.alloc);
        while self.next_is_keyword(Keyword::Actuator) {
            let actuator = self.actuator()?;
            actuators.push(actuator)?;
        }
        Ok(List::from_vec(actuators))
    }

    // actuator = "actuator" NAME ":=" init ["line" INT] ";"
    fn actuator(&mut self) -> Result<Actuator, Stop>
        ensures { Does actuator_of read_actuator self.old result self.new }
    {
        let (name, initial) = self.declaration(Keyword::Actuator)?;
        let line = self.line()?;
        self.symbol(Symbol::Semicolon)?;
        Ok(Actuator {
            name,
            initial,
            line,
        })
    }

    // {output}
    pub(super) fn outputs(&mut self) -> Result<List<Output>, Stop>
        ensures { Does (map output_of) (many (is_keyword keyword.Output) read_output) self.old result self.new }
    {
        let mut outputs = Vec::new(self.alloc);
        while self.next_is_keyword(Keyword::Output) {
            let output = self.output()?;
            outputs.push(output)?;
        }
        Ok(List::from_vec(outputs))
    }

    // output = "output" NAME ":=" init ";"
    fn output(&mut self) -> Result<Output, Stop>
        ensures { Does output_of read_output self.old result self.new }
    {
        let (name, initial) = self.declaration(Keyword::Output)?;
        self.symbol(Symbol::Semicolon)?;
        Ok(Output { name, initial })
    }

    // a keyword, NAME ":=" init
    fn declaration(&mut self, keyword: Keyword) -> Result<(Name, i64), Stop>
        ensures { Does (λ d. d) (read_declaration keyword) self.old result self.new }
    {
        self.keyword(keyword)?;
        let name = self.name()?;
        self.symbol(Symbol::Becomes)?;
        let initial = self.initial()?;
        Ok((name, initial))
    }

    // ["line" INT]
    fn line(&mut self) -> Result<Option<u64>, Stop>
        ensures { Does (λ k. k) read_line self.old result self.new }
    {
        if !self.accept_keyword(Keyword::Line) {
            return Ok(None);
        }
        let line = self.int()?;
        Ok(Some(line))
    }
}
