//! What a trace records about a tenant.

ghost use Rattle.std.specs.Prelude.{◌≡◌};

use giotto_tasks::names::Name;

/// What happened at one moment of a tenant.
#[derive(Drop)]
pub enum Happening {
    /// The program was started in this mode.
    Start(Name),
    /// A switch entered this mode.
    Mode(Name),
    /// This actuator was updated to this value.
    Act(Name, i64),
    /// This output was written, with this value.
    Out(Name, i64),
    /// The tenant was stopped by its own command.
    Asked,
    /// The tenant was stopped because this task was due and its computation wasn't completed.
    Overrun(Name),
    /// A new program was installed, in this mode.
    Replaced(Name),
}

/// A trace record.
#[derive(Drop)]
pub struct Record {
    /// The number of the running instant, or of the next one if a command made the record.
    pub tick: u64,
    pub happening: Happening,
}

impl Happening {
    /// An equal happening. Takes no memory.
    pub fn copy(&self) -> Happening
        ensures { result ≡ self.now }
    {
        match self {
            Happening::Start(mode) => Happening::Start(mode.copy()),
            Happening::Mode(mode) => Happening::Mode(mode.copy()),
            Happening::Act(actuator, value) => Happening::Act(actuator.copy(), *value),
            Happening::Out(output, value) => Happening::Out(output.copy(), *value),
            Happening::Asked => Happening::Asked,
            Happening::Overrun(task) => Happening::Overrun(task.copy()),
            Happening::Replaced(mode) => Happening::Replaced(mode.copy()),
        }
    }
}

impl Record {
    /// An equal record. Takes no memory.
    pub fn copy(&self) -> Record
        ensures { result ≡ self.now }
    {
        Record {
            tick: self.tick,
            happening: self.happening.copy(),
        }
    }
}
