//! The programs that texts spell.

ghost use Rattle.std.specs.Arc.{arc_value};
ghost use Rattle.std.specs.Prelude.{◌≡◌, length};

use giotto_tasks::bodies::{Body, Expr};
use giotto_tasks::lists::List;
use giotto_tasks::names::Name;
use std::alloc::Global;
use std::marker::Model;
use std::sync::Arc;

/// A program that can be printed: its canonical text reads as the program.
#[derive(Drop)]
pub struct Program {
    parts: Parts,
}

impl Model for Program {
    ghost use Rattle.giotto_text.specs.Program.{GiottoProgram};
    ghost use Rattle.giotto_text.specs.cited.ProgramCodes.{program_code};
    ghost use Rattle.giotto_text.specs.Sound.{IsPrintable};

    ghost Value = { GiottoProgram };

    ghost coded = { program_code };

    ghost view = { λ p. p.parts };

    ghost invariant = { λ p. IsPrintable p.parts };
}

impl Program {
    ghost use Rattle.std.specs.Prelude.{◌≡◌, map};
    ghost use Rattle.giotto_text.specs.ProgramTrees.{sensor_of, actuator_of, output_of, task_of, mode_of};
    ghost use Rattle.giotto_text.specs.Sound.{IsPrintable};

    /// The program with these parts, which must be such that it can be printed. The law `printable` proves this for the
    /// parts of a program that a text reads as.
    pub fn new(parts: Parts) -> Program
        requires { IsPrintable parts }
        ensures { result ≡ parts }
    {
        Program { parts }
    }

    /// All parts of the program. The program can be printed.
    pub fn parts(&self) -> &Parts
        ensures tree { result.now ≡ self.now }
        ensures printable { IsPrintable self.now }
    {
        &self.parts
    }

    /// Opens the invariant of the type for a proof. Does nothing at run time.
    #[inline(always)]
    pub fn known(&self)
        ensures { IsPrintable self.now }
    {
        let _parts = self.parts();
    }

    /// The sensors, in text order.
    pub fn sensors(&self) -> &[Sensor]
        ensures { map sensor_of result.now ≡ self.now.sensors }
    {
        self.parts.sensors.as_slice()
    }

    /// The actuators, in text order.
    pub fn actuators(&self) -> &[Actuator]
        ensures { map actuator_of result.now ≡ self.now.actuators }
    {
        self.parts.actuators.as_slice()
    }

    /// The outputs, in text order.
    pub fn outputs(&self) -> &[Output]
        ensures { map output_of result.now ≡ self.now.outputs }
    {
        self.parts.outputs.as_slice()
    }

    /// The tasks, in text order.
    pub fn tasks(&self) -> &[Task]
        ensures { map task_of result.now ≡ self.now.tasks }
    {
        self.parts.tasks.as_slice()
    }

    /// The modes, in text order.
    pub fn modes(&self) -> &[Mode]
        ensures { map mode_of result.now ≡ self.now.modes }
    {
        self.parts.modes.as_slice()
    }

    /// The name of the mode in which the program starts.
    pub fn start(&self) -> &Name
        ensures { result.now ≡ self.now.start }
    {
        &self.parts.start
    }
}

/// What a program declares, and its modes, each list in text order.
#[derive(Drop)]
pub struct Parts {
    pub sensors: List<Sensor>,
    pub actuators: List<Actuator>,
    pub outputs: List<Output>,
    pub tasks: List<Task>,
    pub modes: List<Mode>,
    /// The mode in which the program starts.
    pub start: Name,
}

impl Model for Parts {
    ghost use Rattle.std.specs.Prelude.{map};
    ghost use Rattle.giotto_text.specs.Program.{GiottoProgram};
    ghost use Rattle.giotto_text.specs.cited.ProgramCodes.{program_code};

    ghost Value = { GiottoProgram };

    ghost coded = { program_code };

    ghost use Rattle.giotto_text.specs.ProgramTrees.{sensor_of, actuator_of, output_of, task_of, mode_of};

    ghost view = { λ p. record { sensors = map sensor_of p.sensors; actuators = map actuator_of p.actuators; outputs = map output_of p.outputs; tasks = map task_of p.tasks; modes = map mode_of p.modes; start = p.start } };
}

/// Where a sensor's readings come from.
#[derive(Drop)]
pub enum Source {
    /// A line of the rig: 0 to `i64::MAX`.
    Line(u64),
    /// The values that another tenant grants.
    Grant,
}

/// A sensor.
#[derive(Drop)]
pub struct Sensor {
    pub name: Name,
    /// The value before the first reading.
    pub initial: i64,
    pub source: Source,
}

/// An actuator.
#[derive(Drop)]
pub struct Actuator {
    pub name: Name,
    /// The value before the first update.
    pub initial: i64,
    /// The line of the rig that it drives, if any: 0 to `i64::MAX`.
    pub line: Option<u64>,
}

/// A port to which tasks write.
#[derive(Drop)]
pub struct Output {
    pub name: Name,
    /// The value before a task first writes it.
    pub initial: i64,
}

/// A task.
#[derive(Drop)]
pub struct Task {
    pub name: Name,
    /// The initial values of the body's states, in their order.
    pub states: List<i64>,
    pub body: Arc<Body, Global>,
    ghost each_state: { length states ≡ length (arc_value body).states },
}

/// A mode.
#[derive(Drop)]
pub struct Mode {
    pub name: Name,
    /// In ticks: 0 to `i64::MAX`.
    pub period: u64,
    pub updates: List<Update>,
    pub switches: List<Switch>,
    pub invocations: List<Invocation>,
}

/// Gives an actuator a value, a number of times in each period of the mode.
#[derive(Drop)]
pub struct Update {
    /// How many times in a period: 0 to `i64::MAX`.
    pub frequency: u64,
    /// The update is skipped if this is 0. An absent guard is always true.
    pub guard: Option<Expr>,
    pub actuator: Name,
    pub value: Expr,
}

/// Switches to another mode.
#[derive(Drop)]
pub struct Switch {
    /// How many times in a period the switch is checked: 0 to `i64::MAX`.
    pub frequency: u64,
    /// The switch is taken if this is not 0. An absent guard is always true.
    pub guard: Option<Expr>,
    /// The next mode.
    pub target: Name,
    pub destinations: List<Destination>,
}

/// Gives an output a value at a switch.
#[derive(Drop)]
pub struct Destination {
    pub output: Name,
    pub value: Expr,
}

/// Runs a task, a number of times in each period of the mode.
#[derive(Drop)]
pub struct Invocation {
    /// How many times in a period: 0 to `i64::MAX`.
    pub frequency: u64,
    /// The task is not run if this is 0. An absent guard is always true.
    pub guard: Option<Expr>,
    pub task: Name,
    /// One for each input of the task, in their order.
    pub arguments: List<Expr>,
}
