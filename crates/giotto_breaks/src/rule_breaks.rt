//! What breaks a rule, with the names concerned.

use giotto_tasks::names::Name;
use std::fmt;

/// A way in which a program breaks one of the eleven rules, with the names and numbers concerned.
#[derive(Clone, Copy)]
pub enum RuleBreak<'a> {
    /// Rule 1: a name that is already declared.
    DeclaredTwice {
        name: &'a Name,
    },
    /// Rule 1: an output that is already in the task's list.
    OutputTwice {
        name: &'a Name,
        task: &'a Name,
    },
    /// Rule 1: an input or a state whose name is already among those of the task.
    PortTwice {
        name: &'a Name,
        task: &'a Name,
    },
    /// Rule 1: an input or a state with a name that is declared outside of its task.
    PortDeclared {
        name: &'a Name,
        task: &'a Name,
    },
    /// Rule 1: a line that an earlier actuator drives.
    LineTwice {
        line: u64,
    },
    /// Rule 2: a name in a task's list of outputs that is not an output.
    NoOutput {
        name: &'a Name,
        task: &'a Name,
    },
    /// Rule 2: a name that an update writes, and that is not an actuator.
    NoActuator {
        name: &'a Name,
    },
    /// Rule 2: the target of a switch that is not a mode.
    NoTarget {
        name: &'a Name,
    },
    /// Rule 2: a destination of a switch that is not an output.
    NoDestination {
        name: &'a Name,
    },
    /// Rule 2: a name that is invoked, and that is not a task.
    NoTask {
        name: &'a Name,
    },
    /// Rule 2: a name that a driver reads, and that is not a sensor, an actuator or an output.
    NoPort {
        name: &'a Name,
    },
    /// Rule 3: a name that a body assigns, and that is not an output or a state of its task.
    Assigned {
        name: &'a Name,
        task: &'a Name,
    },
    /// Rule 3: a name that a body reads, and that is not a port of its task.
    Read {
        name: &'a Name,
        task: &'a Name,
    },
    /// Rule 4: a mode's period.
    Period {
        mode: &'a Name,
        period: u64,
    },
    /// Rule 4: a frequency in a mode of this period.
    Frequency {
        mode: &'a Name,
        period: u64,
        frequency: u64,
    },
    /// Rule 5: a task that the mode already invokes.
    InvokedTwice {
        task: &'a Name,
        mode: &'a Name,
    },
    /// Rule 6: a task that is invoked after another one with which it shares an output.
    SharedOutput {
        output: &'a Name,
        task: &'a Name,
        other: &'a Name,
        mode: &'a Name,
    },
    /// Rule 7: an actuator that the mode already updates.
    UpdatedTwice {
        actuator: &'a Name,
        mode: &'a Name,
    },
    /// Rule 8: the number of arguments that a task with this number of inputs is given.
    Arguments {
        task: &'a Name,
        inputs: usize,
        given: usize,
    },
    /// Rule 9: a sensor that an update reads.
    UpdateReadsSensor {
        name: &'a Name,
    },
    /// Rule 9: an actuator that a driver reads.
    ReadsActuator {
        name: &'a Name,
    },
    /// Rule 9: an output that a driver reads, and that belongs to no task that the mode invokes.
    ReadsOther {
        name: &'a Name,
        mode: &'a Name,
    },
    /// Rule 9: an output to which a switch gives a value, and that belongs to no task that its target invokes.
    GivesOther {
        name: &'a Name,
        target: &'a Name,
    },
    /// Rule 9: an output to which the switch already gives a value.
    GivesTwice {
        name: &'a Name,
    },
    /// Rule 10: a task, invoked with this period and frequency, that may be unfinished at a switch. The target invokes it with
    /// another period, or not at all.
    Unfinished {
        task: &'a Name,
        period: u64,
        frequency: u64,
        target: &'a Name,
        other: Option<u64>,
    },
    /// Rule 11: a name after `start` that is not a mode.
    NoStart {
        name: &'a Name,
    },
}

impl RuleBreak<'_> {
    /// The rule's number, 1 to 11.
    pub fn rule(&self) -> usize {
        match self {
            RuleBreak::DeclaredTwice { .. }
            | RuleBreak::OutputTwice { .. }
            | RuleBreak::PortTwice { .. }
            | RuleBreak::PortDeclared { .. }
            | RuleBreak::LineTwice { .. } => 1,
            RuleBreak::NoOutput { .. }
            | RuleBreak::NoActuator { .. }
            | RuleBreak::NoTarget { .. }
            | RuleBreak::NoDestination { .. }
            | RuleBreak::NoTask { .. }
            | RuleBreak::NoPort { .. } => 2,
            RuleBreak::Assigned { .. } | RuleBreak::Read { .. } => 3,
            RuleBreak::Period { .. } | RuleBreak::Frequency { .. } => 4,
            RuleBreak::InvokedTwice { .. } => 5,
            RuleBreak::SharedOutput { .. } => 6,
            RuleBreak::UpdatedTwice { .. } => 7,
            RuleBreak::Arguments { .. } => 8,
            RuleBreak::UpdateReadsSensor { .. }
            | RuleBreak::ReadsActuator { .. }
            | RuleBreak::ReadsOther { .. }
            | RuleBreak::GivesOther { .. }
            | RuleBreak::GivesTwice { .. } => 9,
            RuleBreak::Unfinished { .. } => 10,
            RuleBreak::NoStart { .. } => 11,
        }
    }
}

impl fmt::Display for RuleBreak<'_> {
    fn fmt<W: fmt::Write>(&self, f: &mut fmt::Formatter<W>) -> fmt::Result {
        match self {
            RuleBreak::DeclaredTwice { .. }
            | RuleBreak::OutputTwice { .. }
            | RuleBreak::PortTwice { .. }
            | RuleBreak::PortDeclared { .. }
            | RuleBreak::LineTwice { .. } => write_declared(f, self),
            RuleBreak::NoOutput { .. }
            | RuleBreak::NoActuator { .. }
            | RuleBreak::NoTarget { .. }
            | RuleBreak::NoDestination { .. }
            | RuleBreak::NoTask { .. }
            | RuleBreak::NoPort { .. }
            | RuleBreak::NoStart { .. } => write_kind(f, self),
            RuleBreak::UpdateReadsSensor { .. }
            | RuleBreak::ReadsActuator { .. }
            | RuleBreak::ReadsOther { .. }
            | RuleBreak::GivesOther { .. }
            | RuleBreak::GivesTwice { .. } => write_driver(f, self),
            RuleBreak::Assigned { .. } | RuleBreak::Read { .. } => write_body(f, self),
            RuleBreak::Period { .. } | RuleBreak::Frequency { .. } => write_period(f, self),
            _ => write_other(f, self),
        }
    }
}

// Rule 1.
fn write_declared<W: fmt::Write>(f: &mut fmt::Formatter<W>, what: &RuleBreak) -> fmt::Result {
    match what {
        RuleBreak::DeclaredTwice { name } => {
            let name = name.as_str();
            write!(f, "`{name}` is declared twice")
        }
        RuleBreak::OutputTwice { name, task } => {
            let (name, task) = (name.as_str(), task.as_str());
            write!(f, "`{name}` is listed twice among the outputs of `{task}`")
        }
        RuleBreak::PortTwice { name, task } => {
            let (name, task) = (name.as_str(), task.as_str());
            write!(
                f,
                "`{name}` is listed twice among the inputs and states of `{task}`"
            )
        }
        RuleBreak::PortDeclared { name, task } => {
            let (name, task) = (name.as_str(), task.as_str());
            write!(
                f,
                "the input or state `{name}` of `{task}` has a name that is also declared outside the task"
            )
        }
        RuleBreak::LineTwice { line } => write!(f, "two actuators drive line {line}"),
        _ => Ok(()),
    }
}

// Rules 2 and 11.
fn write_kind<W: fmt::Write>(f: &mut fmt::Formatter<W>, what: &RuleBreak) -> fmt::Result {
    match what {
        RuleBreak::NoOutput { name, task } => {
            let (name, task) = (name.as_str(), task.as_str());
            write!(
                f,
                "`{name}`, which `{task}` lists as an output, isn't an output"
            )
        }
        RuleBreak::NoActuator { name } => {
            let name = name.as_str();
            write!(f, "`{name}` isn't an actuator, but `actfreq` updates one")
        }
        RuleBreak::NoTarget { name } => {
            let name = name.as_str();
            write!(f, "`{name}` isn't a mode, but `exitfreq` switches to one")
        }
        RuleBreak::NoDestination { name } => {
            let name = name.as_str();
            write!(
                f,
                "`{name}` isn't an output, but a switch assigns only outputs"
            )
        }
        RuleBreak::NoTask { name } => {
            let name = name.as_str();
            write!(f, "`{name}` isn't a task, but `taskfreq` invokes one")
        }
        RuleBreak::NoPort { name } => {
            let name = name.as_str();
            write!(
                f,
                "`{name}` isn't a sensor, an actuator or an output, and nothing else can be read here"
            )
        }
        RuleBreak::NoStart { name } => {
            let name = name.as_str();
            write!(f, "unknown mode `{name}`")
        }
        _ => Ok(()),
    }
}

// Rule 9.
fn write_driver<W: fmt::Write>(f: &mut fmt::Formatter<W>, what: &RuleBreak) -> fmt::Result {
    match what {
        RuleBreak::UpdateReadsSensor { name } => {
            let name = name.as_str();
            write!(f, "an update reads the sensor `{name}`")
        }
        RuleBreak::ReadsActuator { name } => {
            let name = name.as_str();
            write!(f, "the actuator `{name}` is read")
        }
        RuleBreak::ReadsOther { name, mode } => {
            let (name, mode) = (name.as_str(), mode.as_str());
            write!(
                f,
                "`{name}` is read here, but isn't an output of a task that the mode `{mode}` invokes"
            )
        }
        RuleBreak::GivesOther { name, target } => {
            let (name, target) = (name.as_str(), target.as_str());
            write!(
                f,
                "`{name}` is assigned, but isn't an output of a task that the mode `{target}` invokes"
            )
        }
        RuleBreak::GivesTwice { name } => {
            let name = name.as_str();
            write!(f, "this switch assigns `{name}` twice")
        }
        _ => Ok(()),
    }
}

// Rule 3.
fn write_body<W: fmt::Write>(f: &mut fmt::Formatter<W>, what: &RuleBreak) -> fmt::Result {
    match what {
        RuleBreak::Assigned { name, task } => {
            let (name, task) = (name.as_str(), task.as_str());
            write!(
                f,
                "the body of `{task}` assigns `{name}`, which isn't an output or a state of `{task}`"
            )
        }
        RuleBreak::Read { name, task } => {
            let (name, task) = (name.as_str(), task.as_str());
            write!(
                f,
                "the body of `{task}` reads `{name}`, which isn't an input, a state or an output of `{task}`"
            )
        }
        _ => Ok(()),
    }
}

// Rule 4.
fn write_period<W: fmt::Write>(f: &mut fmt::Formatter<W>, what: &RuleBreak) -> fmt::Result {
    match what {
        RuleBreak::Period { mode, period } => {
            let mode = mode.as_str();
            write!(
                f,
                "the period of `{mode}` is {period}, but a period is 1 to 1,000,000 ticks"
            )
        }
        RuleBreak::Frequency { frequency: 0, .. } => {
            write!(f, "the frequency is 0, but a frequency is at least 1")
        }
        RuleBreak::Frequency {
            mode,
            period,
            frequency,
        } => {
            let mode = mode.as_str();
            write!(
                f,
                "the frequency {frequency} doesn't divide {period}, the period of `{mode}`"
            )
        }
        _ => Ok(()),
    }
}

// Rules 5 to 8, and 10.
fn write_other<W: fmt::Write>(f: &mut fmt::Formatter<W>, what: &RuleBreak) -> fmt::Result {
    match what {
        RuleBreak::InvokedTwice { task, mode } => {
            let (task, mode) = (task.as_str(), mode.as_str());
            write!(f, "`{task}` is invoked twice in mode `{mode}`")
        }
        RuleBreak::UpdatedTwice { actuator, mode } => {
            let (actuator, mode) = (actuator.as_str(), mode.as_str());
            write!(f, "`{actuator}` is updated twice in mode `{mode}`")
        }
        RuleBreak::Arguments {
            task,
            inputs,
            given,
        } => {
            let task = task.as_str();
            let inputs_word = if *inputs == 1 { "input" } else { "inputs" };
            let given_word = if *given == 1 { "argument" } else { "arguments" };
            write!(
                f,
                "`{task}` has {inputs} {inputs_word}, but this invocation has {given} {given_word}"
            )
        }
        RuleBreak::SharedOutput { .. } => write_shared(f, what),
        _ => write_unfinished(f, what),
    }
}

// Rule 6.
fn write_shared<W: fmt::Write>(f: &mut fmt::Formatter<W>, what: &RuleBreak) -> fmt::Result {
    let RuleBreak::SharedOutput {
        output,
        task,
        other,
        mode,
    } = what
    else {
        return Ok(());
    };
    let (output, task, other, mode) = (
        output.as_str(),
        task.as_str(),
        other.as_str(),
        mode.as_str(),
    );
    write!(
        f,
        "`{other}` and `{task}`, both invoked in mode `{mode}`, share the output `{output}`"
    )
}

// Rule 10.
fn write_unfinished<W: fmt::Write>(f: &mut fmt::Formatter<W>, what: &RuleBreak) -> fmt::Result {
    let RuleBreak::Unfinished {
        task,
        period,
        target,
        other,
        ..
    } = what
    else {
        return Ok(());
    };
    let (task, target) = (task.as_str(), target.as_str());
    match other {
        Some(other) => write!(
            f,
            "`{task}`, with the period {period}, may be unfinished at this switch, but `{target}` invokes it with the period {other}"
        ),
        None => write!(
            f,
            "`{task}`, with the period {period}, may be unfinished at this switch, but `{target}` doesn't invoke it"
        ),
    }
}
