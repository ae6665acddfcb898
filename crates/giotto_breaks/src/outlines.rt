//! Where the names and numbers of a program are in its text.

use giotto_rules::text::tokens::{Keyword, PlacedToken, Symbol, Token};
use giotto_tasks::names::Name;
use std::alloc::{AllocError, Global};

/// A name and its place.
#[derive(Clone, Copy)]
pub(crate) struct PlacedName<'a> {
    pub(crate) name: &'a Name,
    pub(crate) offset: usize,
}

/// A number and its place.
#[derive(Clone, Copy)]
pub(crate) struct PlacedNumber {
    pub(crate) value: u64,
    pub(crate) offset: usize,
}

/// The names of a task: its own, those of its ports, and those that its body assigns and reads.
#[derive(Drop)]
pub(crate) struct TaskOutline<'a> {
    pub(crate) name: PlacedName<'a>,
    pub(crate) inputs: Vec<PlacedName<'a>>,
    pub(crate) outputs: Vec<PlacedName<'a>>,
    pub(crate) states: Vec<PlacedName<'a>>,
    pub(crate) assigned: Vec<PlacedName<'a>>,
    pub(crate) read: Vec<PlacedName<'a>>,
}

/// What a driver of a mode does.
#[derive(Clone, Copy, Debug, PartialEq, Eq)]
pub(crate) enum DriverKind {
    Update,
    Switch,
    Invocation,
}

/// The names and numbers of an update, a switch or an invocation.
#[derive(Drop)]
pub(crate) struct DriverOutline<'a> {
    pub(crate) kind: DriverKind,
    pub(crate) frequency: PlacedNumber,
    /// The actuator, the target or the task.
    pub(crate) subject: Option<PlacedName<'a>>,
    pub(crate) read: Vec<PlacedName<'a>>,
    pub(crate) destinations: Vec<PlacedName<'a>>,
    /// How many arguments an invocation gives.
    pub(crate) arguments: usize,
}

/// The names and numbers of a mode.
#[derive(Drop)]
pub(crate) struct ModeOutline<'a> {
    pub(crate) name: PlacedName<'a>,
    pub(crate) period: PlacedNumber,
    pub(crate) drivers: Vec<DriverOutline<'a>>,
}

/// The names and numbers of a program, each list in text order.
#[derive(Drop)]
pub(crate) struct Outline<'a> {
    pub(crate) sensors: Vec<PlacedName<'a>>,
    pub(crate) actuators: Vec<PlacedName<'a>>,
    /// The lines that actuators drive.
    pub(crate) lines: Vec<PlacedNumber>,
    pub(crate) outputs: Vec<PlacedName<'a>>,
    pub(crate) tasks: Vec<TaskOutline<'a>>,
    pub(crate) modes: Vec<ModeOutline<'a>>,
    pub(crate) start: Option<PlacedName<'a>>,
}

/// Adds more names to these.
///
/// # Errors
/// Out of memory.
pub(crate) fn push_names<'a>(
    names: &mut Vec<PlacedName<'a>>,
    more: &[PlacedName<'a>],
) -> Result<(), AllocError> {
    for name in more {
        names.push(*name)?;
    }
    Ok(())
}

/// The outline of the program that these tokens spell.
///
/// # Errors
/// Out of memory.
pub(crate) fn outline_of<'a>(
    alloc: Global,
    tokens: &'a [PlacedToken],
) -> Result<Outline<'a>, AllocError> {
    let mut writer = Writer {
        alloc,
        outline: Outline {
            sensors: Vec::new(alloc),
            actuators: Vec::new(alloc),
            lines: Vec::new(alloc),
            outputs: Vec::new(alloc),
            tasks: Vec::new(alloc),
            modes: Vec::new(alloc),
            start: None,
        },
        part: Part::Nothing,
        depth: 0,
    };
    for (place, placed) in tokens.iter().enumerate() {
        let behind = tokens.get(place..).unwrap_or(&[]);
        writer.take(placed, behind)?;
    }
    let Writer {
        alloc: _,
        outline,
        part: _,
        depth: _,
    } = writer;
    Ok(outline)
}

// The part of a program that the next token is in.
#[derive(Clone, Copy, Debug, PartialEq, Eq)]
enum Part {
    Nothing,
    Sensor,
    Actuator,
    // The initial value of an actuator.
    Initial,
    ActuatorLine,
    Output,
    Task,
    Inputs,
    Outputs,
    States,
    Body,
    Mode,
    Period,
    Frequency,
    Guard,
    Subject,
    Rest,
    Start,
}

#[derive(Drop)]
struct Writer<'a> {
    alloc: Global,
    outline: Outline<'a>,
    part: Part,
    // How many braces of a body are open.
    depth: usize,
}

impl<'a> Writer<'a> {
    // Takes a token, the first of those that are left.
    fn take(&mut self, placed: &'a PlacedToken, left: &'a [PlacedToken]) -> Result<(), AllocError> {
        match &placed.token {
            Token::Keyword(keyword) => self.keyword(*keyword),
            Token::Name(name) => {
                let name = PlacedName {
                    name,
                    offset: placed.offset,
                };
                self.name(name, left)
            }
            Token::Number(value) => self.number(PlacedNumber {
                value: *value,
                offset: placed.offset,
            }),
            Token::Symbol(symbol) => {
                self.symbol(*symbol);
                Ok(())
            }
        }
    }

    fn keyword(&mut self, keyword: Keyword) -> Result<(), AllocError> {
        let in_head = matches!(self.part, Part::Inputs | Part::Outputs);
        self.part = match keyword {
            Keyword::Sensor => Part::Sensor,
            Keyword::Actuator => Part::Actuator,
            Keyword::Line if self.part == Part::Initial => Part::ActuatorLine,
            Keyword::Output if in_head => Part::Outputs,
            Keyword::Output => Part::Output,
            Keyword::Task => Part::Task,
            Keyword::State => Part::States,
            Keyword::Mode => Part::Mode,
            Keyword::Period => Part::Period,
            Keyword::ActFreq | Keyword::ExitFreq | Keyword::TaskFreq => Part::Frequency,
            Keyword::Do => Part::Subject,
            Keyword::Start => Part::Start,
            _ => self.part,
        };
        match keyword {
            Keyword::ActFreq => self.begin_driver(DriverKind::Update),
            Keyword::ExitFreq => self.begin_driver(DriverKind::Switch),
            Keyword::TaskFreq => self.begin_driver(DriverKind::Invocation),
            _ => Ok(()),
        }
    }

    fn begin_driver(&mut self, kind: DriverKind) -> Result<(), AllocError> {
        let alloc = self.alloc;
        let Some(mode) = self.outline.modes.last_mut() else {
            return Ok(());
        };
        mode.drivers.push(DriverOutline {
            kind,
            frequency: PlacedNumber {
                value: 0,
                offset: 0,
            },
            subject: None,
            read: Vec::new(alloc),
            destinations: Vec::new(alloc),
            arguments: 0,
        })?;
        Ok(())
    }

    fn symbol(&mut self, symbol: Symbol) {
        match (symbol, self.part) {
            (Symbol::OpenBrace, Part::Inputs | Part::Outputs | Part::States) => {
                self.part = Part::Body;
                self.depth = 1;
            }
            (Symbol::OpenBrace, Part::Body) => self.depth = self.depth.saturating_add(1),
            (Symbol::CloseBrace, Part::Body) => {
                self.depth = self.depth.saturating_sub(1);
                if self.depth == 0 {
                    self.part = Part::Nothing;
                }
            }
            (Symbol::Comma, Part::Rest) => {
                if let Some(driver) = self.driver() {
                    driver.arguments = driver.arguments.saturating_add(1);
                }
            }
            _ => {}
        }
    }

    // The driver that is being read.
    fn driver(&mut self) -> Option<&mut DriverOutline<'a>> {
        match self.outline.modes.last_mut() {
            Some(mode) => mode.drivers.last_mut(),
            None => None,
        }
    }

    fn number(&mut self, number: PlacedNumber) -> Result<(), AllocError> {
        match self.part {
            Part::ActuatorLine => self.outline.lines.push(number)?,
            Part::Period => {
                if let Some(mode) = self.outline.modes.last_mut() {
                    mode.period = number;
                }
                self.part = Part::Nothing;
            }
            Part::Frequency => {
                if let Some(driver) = self.driver() {
                    driver.frequency = number;
                }
                self.part = Part::Guard;
            }
            _ => {}
        }
        Ok(())
    }

    fn name(&mut self, name: PlacedName<'a>, left: &'a [PlacedToken]) -> Result<(), AllocError> {
        match self.part {
            Part::Sensor => {
                self.outline.sensors.push(name)?;
                self.part = Part::Nothing;
            }
            Part::Actuator => {
                self.outline.actuators.push(name)?;
                self.part = Part::Initial;
            }
            Part::Output => {
                self.outline.outputs.push(name)?;
                self.part = Part::Nothing;
            }
            Part::Start => self.outline.start = Some(name),
            Part::Task => self.begin_task(name)?,
            Part::Mode => self.begin_mode(name)?,
            Part::Inputs | Part::Outputs | Part::States | Part::Body => self.task_name(name, left)?,
            Part::Guard | Part::Subject | Part::Rest => self.driver_name(name, left)?,
            _ => {}
        }
        Ok(())
    }

    fn begin_task(&mut self, name: PlacedName<'a>) -> Result<(), AllocError> {
        let alloc = self.alloc;
        self.outline.tasks.push(TaskOutline {
            name,
            inputs: Vec::new(alloc),
            outputs: Vec::new(alloc),
            states: Vec::new(alloc),
            assigned: Vec::new(alloc),
            read: Vec::new(alloc),
        })?;
        self.part = Part::Inputs;
        Ok(())
    }

    fn begin_mode(&mut self, name: PlacedName<'a>) -> Result<(), AllocError> {
        let alloc = self.alloc;
        self.outline.modes.push(ModeOutline {
            name,
            period: PlacedNumber {
                value: 0,
                offset: 0,
            },
            drivers: Vec::new(alloc),
        })?;
        self.part = Part::Nothing;
        Ok(())
    }

    // A name of a task's head or body.
    fn task_name(
        &mut self,
        name: PlacedName<'a>,
        left: &'a [PlacedToken],
    ) -> Result<(), AllocError> {
        let part = self.part;
        let Some(task) = self.outline.tasks.last_mut() else {
            return Ok(());
        };
        match part {
            Part::Inputs => task.inputs.push(name)?,
            Part::Outputs => task.outputs.push(name)?,
            Part::States => task.states.push(name)?,
            _ if is_symbol(left.get(1), Symbol::Becomes) => task.assigned.push(name)?,
            _ => task.read.push(name)?,
        }
        Ok(())
    }

    // A name of an update, a switch or an invocation.
    fn driver_name(
        &mut self,
        name: PlacedName<'a>,
        left: &'a [PlacedToken],
    ) -> Result<(), AllocError> {
        let part = self.part;
        let gives_any = !is_symbol(left.get(2), Symbol::CloseParenthesis);
        let Some(driver) = self.driver() else {
            return Ok(());
        };
        match part {
            Part::Subject => {
                driver.subject = Some(name);
                driver.arguments = if gives_any { 1 } else { 0 };
                self.part = Part::Rest;
            }
            Part::Rest if is_symbol(left.get(1), Symbol::Becomes) => driver
                .destinations
                .push(name)?,
            _ => driver.read.push(name)?,
        }
        Ok(())
    }
}

fn is_symbol(placed: Option<&PlacedToken>, symbol: Symbol) -> bool {
    match placed {
        Some(placed) => matches!(&placed.token, Token::Symbol(found) if *found == symbol),
        None => false,
    }
}
