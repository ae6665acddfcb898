//! The arguments of a subcommand.

use clap::{Arg, ArgAction, value_parser};
use std::alloc::{AllocError, Global};

/// An argument of a subcommand.
#[derive(Clone, Copy)]
pub(crate) struct Argument {
    pub(crate) id: &'static str,
    pub(crate) form: Form,
    pub(crate) help: &'static str,
    /// The arguments that can't be given with it.
    pub(crate) conflicts: [Option<&'static str>; 2],
    /// The argument that has to be given with it.
    pub(crate) needs: Option<&'static str>,
}

/// How an argument is written.
#[derive(Clone, Copy)]
pub(crate) enum Form {
    /// The flag `--ID`.
    Flag,
    /// The option `--ID VALUE`, with the name of its values.
    Option(&'static str, Values),
    /// The option `--ID VALUE`, which is required. If there is a letter, it may be given with that instead of the id.
    Required(Option<char>, &'static str),
    /// A positional argument, which is required.
    Positional(&'static str, Values),
    /// A positional argument, which may be left out.
    File(&'static str),
    /// The option `--ID VALUE`, with the name of its values. It may be given again, and have several values with commas between them.
    Options(&'static str),
    /// All positional arguments, any number.
    Files(&'static str),
    /// All positional arguments, at least one.
    RequiredFiles(&'static str),
}

/// The values that an argument takes.
#[derive(Clone, Copy)]
pub(crate) enum Values {
    Text,
    /// 0 to 65,535, as a `u16`.
    AnyPort,
    /// 1 to 65,535, as a `u16`.
    Port,
    /// 1 to 64, as a `u8`.
    Workers,
    /// 1 to 86,400, as a `u32`.
    Seconds,
    /// 1 to 65,536, as a `u32`.
    Connections,
    /// 0 to 9,223,372,036,854,775,807, as a `u64`.
    Difference,
    /// The number of an instant, as a `u64`.
    Tick,
}

impl Argument {
    /// Returns the argument, with its help.
    ///
    /// # Errors
    /// Out of memory.
    pub(crate) fn arg<'a>(&self, alloc: Global) -> Result<Arg<'a>, AllocError> {
        let mut arg = self.form.arg(alloc, self.id).help(self.help);
        for other in self.conflicts {
            if let Some(other) = other {
                arg = arg.conflicts_with(other)?;
            }
        }
        match self.needs {
            None => Ok(arg),
            Some(other) => arg.requires_arg(other),
        }
    }
}

impl Form {
    // The argument with this id.
    fn arg<'a>(&self, alloc: Global, id: &'static str) -> Arg<'a> {
        let arg = Arg::new(alloc, id);
        match self {
            Form::Flag => arg.long(id).action(ArgAction::SetTrue),
            Form::Option(name, values) => values.of(named(arg, *name).long(id)),
            Form::Required(letter, name) => {
                with_letter(named(arg, *name).long(id).required(true), *letter)
            }
            Form::Positional(name, values) => values.of(named(arg, *name).required(true)),
            Form::File(name) => named(arg, *name),
            Form::Options(name) => listed(arg, *name).long(id),
            Form::Files(name) => all(arg, *name),
            Form::RequiredFiles(name) => all(arg, *name).required(true),
        }
    }
}

// An argument with one value, which has this name.
fn named<'a>(arg: Arg<'a>, name: &'static str) -> Arg<'a> {
    arg.value_name(name).action(ArgAction::Set)
}

// An argument with one value or more, which have this name.
fn all<'a>(arg: Arg<'a>, name: &'static str) -> Arg<'a> {
    arg.value_name(name).num_args(1..).action(ArgAction::Append)
}

// An argument with values that have this name: one each time, or several with commas between them.
fn listed<'a>(arg: Arg<'a>, name: &'static str) -> Arg<'a> {
    arg.value_name(name)
        .action(ArgAction::Append)
        .value_delimiter(',')
}

// An argument that may also be given with this letter, if there is one.
fn with_letter<'a>(arg: Arg<'a>, letter: Option<char>) -> Arg<'a> {
    match letter {
        Some(letter) => arg.short(letter),
        None => arg,
    }
}

impl Values {
    // An argument that takes these values.
    fn of<'a>(&self, arg: Arg<'a>) -> Arg<'a> {
        match self {
            Values::Text => arg,
            Values::AnyPort => arg.value_parser(value_parser!(u16)),
            Values::Port => arg.value_parser(value_parser!(u16).range(1..65536)),
            Values::Workers => arg.value_parser(value_parser!(u8).range(1..65)),
            Values::Seconds => arg.value_parser(value_parser!(u32).range(1..86401)),
            Values::Tick => arg.value_parser(value_parser!(u64)),
            Values::Connections => arg.value_parser(value_parser!(u32).range(1..65537)),
            Values::Difference => arg.value_parser(value_parser!(u64).range(0..=i64::MAX)),
        }
    }
}
