//! Finds each place that breaks a rule: a file for each group of rules.

use crate::outlines::{Outline, PlacedName, PlacedNumber};
use crate::rule_breaks::RuleBreak;
use giotto_tasks::names::Name;
use std::alloc::{AllocError, Global};

mod bodies;
mod declared;
mod drivers;
mod frequencies;
mod invocations;
mod kinds;
mod switches;

/// A range of bytes of the text.
#[derive(Clone, Copy, Debug, PartialEq, Eq)]
pub(crate) struct Site {
    pub(crate) offset: usize,
    pub(crate) len: usize,
}

impl Site {
    /// How many bytes of this text it has. For a number, all of its digits.
    pub(crate) fn len_in(&self, text: &str) -> usize {
        let digits = text
            .as_bytes()
            .iter()
            .skip(self.offset)
            .take_while(|byte| byte.is_ascii_digit())
            .count();
        self.len.max(digits)
    }
}

/// A place that breaks a rule, and another place that belongs to it, with the words that are reported about that one.
#[derive(Clone, Copy)]
pub(crate) struct Break<'a> {
    pub(crate) what: RuleBreak<'a>,
    pub(crate) site: Site,
    pub(crate) other: Option<(Site, &'static str)>,
}

/// A name that breaks a rule, with no other place.
pub(crate) fn alone<'a>(what: RuleBreak<'a>, name: PlacedName<'a>) -> Break<'a> {
    Break {
        what,
        site: site_of(name),
        other: None,
    }
}

/// Each place that breaks this rule, in text order.
///
/// # Errors
/// Out of memory.
pub(crate) fn breaks_of<'a>(
    alloc: Global,
    rule: usize,
    outline: &Outline<'a>,
) -> Result<Vec<Break<'a>>, AllocError> {
    let mut breaks = Vec::new(alloc);
    match rule {
        1 => declared::declared_twice(alloc, outline, &mut breaks)?,
        2 => kinds::wrong_kinds(outline, &mut breaks)?,
        3 => bodies::other_ports(outline, &mut breaks)?,
        4 => frequencies::not_dividing(outline, &mut breaks)?,
        5 => invocations::invoked_twice(outline, &mut breaks)?,
        6 => invocations::sharing(outline, &mut breaks)?,
        7 => invocations::updated_twice(outline, &mut breaks)?,
        8 => invocations::wrong_arguments(outline, &mut breaks)?,
        9 => drivers::wrong_reads(alloc, outline, &mut breaks)?,
        10 => switches::unfinished(outline, &mut breaks)?,
        _ => kinds::no_start(outline, &mut breaks)?,
    }
    Ok(breaks)
}

/// The place of a name.
pub(crate) fn site_of(name: PlacedName) -> Site {
    Site {
        offset: name.offset,
        len: name.name.len(),
    }
}

/// The place of a number: its first digit.
pub(crate) fn site_of_number(number: PlacedNumber) -> Site {
    Site {
        offset: number.offset,
        len: 1,
    }
}

/// The first of `names` that is this name.
pub(crate) fn find_name<'a>(names: &[PlacedName<'a>], name: &Name) -> Option<PlacedName<'a>> {
    for placed in names {
        if *placed.name == *name {
            return Some(*placed);
        }
    }
    None
}

/// Whether one of `names` is this name.
pub(crate) fn is_among(names: &[PlacedName], name: &Name) -> bool {
    find_name(names, name).is_some()
}
