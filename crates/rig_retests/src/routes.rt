//! Through which lines of the plant a change passes, as text.

use crate::chains::{Step, Through, chain_to};
use crate::facts::Facts;
use crate::plant_lines::{Direction, LineUse, PlantLines};
use crate::reaches::drives;
use crate::texts::text_of_chain;
use rig_model::config::TenantId;
use std::alloc::{AllocError, Global};

/// A driven line and a read line that the plant couples, with the ports of programs that use them, if there are any.
#[derive(Clone, Copy)]
struct Route<'a> {
    from: usize,
    to: usize,
    driver: Option<&'a LineUse>,
    reader: Option<&'a LineUse>,
}

/// Returns through what of the plant a change of `source` reaches `tenant`.
///
/// It is the coupling of the two, if the plant couples them, as `tick 0: plant line 3 (valve) -> line 0 (level)`. Else, if no binds lead from one to
/// the other, it is a shortest chain, as `alarm from guard.alarm, tick 0: plant line 3 (valve) -> line 0 (level)`. Else it is `-`.
///
/// # Errors
/// Out of memory.
pub fn text_through_plant(
    alloc: Global,
    facts: &Facts<'_>,
    tenant: TenantId,
    source: TenantId,
) -> Result<String, AllocError> {
    if drives(facts.config, facts.plant, tenant, source) {
        return text_of_route(alloc, facts, tenant, source);
    }
    if facts.retests.is_source(tenant, source) {
        return String::from_str(alloc, "-");
    }
    let Facts {
        config,
        plant,
        retests,
        reach: _,
    } = *facts;
    let steps = chain_to(alloc, config, plant, retests, tenant, source)?;
    let mut text = String::new(alloc);
    for step in &steps {
        if !text.is_empty() {
            text.push_str(", ")?;
        }
        let step = text_of_step(alloc, facts, step)?;
        text.push_str(step.as_str())?;
    }
    Ok(text)
}

// One step of a chain.
fn text_of_step(alloc: Global, facts: &Facts<'_>, step: &Step) -> Result<String, AllocError> {
    match step.through {
        Through::Plant => text_of_route(alloc, facts, step.tenant, step.source),
        Through::Binds => {
            let chain = facts.retests.chain(alloc, step.tenant, step.source)?;
            text_of_chain(alloc, facts.config, facts.retests, chain.as_slice())
        }
    }
}

// The coupling through which what `source` may drive can change what `tenant` may read, as `tick 0: plant line 3 (valve) -> line 0 (level)`.
//
// It is one whose lines are used by programs of the script, if there is any, and has the first tick before which both were given. Else it has no
// tick. Empty if there is no coupling.
fn text_of_route(
    alloc: Global,
    facts: &Facts<'_>,
    tenant: TenantId,
    source: TenantId,
) -> Result<String, AllocError> {
    let Some(route) = route_of(facts, tenant, source) else {
        return Ok(String::new(alloc));
    };
    let text = route.text(alloc)?;
    match route.tick() {
        Some(tick) => format!(in alloc; "tick {tick}: {text}"),
        None => Ok(text),
    }
}

/// Returns the coupling of a line that `source` may drive and one that `tenant` may read, as `plant line 3 (valve) -> line 0 (level)`. If
/// programs of the script use both, `\ntick 0` follows, with a backslash: the first tick before which both were given.
///
/// # Errors
/// Out of memory.
pub fn text_of_coupling(
    alloc: Global,
    lines: &PlantLines,
    tenant: TenantId,
    source: TenantId,
    from: usize,
    to: usize,
) -> Result<String, AllocError> {
    let route = route_between(lines, tenant, source, from, to);
    let text = route.text(alloc)?;
    match route.tick() {
        Some(tick) => format!(in alloc; "{text}\\ntick {tick}"),
        None => Ok(text),
    }
}

impl Route<'_> {
    // The first tick before which the programs that use both lines were given, if there are such programs.
    fn tick(&self) -> Option<u64> {
        match (self.driver, self.reader) {
            (Some(driver), Some(reader)) => Some(driver.tick.max(reader.tick)),
            _ => None,
        }
    }

    // The two lines, with the ports that use them.
    fn text(&self, alloc: Global) -> Result<String, AllocError> {
        let from = text_of_end(alloc, self.from, self.driver)?;
        let to = text_of_end(alloc, self.to, self.reader)?;
        format!(in alloc; "plant {from} -> {to}")
    }
}

// A line, with the port that uses it.
fn text_of_end(
    alloc: Global,
    line: usize,
    line_use: Option<&LineUse>,
) -> Result<String, AllocError> {
    match line_use {
        Some(line_use) => {
            let port = line_use.port.as_str();
            format!(in alloc; "line {line} ({port})")
        }
        None => format!(in alloc; "line {line}"),
    }
}

// The first coupling from a line that `source` may drive to one that `tenant` may read, those first that programs use at both ends.
fn route_of<'a>(facts: &Facts<'a>, tenant: TenantId, source: TenantId) -> Option<Route<'a>> {
    let tenants = facts.config.tenants();
    let driver = tenants.get(source)?;
    let reader = tenants.get(tenant)?;
    let mut first = None;
    for &from in driver.budgets.writes.as_slice() {
        for &to in reader.budgets.reads.as_slice() {
            if !facts.plant.is_coupled(from, to) {
                continue;
            }
            let route = route_between(facts.retests.plant_lines(), tenant, source, from, to);
            if route.driver.is_some() && route.reader.is_some() {
                return Some(route);
            }
            first = first.or(Some(route));
        }
    }
    first
}

// The coupling of two lines.
fn route_between<'a>(
    lines: &'a PlantLines,
    tenant: TenantId,
    source: TenantId,
    from: usize,
    to: usize,
) -> Route<'a> {
    Route {
        from,
        to,
        driver: lines.find(source, Direction::Driven, from),
        reader: lines.find(tenant, Direction::Read, to),
    }
}
