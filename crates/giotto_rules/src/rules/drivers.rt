//! Rule 9: updates read only mode ports of their mode; switches and invocations may read sensors too. A switch's
//! destinations are mode ports of its target, each once.

ghost use Rattle.std.specs.Prelude.{◌≡◌, [], map, None, IfOk, IfSome};
ghost use Rattle.giotto_tasks.specs.Sound as sound;
ghost use Rattle.giotto_text.specs.ProgramTrees.{mode_of, update_of, switch_of, invocation_of};
ghost use Rattle.giotto_rules.specs.Declarations as declared;
ghost use Rattle.giotto_rules.specs.Drivers as spec;
ghost use Rattle.giotto_rules.specs.Rules as rules;

use crate::indexed::Indexed;
use crate::scopes::Scope;
use crate::{declarations, reads};
use giotto_tasks::index::Index;
use giotto_tasks::names::Name;
use giotto_text::programs::{Invocation, Mode, Switch, Update};
use std::alloc::{AllocError, Global};

/// Whether updates read only ports of their mode, and switches and invocations only these and sensors; and whether a
/// switch gives values only to ports of its target, each once. `ports` has the ports of each mode.
pub(crate) fn drivers_read_mode_ports(
    alloc: Global,
    program: &Indexed,
    ports: &[Index],
) -> Result<bool, AllocError>
    requires { ports.now ≡ map (declared.mode_ports program.now) program.now.modes }
    ensures { IfOk result (λ holds. holds ≡ rules.drivers_read_mode_ports program.now) }
{
    let sensors = Index::new(alloc, declarations::sensor_names(alloc, program.program())?)?;
    modes_fit(alloc, program, ports, &sensors)
}

// Whether the drivers of each mode read only what they may, given the ports of each mode and the sensors.
fn modes_fit(
    alloc: Global,
    program: &Indexed,
    ports: &[Index],
    sensors: &Index,
) -> Result<bool, AllocError>
    requires ports { ports.now ≡ map (declared.mode_ports program.now) program.now.modes }
    requires sensors { sensors.now ≡ declared.sensor_names program.now }
    ensures { IfOk result (λ holds. holds ≡ rules.drivers_read_mode_ports program.now) }
{
    let modes = program.modes();
    for i in 0..modes.len() {
        let mode = &modes[i];
        let own = &ports[i];
        let sources = Scope::joined(own, sensors);
        if !mode_drivers_fit(alloc, program, ports, own, &sources, mode)? {
            return Ok(false);
        }
    }
    Ok(true)
}

// Whether the drivers of a mode read only what they may. `ports` has the ports of each mode, `own` those of this mode,
// and `sources` those of this mode and the sensors.
fn mode_drivers_fit(
    alloc: Global,
    program: &Indexed,
    ports: &[Index],
    own: &Index,
    sources: &Scope,
    mode: &Mode,
) -> Result<bool, AllocError>
    requires each { ports.now ≡ map (declared.mode_ports program.now) program.now.modes }
    requires own { own.now ≡ declared.mode_ports program.now (mode_of mode.now) }
    requires sources { sources.now ≡ spec.readable_ports program.now (mode_of mode.now) }
    ensures { IfOk result (λ holds. holds ≡ spec.drivers_fit program.now (mode_of mode.now)) }
{
    if !updates_read(&Scope::new(own), mode.updates.as_slice()) {
        return Ok(false);
    }
    if !switches_fit(alloc, program, ports, sources, mode.switches.as_slice())? {
        return Ok(false);
    }
    Ok(invocations_read(sources, mode.invocations.as_slice()))
}

fn updates_read(ports: &Scope, updates: &[Update]) -> bool
    ensures { result ≡ spec.updates_read ports.now (map update_of updates.now) }
{
    for update in updates {
        if !reads::update_reads_only(ports, update) {
            return false;
        }
    }
    true
}

fn switches_fit(
    alloc: Global,
    program: &Indexed,
    ports: &[Index],
    sources: &Scope,
    switches: &[Switch],
) -> Result<bool, AllocError>
    requires { ports.now ≡ map (declared.mode_ports program.now) program.now.modes }
    ensures { IfOk result (λ holds. holds ≡ spec.switches_fit program.now sources.now (map switch_of switches.now)) }
{
    for switch in switches {
        if !switch_fits(alloc, program, ports, sources, switch)? {
            return Ok(false);
        }
    }
    Ok(true)
}

fn switch_fits(
    alloc: Global,
    program: &Indexed,
    ports: &[Index],
    sources: &Scope,
    switch: &Switch,
) -> Result<bool, AllocError>
    requires { ports.now ≡ map (declared.mode_ports program.now) program.now.modes }
    ensures { IfOk result
        (λ holds. holds ≡ spec.switch_fits program.now sources.now (switch_of switch.now)) }
{
    Ok(
        reads::switch_reads_only(sources, switch)
            && gives_to_target(program, ports, switch)
            && gives_once(alloc, switch)?,
    )
}

// Whether the switch gives each port at most one value.
fn gives_once(alloc: Global, switch: &Switch) -> Result<bool, AllocError>
    ensures { IfOk result
        (λ holds. holds ≡ sound.all_different (declared.destinations_of (switch_of switch.now))) }
{
    let destinations = declarations::destinations(alloc, switch)?;
    Ok(Index::new(alloc, destinations)?.all_different())
}

// Whether the switch gives values only to ports of its target.
fn gives_to_target(program: &Indexed, ports: &[Index], switch: &Switch) -> bool
    requires { ports.now ≡ map (declared.mode_ports program.now) program.now.modes }
    ensures { result ≡ spec.gives_to_target program.now (switch_of switch.now) }
{
    match ports_of_target(program, ports, &switch.target) {
        Some(names) => reads::switch_gives_only(names, switch),
        None => switch.destinations.as_slice().is_empty(),
    }
}

// The ports of the target mode, or `None` if there is no such mode.
fn ports_of_target<'a>(program: &Indexed, ports: &'a [Index], mode: &Name) -> Option<&'a Index>
    requires { ports.now ≡ map (declared.mode_ports program.now) program.now.modes }
    ensures found { IfSome result
        (λ names. names.now ≡ spec.ports_of_target program.now (declared.mode_named program.now mode.now)) }
    ensures missing { result ≡ None → spec.ports_of_target program.now (declared.mode_named program.now mode.now) ≡ [] }
{
    match program.place_of_mode(mode) {
        Some(place) => ports.get(place),
        None => None,
    }
}

fn invocations_read(sources: &Scope, invocations: &[Invocation]) -> bool
    ensures { result ≡ spec.invocations_read sources.now (map invocation_of invocations.now) }
{
    for invocation in invocations {
        if !reads::invocation_reads_only(sources, invocation) {
            return false;
        }
    }
    true
}
