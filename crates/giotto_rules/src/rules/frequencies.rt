//! Rule 4: a period is 1 to 1,000,000 ticks; a frequency is at least 1 and divides the period.

ghost use Rattle.std.specs.Prelude.{◌≡◌, map};
ghost use Rattle.giotto_text.specs.ProgramTrees.{update_of, switch_of, invocation_of};
ghost use Rattle.giotto_rules.specs.Frequencies as spec;
ghost use Rattle.giotto_rules.specs.Rules as rules;

use giotto_text::programs::{Invocation, Program, Switch, Update};

/// Whether each period is 1 to 1,000,000 ticks, and each frequency is at least 1 and divides the period.
pub(crate) fn frequencies_divide(program: &Program) -> bool
    ensures { result ≡ rules.frequencies_divide program.now }
{
    for mode in program.modes() {
        let period = mode.period;
        if !(1 <= period && period <= 1_000_000) {
            return false;
        }
        if !(updates_divide(mode.updates.as_slice(), period)
            && switches_divide(mode.switches.as_slice(), period)
            && invocations_divide(mode.invocations.as_slice(), period))
        {
            return false;
        }
    }
    true
}

fn updates_divide(updates: &[Update], period: u64) -> bool
    ensures { result ≡ spec.updates_divide period (map update_of updates.now) }
{
    for update in updates {
        if !divides(update.frequency, period) {
            return false;
        }
    }
    true
}

fn switches_divide(switches: &[Switch], period: u64) -> bool
    ensures { result ≡ spec.switches_divide period (map switch_of switches.now) }
{
    for switch in switches {
        if !divides(switch.frequency, period) {
            return false;
        }
    }
    true
}

fn invocations_divide(invocations: &[Invocation], period: u64) -> bool
    ensures { result ≡ spec.invocations_divide period (map invocation_of invocations.now) }
{
    for invocation in invocations {
        if !divides(invocation.frequency, period) {
            return false;
        }
    }
    true
}

fn divides(frequency: u64, period: u64) -> bool
    ensures { result ≡ spec.divides frequency period }
{
    1 <= frequency && period % frequency == 0
}
