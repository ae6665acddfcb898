//! The budgets of a tenant that apply to a program.

ghost use Rattle.std.specs.Prelude.{◌≡◌};
ghost use Rattle.std.specs.List.{list_all};
ghost use Rattle.rig_model.specs.rules.Declarations.{lines_read, lines_written};
ghost use Rattle.rig_model.specs.config.Roster.{may_use};
ghost use Rattle.rig_model.specs.Admission.{broken_budget, uses_own_lines};

use giotto_check::Checked;
use rig_model::config::Budgets;
use rig_model::lines::replies::Budget;
use rig_model::text::programs::{Program, Source};

/// The first budget that a program is over. `None` if it is within all. The budgets are checked in this order: `Bytes`, the length of its
/// text, which is `bytes` bytes with all blanks; `Ports`, all its ports, with inputs and states of tasks; `Tasks`; `Modes`; `Steps`, its
/// greatest cost; `Lines`, broken if a sensor reads a line that the tenant may not read, or an actuator drives one that it may not drive.
/// The cost and the number of ports come from the program's check, so no cost is computed here.
pub fn broken_budget(budgets: &Budgets, bytes: usize, checked: &Checked) -> Option<Budget>
    ensures { result ≡ broken_budget budgets.now bytes checked.now }
{
    let program = checked.program();
    if bytes > budgets.bytes {
        Some(Budget::Bytes)
    } else if checked.slots() > budgets.ports {
        Some(Budget::Ports)
    } else if program.tasks().len() > budgets.tasks {
        Some(Budget::Tasks)
    } else if program.modes().len() > budgets.modes {
        Some(Budget::Modes)
    } else if checked.greatest_cost() > budgets.steps {
        Some(Budget::Steps)
    } else if !uses_own_lines(budgets, program) {
        Some(Budget::Lines)
    } else {
        None
    }
}

// Whether the program's sensors read, and its actuators drive, only lines that the tenant may read or drive.
fn uses_own_lines(budgets: &Budgets, program: &Program) -> bool
    ensures { result ≡ uses_own_lines budgets.now program.now }
{
    let reads = budgets.reads.as_slice();
    let writes = budgets.writes.as_slice();
    may_read(reads, program) && may_drive(writes, program)
}

// Whether the program's sensors read only these lines.
fn may_read(lines: &[usize], program: &Program) -> bool
    ensures { result ≡ list_all (may_use lines.now) (lines_read program.now) }
{
    let sensors = program.sensors();
    for sensor in sensors {
        if let Source::Line(line) = sensor.source {
            if !may_use(lines, line) {
                return false;
            }
        }
    }
    true
}

// Whether the program's actuators drive only these lines.
fn may_drive(lines: &[usize], program: &Program) -> bool
    ensures { result ≡ list_all (may_use lines.now) (lines_written program.now) }
{
    let actuators = program.actuators();
    for actuator in actuators {
        if let Some(line) = actuator.line {
            if !may_use(lines, line) {
                return false;
            }
        }
    }
    true
}

// Whether the line is among these.
fn may_use(lines: &[usize], line: u64) -> bool
    ensures { result ≡ may_use lines.now line }
{
    lines.iter().any(|other| *other as u64 == line)
}
