//! The budget of a tenant that a program exceeds, and where.

ghost use Rattle.std.specs.Prelude.{◌≡◌, ◌++◌, ◌∷◌, [], IfOk, IfSome, OnOk, codes, length, option_map, string_bytes};
ghost use Rattle.std.specs.List.{flat_map};
ghost use Rattle.giotto_reports.specs.Parts.{body, drivers_of, part_of, parts_of};
ghost use Rattle.rig_model.specs.text.ProgramTrees.{actuator_of, mode_of, sensor_of, task_of};
ghost use Rattle.rig_model.specs.declared.text.programs.Actuator.{Actuator as AnyActuator};
ghost use Rattle.rig_model.specs.declared.text.programs.Invocation.{Invocation as AnyInvocation};
ghost use Rattle.rig_model.specs.declared.text.programs.Mode.{Mode as AnyMode};
ghost use Rattle.rig_model.specs.declared.text.programs.Sensor.{Sensor as AnySensor};
ghost use Rattle.rig_model.specs.declared.text.programs.Switch.{Switch as AnySwitch};
ghost use Rattle.rig_model.specs.declared.text.programs.Task.{Task as AnyTask};
ghost use Rattle.rig_model.specs.declared.text.programs.Update.{Update as AnyUpdate};
ghost use Rattle.rig_model.specs.config.Roster.{may_use};
ghost use Rattle.rig_model.specs.Admission.{broken_budget};
ghost use Rattle.program_checks.specs.Budgets.{heading_of, row_of, row_of_lines, text_of_budgets};
ghost use Rattle.program_checks.specs.Excess.{AreOver, words_of_actuator, words_of_cost, words_of_line, words_of_number, words_of_part, words_of_sensor, words_over, rule_of_budget};
ghost use Rattle.program_checks.specs.inner.Telling.{AreTold, invocation_in, switch_in, update_in};
ghost use Rattle.program_checks.specs.declared.budgets.OverBudget.{OverBudget as AnyOverBudget};

use crate::numbers::text_of_numbers;
use crate::spots::{Spot, Spots};
use giotto_check::Checked;
use giotto_faults::findings::{Finding, Severity};
use giotto_reports::parts::Part;
use rig_model::config::{Budgets, TenantConfig};
use rig_model::lines::replies::Budget;
use rig_model::text::programs::{Actuator, Mode, Program, Sensor, Source, Task};
use rig_model::text::tokens::Keyword;
use std::alloc::{AllocError, Global};
use tenant_programs::budgets::broken_budget;

/// A budget that a program exceeds, with the findings that report it.
#[derive(Drop)]
pub struct OverBudget {
    /// The first budget that the program exceeds.
    pub budget: Budget,
    /// In text order.
    pub findings: Vec<Finding>,
}

/// A program that is compared with the budgets of a tenant.
#[derive(Clone, Copy)]
pub struct Held<'a> {
    pub tenant: &'a TenantConfig,
    pub checked: &'a Checked,
    /// The length of its text in bytes, as the host would receive it.
    pub bytes: usize,
}

/// The first budget of the tenant that a program exceeds. `None` if it exceeds none. `text` is the program's text.
///
/// # Errors
/// Out of memory.
pub fn over_budget(alloc: Global, held: &Held, text: &str) -> Result<Option<OverBudget>, AllocError>
    ensures budget { IfOk result (λ over. option_map (λ (o : AnyOverBudget). o.budget) over ≡ broken_budget held.now.tenant.now.budgets held.now.bytes held.now.checked.now) }
    ensures findings { IfOk result (λ over. IfSome over (λ o. AreOver o.budget (words_over held.now.tenant.now held.now.bytes held.now.checked.now o.budget) o.findings.items)) }
{
    match broken_budget(&held.tenant.budgets, held.bytes, held.checked) {
        None => Ok(None),
        Some(budget) => Ok(Some(OverBudget {
            budget,
            findings: findings_of(alloc, held, budget, text)?,
        })),
    }
}

/// Each number of the program next to the tenant's budget, on one line each.
///
/// # Errors
/// Out of memory.
pub fn text_of_budgets(alloc: Global, held: &Held) -> Result<String, AllocError>
    ensures { IfOk result (λ text. string_bytes text ≡ text_of_budgets held.now.tenant.now held.now.bytes held.now.checked.now) }
{
    let budgets = &held.tenant.budgets;
    let checked = held.checked;
    let mut text = heading(alloc, held.tenant)?;
    add_row(alloc, &mut text, "bytes", held.bytes, budgets.bytes)?;
    add_row(alloc, &mut text, "ports", checked.slots(), budgets.ports)?;
    add_row(alloc, &mut text, "tasks", tasks_of(checked), budgets.tasks)?;
    add_row(alloc, &mut text, "modes", modes_of(checked), budgets.modes)?;
    add_steps(alloc, &mut text, checked.greatest_cost(), budgets.steps)?;
    add_lines(alloc, &mut text, budgets)?;
    Ok(text)
}

// Says whose budgets they are.
fn heading(alloc: Global, tenant: &TenantConfig) -> Result<String, AllocError>
    ensures { IfOk result (λ text. string_bytes text ≡ heading_of tenant.now) }
{
    let name = tenant.name.as_str();
    format!(in alloc; "compared with the budgets of {name}:\n")
}

// How many tasks a program has.
fn tasks_of(checked: &Checked) -> usize
    ensures { result ≡ length checked.now.tasks }
{
    checked.program().tasks().len()
}

// How many modes it has.
fn modes_of(checked: &Checked) -> usize
    ensures { result ≡ length checked.now.modes }
{
    checked.program().modes().len()
}

// Adds a number next to its budget.
fn add_row(
    alloc: Global,
    text: &mut String,
    word: &str,
    has: usize,
    may: usize,
) -> Result<(), AllocError>
    ensures { OnOk result (string_bytes text.new ≡ string_bytes text.old ++ row_of word.now has may) }
{
    let row = format!(in alloc; "  {word}: {has} of {may}\n")?;
    text.push_str(row.as_str())
}

// Adds the steps next to their budget.
fn add_steps(alloc: Global, text: &mut String, has: u64, may: u64) -> Result<(), AllocError>
    ensures { OnOk result (string_bytes text.new ≡ string_bytes text.old ++ row_of (codes "steps") has may) }
{
    let row = format!(in alloc; "  steps: {has} of {may}\n")?;
    text.push_str(row.as_str())
}

// Adds the lines that a tenant may use.
fn add_lines(alloc: Global, text: &mut String, budgets: &Budgets) -> Result<(), AllocError>
    ensures { OnOk result (string_bytes text.new ≡ string_bytes text.old ++ row_of_lines budgets.now) }
{
    let row = row_of_lines(alloc, budgets)?;
    text.push_str(row.as_str())
}

fn row_of_lines(alloc: Global, budgets: &Budgets) -> Result<String, AllocError>
    ensures { IfOk result (λ row. string_bytes row ≡ row_of_lines budgets.now) }
{
    let reads = text_of_numbers(alloc, budgets.reads.as_slice())?;
    let writes = text_of_numbers(alloc, budgets.writes.as_slice())?;
    format!(in alloc;
        "  lines: may read {}; may drive {}\n",
        reads.as_str(),
        writes.as_str()
    )
}

// The findings about a program that exceeds this budget.
fn findings_of(
    alloc: Global,
    held: &Held,
    budget: Budget,
    text: &str,
) -> Result<Vec<Finding>, AllocError>
    ensures { IfOk result (λ findings. AreOver budget (words_over held.now.tenant.now held.now.bytes held.now.checked.now budget) findings.items) }
{
    let spots = Spots::of(alloc, text)?;
    let over = Over {
        alloc,
        held: *held,
        budget,
    };
    let mut findings = Vec::new(alloc);
    over.tell(&mut findings, &spots)?;
    Ok(findings)
}

// A budget that a program exceeds.
#[derive(Clone, Copy)]
struct Over<'a> {
    alloc: Global,
    held: Held<'a>,
    budget: Budget,
}

impl Over<'_> {
    // Adds a finding. Only the first one names the budget.
    fn add(
        &self,
        findings: &mut Vec<Finding>,
        spot: Spot,
        message: String,
        help: Option<String>,
    ) -> Result<(), AllocError>
        ensures { OnOk result (AreTold self.now.budget (string_bytes message ∷ []) findings.old.items findings.new.items) }
    {
        let rule = if findings.is_empty() {
            Some(self.rule()?)
        } else {
            None
        };
        findings.push(Finding {
            severity: Severity::Error,
            offset: spot.offset,
            len: spot.len,
            message,
            rule,
            help,
        })?;
        Ok(())
    }

    // The words about the budget.
    fn rule(&self) -> Result<String, AllocError>
        ensures { IfOk result (λ rule. string_bytes rule ≡ rule_of_budget self.now.budget) }
    {
        let word = self.budget.as_str();
        format!(in self.alloc; "budget {word}: the host answers `err budget {word}`")
    }

    // Adds the findings about the budget.
    fn tell(&self, findings: &mut Vec<Finding>, spots: &Spots) -> Result<(), AllocError>
        ensures { OnOk result (AreTold self.now.budget (words_over self.now.held.tenant.now self.now.held.bytes self.now.held.checked.now self.now.budget) findings.old.items findings.new.items) }
    {
        let (budgets, checked) = (&self.held.tenant.budgets, self.held.checked);
        match self.budget {
            Budget::Bytes => {
                self.number(
                    findings,
                    "bytes",
                    self.held.bytes,
                    budgets.bytes,
                    Spot::front(),
                )
            }
            Budget::Ports => {
                self.number(
                    findings,
                    "ports",
                    checked.slots(),
                    budgets.ports,
                    Spot::front(),
                )
            }
            Budget::Tasks => {
                let spot = spots.task(budgets.tasks);
                self.number(findings, "tasks", tasks_of(checked), budgets.tasks, spot)
            }
            Budget::Modes => {
                let spot = spots.mode(budgets.modes);
                self.number(findings, "modes", modes_of(checked), budgets.modes, spot)
            }
            Budget::Steps => self.costly_parts(findings, checked.program(), spots),
            Budget::Lines => self.foreign_lines(findings, checked.program(), spots),
            Budget::Offers | Budget::Binds => Ok(()),
        }
    }

    // Adds a finding for a number that is above its budget.
    fn number(
        &self,
        findings: &mut Vec<Finding>,
        what: &str,
        has: usize,
        may: usize,
        spot: Spot,
    ) -> Result<(), AllocError>
        ensures { OnOk result (AreTold self.now.budget (words_of_number self.now.held.tenant.now what.now has may ∷ []) findings.old.items findings.new.items) }
    {
        let tenant = self.held.tenant.name.as_str();
        let message = format!(in self.alloc;
            "the program has {has} {what}, and one of `{tenant}` may have {may}"
        )?;
        self.add(findings, spot, message, None)
    }

    // Adds a finding for each part that costs more than the budget.
    fn costly_parts(
        &self,
        findings: &mut Vec<Finding>,
        program: &Program,
        spots: &Spots,
    ) -> Result<(), AllocError>
        ensures { OnOk result (AreTold self.now.budget (flat_map (words_of_part self.now.held.tenant.now) (parts_of program.now)) findings.old.items findings.new.items) }
    {
        self.costly_bodies(findings, program.tasks(), spots)?;
        self.costly_modes(findings, program.modes(), spots)?;
        Ok(())
    }

    // Adds those for bodies.
    fn costly_bodies(
        &self,
        findings: &mut Vec<Finding>,
        tasks: &[Task],
        spots: &Spots,
    ) -> Result<(), AllocError>
        ensures { OnOk result (AreTold self.now.budget (flat_map (λ (t : AnyTask). words_of_part self.now.held.tenant.now (body (task_of t))) tasks.now) findings.old.items findings.new.items) }
    {
        for (place, task) in tasks.iter().enumerate() {
            self.costly_part(findings, &Part::Body(task), spots.task(place))?;
        }
        Ok(())
    }

    // Adds those for drivers.
    fn costly_modes(
        &self,
        findings: &mut Vec<Finding>,
        modes: &[Mode],
        spots: &Spots,
    ) -> Result<(), AllocError>
        ensures { OnOk result (AreTold self.now.budget (flat_map (λ (m : AnyMode). flat_map (words_of_part self.now.held.tenant.now) (drivers_of (mode_of m))) modes.now) findings.old.items findings.new.items) }
    {
        for (place, mode) in modes.iter().enumerate() {
            self.costly_drivers(findings, mode, place, spots)?;
        }
        Ok(())
    }

    fn costly_drivers(
        &self,
        findings: &mut Vec<Finding>,
        mode: &Mode,
        place: usize,
        spots: &Spots,
    ) -> Result<(), AllocError>
        ensures { OnOk result (AreTold self.now.budget (flat_map (words_of_part self.now.held.tenant.now) (drivers_of (mode_of mode.now))) findings.old.items findings.new.items) }
    {
        self.costly_updates(findings, mode, place, spots)?;
        self.costly_switches(findings, mode, place, spots)?;
        self.costly_invocations(findings, mode, place, spots)?;
        Ok(())
    }

    fn costly_updates(
        &self,
        findings: &mut Vec<Finding>,
        mode: &Mode,
        place: usize,
        spots: &Spots,
    ) -> Result<(), AllocError>
        ensures { OnOk result (AreTold self.now.budget (flat_map (λ (u : AnyUpdate). words_of_part self.now.held.tenant.now (update_in mode.now u)) mode.now.updates) findings.old.items findings.new.items) }
    {
        let updates = mode.updates.as_slice();
        for (one, update) in updates.iter().enumerate() {
            let spot = spots.driver(place, Keyword::ActFreq, one);
            self.costly_part(findings, &Part::Update(mode, update), spot)?;
        }
        Ok(())
    }

    fn costly_switches(
        &self,
        findings: &mut Vec<Finding>,
        mode: &Mode,
        place: usize,
        spots: &Spots,
    ) -> Result<(), AllocError>
        ensures { OnOk result (AreTold self.now.budget (flat_map (λ (s : AnySwitch). words_of_part self.now.held.tenant.now (switch_in mode.now s)) mode.now.switches) findings.old.items findings.new.items) }
    {
        let switches = mode.switches.as_slice();
        for (one, switch) in switches.iter().enumerate() {
            let spot = spots.driver(place, Keyword::ExitFreq, one);
            self.costly_part(findings, &Part::Switch(mode, switch), spot)?;
        }
        Ok(())
    }

    fn costly_invocations(
        &self,
        findings: &mut Vec<Finding>,
        mode: &Mode,
        place: usize,
        spots: &Spots,
    ) -> Result<(), AllocError>
        ensures { OnOk result (AreTold self.now.budget (flat_map (λ (i : AnyInvocation). words_of_part self.now.held.tenant.now (invocation_in mode.now i)) mode.now.invocations) findings.old.items findings.new.items) }
    {
        let invocations = mode.invocations.as_slice();
        for (one, invocation) in invocations.iter().enumerate() {
            let spot = spots.driver(place, Keyword::TaskFreq, one);
            self.costly_part(findings, &Part::Invocation(mode, invocation), spot)?;
        }
        Ok(())
    }

    // Adds a finding for a part, if it costs more than the budget.
    fn costly_part(
        &self,
        findings: &mut Vec<Finding>,
        part: &Part,
        spot: Spot,
    ) -> Result<(), AllocError>
        ensures { OnOk result (AreTold self.now.budget (words_of_part self.now.held.tenant.now (part_of part.now)) findings.old.items findings.new.items) }
    {
        if part.cost() <= self.held.tenant.budgets.steps {
            return Ok(());
        }
        let message = self.words_of_cost(part)?;
        let help = self.help_on_costs(findings.is_empty())?;
        self.add(findings, spot, message, help)?;
        Ok(())
    }

    // The message about a part that costs more.
    fn words_of_cost(&self, part: &Part) -> Result<String, AllocError>
        ensures { IfOk result (λ words. string_bytes words ≡ words_of_cost self.now.held.tenant.now (part_of part.now)) }
    {
        let (cost, may) = (part.cost(), self.held.tenant.budgets.steps);
        let tenant = self.held.tenant.name.as_str();
        format!(in self.alloc; "{part} costs {cost} steps, and one of `{tenant}` may cost {may}")
    }

    // The help on how costs are counted. Only the first finding has it.
    fn help_on_costs(&self, is_first: bool) -> Result<Option<String>, AllocError> {
        if !is_first {
            return Ok(None);
        }
        Ok(Some(String::from_str(
            self.alloc,
            "an assignment costs 1, and each operator 1; an `if` costs 1, its condition and the block of it that costs more; a `repeat` costs 1, and as often as it repeats 1 and its block",
        )?))
    }

    // Adds a finding for each line that the tenant may not use.
    fn foreign_lines(
        &self,
        findings: &mut Vec<Finding>,
        program: &Program,
        spots: &Spots,
    ) -> Result<(), AllocError>
        ensures { OnOk result (AreTold self.now.budget (flat_map (words_of_sensor self.now.held.tenant.now) program.now.sensors ++ flat_map (words_of_actuator self.now.held.tenant.now) program.now.actuators)
            findings.old.items findings.new.items) }
    {
        self.foreign_sensors(findings, program.sensors(), spots)?;
        self.foreign_actuators(findings, program.actuators(), spots)?;
        Ok(())
    }

    // Adds a finding for each line that a sensor reads and that the tenant may not read.
    fn foreign_sensors(
        &self,
        findings: &mut Vec<Finding>,
        sensors: &[Sensor],
        spots: &Spots,
    ) -> Result<(), AllocError>
        ensures { OnOk result (AreTold self.now.budget (flat_map (λ (s : AnySensor). words_of_sensor self.now.held.tenant.now (sensor_of s)) sensors.now) findings.old.items findings.new.items) }
    {
        for (place, sensor) in sensors.iter().enumerate() {
            self.foreign_sensor(findings, sensor, spots.line(Keyword::Sensor, place))?;
        }
        Ok(())
    }

    fn foreign_sensor(
        &self,
        findings: &mut Vec<Finding>,
        sensor: &Sensor,
        spot: Spot,
    ) -> Result<(), AllocError>
        ensures { OnOk result (AreTold self.now.budget (words_of_sensor self.now.held.tenant.now (sensor_of sensor.now)) findings.old.items findings.new.items) }
    {
        let Source::Line(line) = sensor.source else {
            return Ok(());
        };
        let reads = self.held.tenant.budgets.reads.as_slice();
        if is_among(reads, line) {
            return Ok(());
        }
        let name = sensor.name.as_str();
        let what = format!(in self.alloc; "the sensor `{name}` reads")?;
        self.foreign_line(findings, what.as_str(), line, ("read", reads), spot)
    }

    // Adds a finding for each line that an actuator drives and that the tenant may not drive.
    fn foreign_actuators(
        &self,
        findings: &mut Vec<Finding>,
        actuators: &[Actuator],
        spots: &Spots,
    ) -> Result<(), AllocError>
        ensures { OnOk result (AreTold self.now.budget (flat_map (λ (a : AnyActuator). words_of_actuator self.now.held.tenant.now (actuator_of a)) actuators.now) findings.old.items findings.new.items) }
    {
        for (place, actuator) in actuators.iter().enumerate() {
            self.foreign_actuator(findings, actuator, spots.line(Keyword::Actuator, place))?;
        }
        Ok(())
    }

    fn foreign_actuator(
        &self,
        findings: &mut Vec<Finding>,
        actuator: &Actuator,
        spot: Spot,
    ) -> Result<(), AllocError>
        ensures { OnOk result (AreTold self.now.budget (words_of_actuator self.now.held.tenant.now (actuator_of actuator.now)) findings.old.items findings.new.items) }
    {
        let Some(line) = actuator.line else {
            return Ok(());
        };
        let writes = self.held.tenant.budgets.writes.as_slice();
        if is_among(writes, line) {
            return Ok(());
        }
        let name = actuator.name.as_str();
        let what = format!(in self.alloc; "the actuator `{name}` drives")?;
        self.foreign_line(findings, what.as_str(), line, ("drive", writes), spot)
    }

    // `may` has the word for the use, and the lines that the tenant may use in this way.
    fn foreign_line(
        &self,
        findings: &mut Vec<Finding>,
        what: &str,
        line: u64,
        may: (&str, &[usize]),
        spot: Spot,
    ) -> Result<(), AllocError>
        ensures { OnOk result (AreTold self.now.budget (words_of_line self.now.held.tenant.now what.now line may.entry.0.now ∷ []) findings.old.items findings.new.items) }
    {
        let (tenant, use_of) = (self.held.tenant.name.as_str(), may.0);
        let message = format!(in self.alloc;
            "{what} line {line}, which `{tenant}` may not {use_of}"
        )?;
        let lines = text_of_numbers(self.alloc, may.1)?;
        let help = format!(in self.alloc;
            "the lines that `{tenant}` may {use_of}: {}",
            lines.as_str()
        )?;
        self.add(findings, spot, message, Some(help))
    }
}

fn is_among(lines: &[usize], line: u64) -> bool
    ensures { result ≡ may_use lines.now line }
{
    lines.iter().any(|other| *other as u64 == line)
}
