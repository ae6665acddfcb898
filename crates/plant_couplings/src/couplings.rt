//! The couplings of a plant.

ghost use Rattle.std.specs.Prelude.{◌≡◌, is_some};
ghost use Rattle.std.specs.List.{list_any};
ghost use Rattle.plant_couplings.specs.Couplings.{can_change, couples, is_coupled, undeclared};
ghost use Rattle.rig_model.specs.config.Roster.{may_use};

use giotto_tasks::lists::List;
use rig_model::config::TenantConfig;

/// One table of a plant: what is driven on a line of `from` can change what is read on each line of `to`.
#[derive(Drop)]
pub struct Coupling {
    /// Lines that are driven, as numbers below the number of lines.
    pub from: List<usize>,
    /// Lines that are read, as numbers below the number of lines.
    pub to: List<usize>,
}

impl Coupling {
    /// Whether it couples what is driven on line `from` to what is read on line `to`.
    pub fn couples(&self, from: usize, to: usize) -> bool
        ensures { result ≡ couples self.now from to }
    {
        has_line(self.from.as_slice(), from) && has_line(self.to.as_slice(), to)
    }
}

// Whether a line is among these.
fn has_line(lines: &[usize], line: usize) -> bool
    ensures { result ≡ may_use lines.now line }
{
    lines.iter().any(|&other| line == other)
}

// Whether one of these couples the two lines.
fn one_couples(couplings: &[Coupling], from: usize, to: usize) -> bool
    ensures { result ≡ list_any (λ c. couples c from to) couplings.now }
{
    couplings.iter().any(|coupling| coupling.couples(from, to))
}

/// The plant of a rig. Its calls take no memory.
#[derive(Drop)]
pub struct Plant {
    /// The tables that the configuration has. `None` if it doesn't declare the plant: then each line may be coupled to each.
    pub couplings: Option<List<Coupling>>,
}

impl Plant {
    /// The plant of a configuration that doesn't declare it.
    pub fn undeclared() -> Plant
        ensures { result ≡ undeclared }
    {
        Plant { couplings: None }
    }

    /// Whether the configuration declares the plant.
    pub fn is_declared(&self) -> bool
        ensures { result ≡ is_some self.now.couplings }
    {
        self.couplings.is_some()
    }

    /// Whether what is driven on line `from` can change what is read on line `to`. If the plant isn't declared, it can.
    pub fn is_coupled(&self, from: usize, to: usize) -> bool
        ensures { result ≡ is_coupled self.now from to }
    {
        match &self.couplings {
            Some(couplings) => one_couples(couplings.as_slice(), from, to),
            None => true,
        }
    }

    /// Whether what `driver` may drive can change what `reader` may read.
    pub fn can_change(&self, driver: &TenantConfig, reader: &TenantConfig) -> bool
        ensures { result ≡ can_change self.now driver.now reader.now }
    {
        driver
            .budgets
            .writes
            .as_slice()
            .iter()
            .any(|&from| self.can_change_one(from, reader))
    }

    // Whether what is driven on a line can change what `reader` may read.
    fn can_change_one(&self, from: usize, reader: &TenantConfig) -> bool
        ensures { result ≡ list_any (is_coupled self.now from) reader.now.budgets.reads }
    {
        reader
            .budgets
            .reads
            .as_slice()
            .iter()
            .any(|&to| self.is_coupled(from, to))
    }
}
