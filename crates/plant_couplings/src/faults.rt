//! The fields of a plant's tables, and why a text declares no plant.

ghost use Rattle.std.specs.Prelude.{◌≡◌};
ghost use Rattle.plant_couplings.specs.Fields.{field_at, word_of};

use std::alloc::{AllocError, AllocFailed};
use std::fmt;
use thiserror::Error;

/// A field of a table of the plant.
#[derive(Clone, Copy, Debug, PartialEq, Eq)]
pub enum PlantField {
    /// `from`: the lines that are driven.
    From,
    /// `to`: the lines that are read.
    To,
}

impl PlantField {
    /// The field's word in a configuration.
    pub fn word(self) -> &'static str
        ensures { result.now ≡ word_of self }
    {
        match self {
            PlantField::From => "from",
            PlantField::To => "to",
        }
    }
}

/// A field of the table at a place.
#[derive(Clone, Copy, Debug, PartialEq, Eq)]
pub struct PlantPlace {
    /// The table's place among the tables of the plant, counted from 0.
    pub table: usize,
    /// The field.
    pub field: PlantField,
}

impl PlantPlace {
    // A field of the table at this place.
    pub(crate) fn new(table: usize, field: PlantField) -> PlantPlace
        ensures { result ≡ field_at table field }
    {
        PlantPlace { table, field }
    }
}

impl fmt::Display for PlantPlace {
    fn fmt<W: fmt::Write>(&self, f: &mut fmt::Formatter<W>) -> fmt::Result {
        let word = self.field.word();
        let table = self.table;
        write!(f, "`{word}` of `[[plant]]` {table}, counted from 0,")
    }
}

/// Why a text declares no plant: the first fault in the order of its tables, `from` before `to`.
#[derive(Clone, Copy, Debug, PartialEq, Eq, Error)]
pub enum PlantFault {
    /// The text isn't a TOML document.
    #[error("the text is no TOML document")]
    NotToml,
    /// `plant` isn't an array of tables.
    #[error("`plant` is no array of tables")]
    Tables,
    /// The field is missing.
    #[error("{0} is missing")]
    Missing(PlantPlace),
    /// The field isn't an array of whole numbers.
    #[error("{0} is no array of whole numbers")]
    Numbers(PlantPlace),
    /// The field has a number that isn't below the number of lines.
    #[error("{0} has a line that the rig doesn't have")]
    NoLine(PlantPlace),
    /// Out of memory.
    #[error("no memory for the plant")]
    Memory,
}

impl From<AllocError> for PlantFault {
    ghost use Rattle.std.specs.Prelude.{◌≡◌};
    ghost use Rattle.plant_couplings.specs.declared.faults.PlantFault.TheVariants.{Memory};

    ghost from_gives = { λ _ fault. fault ≡ Memory };

    fn from(_error: AllocError) -> PlantFault {
        PlantFault::Memory
    }
}

impl<T: Drop> From<AllocFailed<T>> for PlantFault {
    ghost use Rattle.std.specs.Prelude.{◌≡◌};
    ghost use Rattle.plant_couplings.specs.declared.faults.PlantFault.TheVariants.{Memory};

    ghost from_gives = { λ _ fault. fault ≡ Memory };

    fn from(_error: AllocFailed<T>) -> PlantFault {
        PlantFault::Memory
    }
}
