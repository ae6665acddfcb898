//! The variables of a dump, each with the value that was written last.

ghost use Rattle.std.specs.Prelude.{◌≡◌, ◌++◌, OnOk, codes, string_bytes};
ghost use Rattle.tenant_dumps.specs.inner.Lines.{line_of, line_of_word};

use std::alloc::AllocError;

/// A value; without one, the variable has no value at that stamp.
#[derive(Clone, Copy, Debug, PartialEq, Eq)]
pub enum Value {
    Bit(Option<bool>),
    Number(Option<i64>),
}

impl Value {
    // A value of the same kind that isn't there.
    fn missing(self) -> Value {
        match self {
            Value::Bit(_) => Value::Bit(None),
            Value::Number(_) => Value::Number(None),
        }
    }
}

/// A variable with bits or numbers.
#[derive(Drop)]
pub struct Variable {
    name: String,
    value: Value,
    // Whether it has a line.
    is_written: bool,
    // Whether it wasn't there at the first stamp.
    is_late: bool,
}

impl Variable {
    /// A variable without a value. `none` is of the kind of its values. A late one isn't there at the first stamp.
    pub fn new(name: String, none: Value, is_late: bool) -> Variable {
        Variable {
            name,
            value: none.missing(),
            is_written: is_late,
            is_late,
        }
    }

    /// Its name in the dump.
    pub fn name(&self) -> &str {
        self.name.as_str()
    }

    /// Writes a value of its kind, if it changed or is the first.
    ///
    /// # Errors
    /// Out of memory.
    pub fn write(&mut self, text: &mut String, value: Value) -> Result<(), AllocError> {
        if self.is_written && value == self.value {
            return Ok(());
        }
        self.is_written = true;
        self.value = value;
        add_line(text, self.name.as_str(), value)
    }

    /// Writes that it has no value, unless it has a line.
    ///
    /// # Errors
    /// Out of memory.
    pub fn write_missing(&mut self, text: &mut String) -> Result<(), AllocError> {
        if self.is_written {
            return Ok(());
        }
        self.write(text, self.value)
    }

    /// Writes that it had no value at the first stamp, if it wasn't there.
    ///
    /// # Errors
    /// Out of memory.
    pub fn write_late(&self, text: &mut String) -> Result<(), AllocError> {
        if !self.is_late {
            return Ok(());
        }
        add_line(text, self.name.as_str(), self.value.missing())
    }

    /// Declares it with this name in its scope.
    ///
    /// # Errors
    /// Out of memory.
    pub fn declare(&self, text: &mut String, short: &str) -> Result<(), AllocError> {
        let name = self.name.as_str();
        match self.value {
            Value::Bit(_) => writeln!(text, "$var wire 1 {name} {short} $end"),
            Value::Number(_) => writeln!(text, "$var integer 64 {name} {short} $end"),
        }
    }
}

// Adds the line of a variable's value.
fn add_line(text: &mut String, variable: &str, value: Value) -> Result<(), AllocError>
    ensures { OnOk result (string_bytes text.new ≡ string_bytes text.old ++ line_of variable.now value) }
{
    match value {
        Value::Number(Some(value)) => write!(text, "b{:b} {variable}\n", value),
        Value::Number(None) => write!(text, "bx {variable}\n"),
        Value::Bit(Some(true)) => write!(text, "1{variable}\n"),
        Value::Bit(Some(false)) => write!(text, "0{variable}\n"),
        Value::Bit(None) => write!(text, "x{variable}\n"),
    }
}

/// Adds the line of a variable's word.
///
/// # Errors
/// Out of memory.
pub fn add_word(text: &mut String, variable: &str, word: &str) -> Result<(), AllocError>
    ensures { OnOk result (string_bytes text.new ≡ string_bytes text.old ++ line_of_word variable.now word.now) }
{
    write!(text, "s{word} {variable}\n")
}
