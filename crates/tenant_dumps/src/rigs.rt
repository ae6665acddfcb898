//! The variables of the rig's lines.

ghost use Rattle.std.specs.Prelude.{◌≡◌, IfOk, string_bytes};
ghost use Rattle.tenant_dumps.specs.inner.Lines.{variable_of_line};

use crate::variables::{Value, Variable};
use std::alloc::{AllocError, Global};

/// The variable of a line of the rig.
#[derive(Drop)]
pub struct LineVariable {
    line: usize,
    variable: Variable,
}

impl LineVariable {
    // The variable of a line, in this direction.
    fn new(alloc: Global, direction: &str, line: usize) -> Result<LineVariable, AllocError> {
        let name = line_variable(alloc, direction, line)?;
        Ok(LineVariable {
            line,
            variable: Variable::new(name, Value::Number(None), false),
        })
    }

    /// The line.
    pub fn line(&self) -> usize {
        self.line
    }

    /// Writes the line's value, if it changed.
    ///
    /// # Errors
    /// Out of memory.
    pub fn write(&mut self, text: &mut String, value: Option<i64>) -> Result<(), AllocError> {
        self.variable.write(text, Value::Number(value))
    }

    /// Writes that it has no value, if no value was written yet.
    ///
    /// # Errors
    /// Out of memory.
    pub fn write_missing(&mut self, text: &mut String) -> Result<(), AllocError> {
        self.variable.write_missing(text)
    }

    // Declares it with its name in its scope.
    fn declare(&self, alloc: Global, text: &mut String, direction: &str) -> Result<(), AllocError> {
        let short = format!(in alloc; "{direction}-{}", self.line)?;
        self.variable.declare(text, short.as_str())
    }
}

/// The variables of the rig's lines.
#[derive(Drop)]
pub struct RigScope {
    inputs: Vec<LineVariable>,
    outputs: Vec<LineVariable>,
}

impl RigScope {
    /// No lines.
    pub(crate) fn new(alloc: Global) -> RigScope {
        RigScope {
            inputs: Vec::new(alloc),
            outputs: Vec::new(alloc),
        }
    }

    /// Adds a line that a tenant may read.
    ///
    /// # Errors
    /// Out of memory.
    pub fn add_input(&mut self, alloc: Global, line: usize) -> Result<(), AllocError> {
        let variable = LineVariable::new(alloc, "in", line)?;
        self.inputs.push(variable)?;
        Ok(())
    }

    /// Adds a line that a tenant may drive.
    ///
    /// # Errors
    /// Out of memory.
    pub fn add_output(&mut self, alloc: Global, line: usize) -> Result<(), AllocError> {
        let variable = LineVariable::new(alloc, "out", line)?;
        self.outputs.push(variable)?;
        Ok(())
    }

    /// The lines that a tenant may read, in the order in which they were added.
    pub fn inputs(&mut self) -> &mut [LineVariable] {
        self.inputs.as_mut_slice()
    }

    /// The lines that a tenant may drive, in the order in which they were added.
    pub fn outputs(&mut self) -> &mut [LineVariable] {
        self.outputs.as_mut_slice()
    }

    /// Declares all lines.
    ///
    /// # Errors
    /// Out of memory.
    pub(crate) fn declare(&self, alloc: Global, text: &mut String) -> Result<(), AllocError> {
        text.push_str("$scope module host $end\n")?;
        for input in &self.inputs {
            input.declare(alloc, text, "in")?;
        }
        for output in &self.outputs {
            output.declare(alloc, text, "out")?;
        }
        text.push_str("$upscope $end\n")
    }

    /// Adds all lines to a save file for gtkwave.
    ///
    /// # Errors
    /// Out of memory.
    pub(crate) fn save(&self, text: &mut String) -> Result<(), AllocError> {
        text.push_str("@200\n-lines\n@420\n")?;
        for line in self.inputs.iter().chain(self.outputs.iter()) {
            writeln!(text, "{}", line.variable.name())?;
        }
        Ok(())
    }
}

// The name of the variable of a line, in this direction.
fn line_variable(alloc: Global, direction: &str, line: usize) -> Result<String, AllocError>
    ensures { IfOk result (λ name. string_bytes name ≡ variable_of_line direction.now line) }
{
    format!(in alloc; "host.{direction}-{line}")
}
