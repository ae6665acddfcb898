//! Tasks and their bodies.
#![tactic(auto, using(crate::proofs::Writing::writing))]

ghost use Rattle.std.specs.Prelude.{◌≡◌, OnOk, length, map};
ghost use Rattle.std.specs.List.{flat_map, zip};
ghost use Rattle.giotto_tasks.specs.Trees.{block_of, statement_of};
ghost use Rattle.giotto_text.specs.Canonical.{block_tokens, else_tokens, in_braces, name_tokens, optional_list, state_tokens, statement_tokens, task_tokens, with_commas};
ghost use Rattle.giotto_text.specs.ProgramTrees.{task_of};
ghost use Rattle.giotto_text.specs.declared.tokens.Keyword.TheVariants.{Output, State};
ghost use Rattle.giotto_read.specs.inner.Printing.{written};

use super::Printer;
use giotto_tasks::bodies::Stmt;
use giotto_tasks::names::Name;
use giotto_text::programs::Task;
use giotto_text::tokens::{Keyword, Symbol};
use std::alloc::AllocError;

impl Printer {
    pub(super) fn tasks(&mut self, tasks: &[Task]) -> Result<(), AllocError>
        ensures { OnOk result (self.new ≡ written self.old (flat_map task_tokens (map task_of tasks.now))) }
    {
        for task in tasks {
            self.task(task)?;
        }
        Ok(())
    }

    // task = "task" NAME "(" [NAME {"," NAME}] ")" ["output" NAME {"," NAME}] ["state" state {"," state}] block
    fn task(&mut self, task: &Task) -> Result<(), AllocError>
        ensures { OnOk result (self.new ≡ written self.old (task_tokens (task_of task.now))) }
    {
        self.keyword(Keyword::Task)?;
        self.name(&task.name)?;
        self.symbol(Symbol::OpenParenthesis)?;
        self.names(task.body.inputs.as_slice())?;
        self.symbol(Symbol::CloseParenthesis)?;
        self.task_outputs(task.body.outputs.as_slice())?;
        self.task_states(task.body.states.as_slice(), task.states.as_slice())?;
        self.in_braces(&task.body.block)
    }

    // [NAME {"," NAME}]
    fn names(&mut self, names: &[Name]) -> Result<(), AllocError>
        ensures { OnOk result (self.new ≡ written self.old (with_commas (map name_tokens names.now))) }
    {
        for i in 0..names.len() {
            self.comma_before(i)?;
            self.name(&names[i])?;
        }
        Ok(())
    }

    // ["output" NAME {"," NAME}]
    fn task_outputs(&mut self, outputs: &[Name]) -> Result<(), AllocError>
        ensures { OnOk result (self.new ≡ written self.old (optional_list Output (map name_tokens outputs.now))) }
    {
        if outputs.is_empty() {
            return Ok(());
        }
        self.keyword(Keyword::Output)?;
        self.names(outputs)
    }

    // ["state" state {"," state}]
    fn task_states(&mut self, names: &[Name], values: &[i64]) -> Result<(), AllocError>
        requires { length names.now ≡ length values.now }
        ensures { OnOk result (self.new ≡ written self.old (optional_list State (map state_tokens (zip names.now values.now)))) }
    {
        if names.is_empty() {
            return Ok(());
        }
        self.keyword(Keyword::State)?;
        for i in 0..names.len() {
            self.comma_before(i)?;
            self.state(&names[i], values[i])?;
        }
        Ok(())
    }

    // state = NAME ":=" init
    fn state(&mut self, name: &Name, value: i64) -> Result<(), AllocError>
        ensures { OnOk result (self.new ≡ written self.old (state_tokens (name.now, value))) }
    {
        self.name(name)?;
        self.symbol(Symbol::Becomes)?;
        self.initial(value)
    }

    // block = "{" {stmt} "}"
    #[cycle(body)]
    fn in_braces(&mut self, block: &[Stmt]) -> Result<(), AllocError>
        ensures { OnOk result (self.new ≡ written self.old (in_braces (block_tokens (block_of block.now)))) }
    {
        self.symbol(Symbol::OpenBrace)?;
        for statement in block {
            self.statement(statement)?;
        }
        self.symbol(Symbol::CloseBrace)
    }

    // stmt = NAME ":=" expr ";" | "if" expr block ["else" block] | "repeat" INT block
    #[cycle(body)]
    fn statement(&mut self, statement: &Stmt) -> Result<(), AllocError>
        ensures { OnOk result (self.new ≡ written self.old (statement_tokens (statement_of statement.now))) }
    {
        match statement {
            Stmt::Assign(name, value) => self.given(name, value),
            Stmt::If(condition, then, otherwise) => {
                self.keyword(Keyword::If)?;
                self.expression(condition)?;
                self.in_braces(then)?;
                if otherwise.is_empty() {
                    return Ok(());
                }
                self.keyword(Keyword::Else)?;
                self.in_braces(otherwise)
            }
            Stmt::Repeat(times, block) => {
                self.keyword(Keyword::Repeat)?;
                self.number(*times)?;
                self.in_braces(block)
            }
        }
    }
}
