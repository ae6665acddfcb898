//! Tasks.

ghost use Rattle.std.specs.Prelude.{◌≡◌, ◌≤◌, map, length, IfOk};
ghost use Rattle.std.specs.List.{zip};
ghost use Rattle.giotto_tasks.specs.Depth.{depth_of_block};
ghost use Rattle.giotto_tasks.specs.Trees.{block_of, body_of};
ghost use Rattle.giotto_read.specs.inner.Doing.{Does};
ghost use Rattle.giotto_text.specs.Parsing.{is_keyword, many, read_list, read_list_behind, read_name, read_parentheses, read_state, read_task};
ghost use Rattle.giotto_text.specs.ProgramTrees.{task_of};
ghost use Rattle.giotto_text.specs.declared.tokens.Keyword.TheVariants as keyword;

use super::{Reader, Stop};
use giotto_tasks::bodies::{Body, Stmt};
use giotto_tasks::faults::CodeFault;
use giotto_tasks::lists::List;
use giotto_tasks::names::Name;
use giotto_text::laws;
use giotto_text::programs::Task;
use giotto_text::tokens::{Keyword, Symbol};
use std::alloc::{AllocError, Global};
use std::sync::Arc;

impl Reader<'_> {
    // {task}
    pub(super) fn tasks(&mut self) -> Result<List<Task>, Stop>
        ensures { Does (map task_of) (many (is_keyword keyword.Task) read_task) self.old result self.new }
    {
        let mut tasks = Vec::new(self.alloc);
        while self.next_is_keyword(Keyword::Task) {
            let task = self.task()?;
            tasks.push(task)?;
        }
        Ok(List::from_vec(tasks))
    }

    // task = "task" NAME "(" [NAME {"," NAME}] ")" ["output" NAME {"," NAME}] ["state" state {"," state}] block
    fn task(&mut self) -> Result<Task, Stop>
        ensures { Does task_of read_task self.old result self.new }
    {
        self.keyword(Keyword::Task)?;
        let name = self.name()?;
        let inputs = self.inputs()?;
        let outputs = self.task_outputs()?;
        let (states, initials) = self.task_states()?;
        let block = self.block()?;
        laws::shallow();
        let body = shallow_body(self.alloc, inputs, outputs, states, block)?;
        let body = Arc::new(self.alloc, body)?;
        Ok(Task {
            name,
            states: initials,
            body,
        })
    }

    // "(" [NAME {"," NAME}] ")"
    fn inputs(&mut self) -> Result<List<Name>, Stop>
        ensures { Does (λ xs. xs) (read_parentheses read_name) self.old result self.new }
    {
        self.symbol(Symbol::OpenParenthesis)?;
        if self.accept(Symbol::CloseParenthesis) {
            return Ok(List::from_vec(Vec::new(self.alloc)));
        }
        let inputs = self.names()?;
        self.symbol(Symbol::CloseParenthesis)?;
        Ok(inputs)
    }

    // ["output" NAME {"," NAME}]
    fn task_outputs(&mut self) -> Result<List<Name>, Stop>
        ensures { Does (λ xs. xs) (read_list_behind keyword.Output read_name) self.old result self.new }
    {
        if !self.accept_keyword(Keyword::Output) {
            return Ok(List::from_vec(Vec::new(self.alloc)));
        }
        let outputs = self.names()?;
        Ok(outputs)
    }

    // NAME {"," NAME}
    fn names(&mut self) -> Result<List<Name>, Stop>
        ensures { Does (λ xs. xs) (read_list read_name) self.old result self.new }
    {
        let mut names = Vec::new(self.alloc);
        let name = self.name()?;
        names.push(name)?;
        while self.accept(Symbol::Comma) {
            let name = self.name()?;
            names.push(name)?;
        }
        Ok(List::from_vec(names))
    }

    // ["state" state {"," state}]
    fn task_states(&mut self) -> Result<(List<Name>, List<i64>), Stop>
        ensures read { Does (λ s. zip s.0 s.1) (read_list_behind keyword.State read_state) self.old result self.new }
        ensures each { IfOk result (λ s. length s.0 ≡ length s.1) }
    {
        if !self.accept_keyword(Keyword::State) {
            let names = List::from_vec(Vec::new(self.alloc));
            let initials = List::from_vec(Vec::new(self.alloc));
            return Ok((names, initials));
        }
        let states = self.states()?;
        Ok(states)
    }

    // state {"," state}, as the names and the initial values
    fn states(&mut self) -> Result<(List<Name>, List<i64>), Stop>
        ensures read { Does (λ s. zip s.0 s.1) (read_list read_state) self.old result self.new }
        ensures each { IfOk result (λ s. length s.0 ≡ length s.1) }
    {
        let mut names = Vec::new(self.alloc);
        let mut initials = Vec::new(self.alloc);
        let (name, initial) = self.state()?;
        names.push(name)?;
        initials.push(initial)?;
        while self.accept(Symbol::Comma) {
            let (name, initial) = self.state()?;
            names.push(name)?;
            initials.push(initial)?;
        }
        Ok((List::from_vec(names), List::from_vec(initials)))
    }

    // state = NAME ":=" init
    fn state(&mut self) -> Result<(Name, i64), Stop>
        ensures { Does (λ s. s) read_state self.old result self.new }
    {
        let name = self.name()?;
        self.symbol(Symbol::Becomes)?;
        let initial = self.initial()?;
        Ok((name, initial))
    }
}

// The body with these ports and this block. The block must be shallow enough to have code.
fn shallow_body(
    alloc: Global,
    inputs: List<Name>,
    outputs: List<Name>,
    states: List<Name>,
    block: Vec<Stmt>,
) -> Result<Body, AllocError>
    requires { depth_of_block (block_of block.items) ≤ 32 }
    ensures { IfOk result (λ b. b ≡ body_of inputs outputs states block.items) }
{
    match Body::new(alloc, inputs, outputs, states, block) {
        Ok(body) => Ok(body),
        Err(CodeFault::Memory) => Err(AllocError),
        Err(CodeFault::TooDeep) => unreachable!(),
    }
}
