//! Modes.

ghost use Rattle.std.specs.Prelude.{ℕ, Option, map};
ghost use Rattle.giotto_read.specs.inner.Doing.{Does};
ghost use Rattle.giotto_tasks.specs.declared.bodies.Expr.{Expr};
ghost use Rattle.giotto_text.specs.Parsing.{is_keyword, is_name, many, read_assignment, read_destinations, read_frequency, read_invocation, read_mode, read_switch, read_update};
ghost use Rattle.giotto_text.specs.ProgramTrees.{destination_of, guard_of, invocation_of, mode_of, switch_of, update_of};
ghost use Rattle.giotto_text.specs.declared.tokens.Keyword.TheVariants as keyword;

use super::{Reader, Stop};
use giotto_tasks::bodies::Expr;
use giotto_tasks::lists::List;
use giotto_text::programs::{Destination, Invocation, Mode, Switch, Update};
use giotto_text::tokens::{Keyword, Symbol};

impl Reader<'_> {
    // {mode}
    pub(super) fn modes(&mut self) -> Result<List<Mode>, Stop>
        ensures { Does (map mode_of) (many (is_keyword keyword.Mode) read_mode) self.old result self.new }
    {
        let mut modes = Vec::new(self.alloc);
        while self.next_is_keyword(Keyword::Mode) {
            let mode = self.mode()?;
            modes.push(mode)?;
        }
        Ok(List::from_vec(modes))
    }

    // mode = "mode" NAME "period" INT "{" {act} {exit} {invoke} "}"
    fn mode(&mut self) -> Result<Mode, Stop>
        ensures { Does mode_of read_mode self.old result self.new }
    {
        self.keyword(Keyword::Mode)?;
        let name = self.name()?;
        self.keyword(Keyword::Period)?;
        let period = self.int()?;
        self.symbol(Symbol::OpenBrace)?;
        let updates = self.updates()?;
        let switches = self.switches()?;
        let invocations = self.invocations()?;
        self.symbol(Symbol::CloseBrace)?;
        Ok(Mode {
            name,
            period,
            updates,
            switches,
            invocations,
        })
    }

    // {act}
    fn updates(&mut self) -> Result<List<Update>, Stop>
        ensures { Does (map update_of) (many (is_keyword keyword.ActFreq) read_update) self.old result self.new }
    {
        let mut updates = Vec::new(self.alloc);
        while self.next_is_keyword(Keyword::ActFreq) {
            let update = self.update()?;
            updates.push(update)?;
        }
        Ok(List::from_vec(updates))
    }

    // act = "actfreq" INT ["if" expr] "do" NAME ":=" expr ";"
    fn update(&mut self) -> Result<Update, Stop>
        ensures { Does update_of read_update self.old result self.new }
    {
        let (frequency, guard) = self.frequency(Keyword::ActFreq)?;
        let (actuator, value) = self.assignment()?;
        Ok(Update {
            frequency,
            guard,
            actuator,
            value,
        })
    }

    // {exit}
    fn switches(&mut self) -> Result<List<Switch>, Stop>
        ensures { Does (map switch_of) (many (is_keyword keyword.ExitFreq) read_switch) self.old result self.new }
    {
        let mut switches = Vec::new(self.alloc);
        while self.next_is_keyword(Keyword::ExitFreq) {
            let switch = self.switch()?;
            switches.push(switch)?;
        }
        Ok(List::from_vec(switches))
    }

    // exit = "exitfreq" INT ["if" expr] "do" NAME ["{" {NAME ":=" expr ";"} "}"] ";"
    fn switch(&mut self) -> Result<Switch, Stop>
        ensures { Does switch_of read_switch self.old result self.new }
    {
        let (frequency, guard) = self.frequency(Keyword::ExitFreq)?;
        let target = self.name()?;
        let destinations = self.destinations()?;
        self.symbol(Symbol::Semicolon)?;
        Ok(Switch {
            frequency,
            guard,
            target,
            destinations,
        })
    }

    // ["{" {NAME ":=" expr ";"} "}"]
    fn destinations(&mut self) -> Result<List<Destination>, Stop>
        ensures { Does (map destination_of) read_destinations self.old result self.new }
    {
        if !self.accept(Symbol::OpenBrace) {
            return Ok(List::from_vec(Vec::new(self.alloc)));
        }
        let destinations = self.assignments()?;
        self.symbol(Symbol::CloseBrace)?;
        Ok(destinations)
    }

    // {NAME ":=" expr ";"}
    fn assignments(&mut self) -> Result<List<Destination>, Stop>
        ensures { Does (map destination_of) (many is_name read_assignment) self.old result self.new }
    {
        let mut destinations = Vec::new(self.alloc);
        while self.next_name().is_some() {
            let (output, value) = self.assignment()?;
            destinations.push(Destination { output, value })?;
        }
        Ok(List::from_vec(destinations))
    }

    // {invoke}
    fn invocations(&mut self) -> Result<List<Invocation>, Stop>
        ensures { Does (map invocation_of) (many (is_keyword keyword.TaskFreq) read_invocation) self.old result self.new }
    {
        let mut invocations = Vec::new(self.alloc);
        while self.next_is_keyword(Keyword::TaskFreq) {
            let invocation = self.invocation()?;
            invocations.push(invocation)?;
        }
        Ok(List::from_vec(invocations))
    }

    // invoke = "taskfreq" INT ["if" expr] "do" NAME "(" [expr {"," expr}] ")" ";"
    fn invocation(&mut self) -> Result<Invocation, Stop>
        ensures { Does invocation_of read_invocation self.old result self.new }
    {
        let (frequency, guard) = self.frequency(Keyword::TaskFreq)?;
        let task = self.name()?;
        let arguments = self.arguments()?;
        self.symbol(Symbol::Semicolon)?;
        Ok(Invocation {
            frequency,
            guard,
            task,
            arguments,
        })
    }

    // a keyword, INT ["if" expr] "do"
    fn frequency(&mut self, keyword: Keyword) -> Result<(u64, Option<Expr>), Stop>
        ensures { Does (λ (f : ℕ × Option Expr). (f.0, guard_of f.1)) (read_frequency keyword) self.old result self.new }
    {
        self.keyword(keyword)?;
        let frequency = self.int()?;
        let guard = self.guard()?;
        self.keyword(Keyword::Do)?;
        Ok((frequency, guard))
    }
}
