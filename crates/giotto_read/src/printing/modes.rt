//! Modes: their updates, switches and invocations.
#![tactic(auto, using(crate::proofs::Writing::writing))]

ghost use Rattle.std.specs.Prelude.{◌≡◌, OnOk, map};
ghost use Rattle.std.specs.List.{flat_map};
ghost use Rattle.giotto_tasks.specs.Trees.{expression_of};
ghost use Rattle.giotto_text.specs.Canonical.{argument_tokens, at_frequency, destination_tokens, invocation_tokens, mode_tokens, switch_tokens, update_tokens};
ghost use Rattle.giotto_text.specs.ProgramTrees.{destination_of, guard_of, invocation_of, mode_of, switch_of, update_of};
ghost use Rattle.giotto_read.specs.inner.Printing.{written};

use super::Printer;
use giotto_tasks::bodies::Expr;
use giotto_text::programs::{Destination, Invocation, Mode, Switch, Update};
use giotto_text::tokens::{Keyword, Symbol};
use std::alloc::AllocError;

impl Printer {
    pub(super) fn modes(&mut self, modes: &[Mode]) -> Result<(), AllocError>
        ensures { OnOk result (self.new ≡ written self.old (flat_map mode_tokens (map mode_of modes.now))) }
    {
        for mode in modes {
            self.mode(mode)?;
        }
        Ok(())
    }

    // mode = "mode" NAME "period" INT "{" {act} {exit} {invoke} "}"
    fn mode(&mut self, mode: &Mode) -> Result<(), AllocError>
        ensures { OnOk result (self.new ≡ written self.old (mode_tokens (mode_of mode.now))) }
    {
        self.keyword(Keyword::Mode)?;
        self.name(&mode.name)?;
        self.keyword(Keyword::Period)?;
        self.number(mode.period)?;
        self.symbol(Symbol::OpenBrace)?;
        self.updates(mode.updates.as_slice())?;
        self.switches(mode.switches.as_slice())?;
        self.invocations(mode.invocations.as_slice())?;
        self.symbol(Symbol::CloseBrace)
    }

    fn updates(&mut self, updates: &[Update]) -> Result<(), AllocError>
        ensures { OnOk result (self.new ≡ written self.old (flat_map update_tokens (map update_of updates.now))) }
    {
        for update in updates {
            self.update(update)?;
        }
        Ok(())
    }

    // act = "actfreq" INT ["if" expr] "do" NAME ":=" expr ";"
    fn update(&mut self, update: &Update) -> Result<(), AllocError>
        ensures { OnOk result (self.new ≡ written self.old (update_tokens (update_of update.now))) }
    {
        self.at_frequency(Keyword::ActFreq, update.frequency, &update.guard)?;
        self.given(&update.actuator, &update.value)
    }

    fn switches(&mut self, switches: &[Switch]) -> Result<(), AllocError>
        ensures { OnOk result (self.new ≡ written self.old (flat_map switch_tokens (map switch_of switches.now))) }
    {
        for switch in switches {
            self.switch(switch)?;
        }
        Ok(())
    }

    // exit = "exitfreq" INT ["if" expr] "do" NAME ["{" {destination} "}"] ";"
    fn switch(&mut self, switch: &Switch) -> Result<(), AllocError>
        ensures { OnOk result (self.new ≡ written self.old (switch_tokens (switch_of switch.now))) }
    {
        self.at_frequency(Keyword::ExitFreq, switch.frequency, &switch.guard)?;
        self.name(&switch.target)?;
        self.destinations(switch.destinations.as_slice())?;
        self.symbol(Symbol::Semicolon)
    }

    // ["{" {destination} "}"], with destination = NAME ":=" expr ";"
    fn destinations(&mut self, destinations: &[Destination]) -> Result<(), AllocError>
        ensures { OnOk result (self.new ≡ written self.old (destination_tokens (map destination_of destinations.now))) }
    {
        if destinations.is_empty() {
            return Ok(());
        }
        self.symbol(Symbol::OpenBrace)?;
        for destination in destinations {
            self.given(&destination.output, &destination.value)?;
        }
        self.symbol(Symbol::CloseBrace)
    }

    fn invocations(&mut self, invocations: &[Invocation]) -> Result<(), AllocError>
        ensures { OnOk result (self.new ≡ written self.old (flat_map invocation_tokens (map invocation_of invocations.now))) }
    {
        for invocation in invocations {
            self.invocation(invocation)?;
        }
        Ok(())
    }

    // invoke = "taskfreq" INT ["if" expr] "do" NAME "(" [expr {"," expr}] ")" ";"
    fn invocation(&mut self, invocation: &Invocation) -> Result<(), AllocError>
        ensures { OnOk result (self.new ≡ written self.old (invocation_tokens (invocation_of invocation.now))) }
    {
        self.at_frequency(Keyword::TaskFreq, invocation.frequency, &invocation.guard)?;
        self.name(&invocation.task)?;
        self.symbol(Symbol::OpenParenthesis)?;
        self.arguments(invocation.arguments.as_slice())?;
        self.symbol(Symbol::CloseParenthesis)?;
        self.symbol(Symbol::Semicolon)
    }

    // [expr {"," expr}]
    fn arguments(&mut self, arguments: &[Expr]) -> Result<(), AllocError>
        ensures { OnOk result (self.new ≡ written self.old (argument_tokens (map expression_of arguments.now))) }
    {
        for i in 0..arguments.len() {
            self.comma_before(i)?;
            self.expression(&arguments[i])?;
        }
        Ok(())
    }

    // INT ["if" expr] "do", after its keyword
    fn at_frequency(
        &mut self,
        kind: Keyword,
        frequency: u64,
        guard: &Option<Expr>,
    ) -> Result<(), AllocError>
        ensures { OnOk result (self.new ≡ written self.old (at_frequency kind frequency (guard_of guard.now))) }
    {
        self.keyword(kind)?;
        self.number(frequency)?;
        if let Some(condition) = guard {
            self.keyword(Keyword::If)?;
            self.expression(condition)?;
        }
        self.keyword(Keyword::Do)
    }
}
