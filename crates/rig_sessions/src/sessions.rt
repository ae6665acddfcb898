//! A session, line by line: which tenant was greeted, and what a line does.

ghost use Rattle.std.specs.Prelude.{◌≡◌, ◌↔◌, Some, None, if◌then◌else◌, IsTrue, IfOk, OnErr, IsErr, is_some};
ghost use Rattle.std.specs.Option.{option_map};
ghost use Rattle.rig_model.specs.lines.CommandLine.{command_of_line};
ghost use Rattle.rig_model.specs.lines.Words.{words_of, first_word_of, behind_first_word};
ghost use Rattle.rig_model.specs.config.Roster.{greeted};
ghost use Rattle.rig_model.specs.Sessions.{ask, ended, err_bad_command, err_not_greeted, form_step, hello, hello_of, hello_step, quit_of, stranger, text_step};
ghost use Rattle.rig_sessions.specs.inner.Steps.{IsStep, IsCallWithText, text_of_own};

use crate::replies::OwnReply;
use rig_model::config::{Config, TenantId};
use rig_model::lines::command_lines::{LineFault, command_of};
use rig_model::lines::commands::Command;
use rig_model::lines::words;
use rig_model::text::name_bytes::is_name;
use std::alloc::{AllocError, Global};
use std::marker::Model;

/// What a line does.
#[derive(Drop)]
pub enum Step {
    /// Nothing: the line is blank, or comes after the end of the session.
    Quiet,
    /// The session replies without a call.
    Say(OwnReply),
    /// A command of the greeted tenant.
    Call(TenantId, Command),
    /// The session ends: `bye`.
    End,
}

// The state of a session: which tenant was greeted, if any.
#[derive(Clone, Copy, Debug)]
enum Party {
    Stranger,
    Tenant(TenantId),
    Ended,
}

/// A session with one client: the configuration, and which tenant was greeted.
#[derive(Drop)]
pub struct Session<'a> {
    config: &'a Config,
    party: Party,
}

impl<'a> Model for Session<'a> {
    ghost use Rattle.rig_sessions.specs.inner.Steps.{SessionValue, state_of};

    ghost Value = { SessionValue };

    ghost view = { λ s. record { config = s.config.now; state = state_of s.party } };
}

impl<'a> Session<'a> {
    /// A session in which no tenant was greeted yet. Allocates nothing.
    pub fn new(config: &'a Config) -> Session<'a>
        ensures { result ≡ record { config = config.entry.now; state = stranger } }
    {
        Session {
            config,
            party: Party::Stranger,
        }
    }

    /// Reads a line: blank, `hello NAME KEY`, `quit`, or a command. After the end of the session every line is quiet.
    ///
    /// # Errors
    /// Out of memory for the text of a `load` or a `replace` of the greeted tenant. The session is unchanged then.
    pub fn line(&mut self, alloc: Global, line: &str) -> Result<Step, AllocError>
        ensures step { IfOk result (λ step. IsStep step self.old self.new (text_step self.old.config self.old.state line.now)) }
        ensures refused { OnErr result (self.new ≡ self.old) }
        ensures memory { IsErr result → IsCallWithText (text_step self.old.config self.old.state line.now) self.old.state }
    {
        let (word, rest) = words::cut(line);
        if word.is_empty() {
            return Ok(Step::Quiet);
        }
        if words::is_word(word, "hello") {
            return Ok(self.hello(rest));
        }
        if words::is_word(word, "quit") {
            return Ok(self.quit(rest));
        }
        self.command(alloc, line)
    }

    /// Whether it has ended.
    pub fn has_ended(&self) -> bool
        ensures { IsTrue result ↔ (self.now.state ≡ ended) }
    {
        matches!(self.party, Party::Ended)
    }

    // The step of `hello`, given the words after it.
    fn hello(&mut self, rest: &str) -> Step
        ensures { IsStep result self.old self.new (form_step self.old.config self.old.state (hello_of (words_of rest.now))) }
    {
        if self.has_ended() {
            return Step::Quiet;
        }
        if !is_hello(rest) {
            return Step::Say(OwnReply::BadCommand);
        }
        if let Party::Tenant(_) = self.party {
            return Step::Say(OwnReply::Greeted);
        }
        let behind = words::behind_first_word(rest);
        self.greet(words::first_word(rest), words::first_word(behind))
    }

    // The step of a `hello` with this name and this key, if no tenant was greeted.
    fn greet(&mut self, name: &str, key: &str) -> Step
        requires { self.old.state ≡ stranger }
        ensures { IsStep result self.old self.new (hello_step self.old.config (greeted self.old.config name.now key.now)) }
    {
        match self.config.greet(name, key) {
            Some(tenant) => {
                self.party = Party::Tenant(tenant);
                Step::Say(OwnReply::Hello)
            }
            None => Step::Say(OwnReply::Who),
        }
    }

    // The step of `quit`, given the words after it.
    fn quit(&mut self, rest: &str) -> Step
        ensures { IsStep result self.old self.new (form_step self.old.config self.old.state (quit_of (words_of rest.now))) }
    {
        if self.has_ended() {
            return Step::Quiet;
        }
        if !words::first_word(rest).is_empty() {
            return Step::Say(OwnReply::BadCommand);
        }
        self.party = Party::Ended;
        Step::End
    }

    // The step of a line that begins with another word.
    fn command(&mut self, alloc: Global, line: &str) -> Result<Step, AllocError>
        ensures step { IfOk result (λ step. IsStep step self.old self.new (form_step self.old.config self.old.state (option_map ask (command_of_line line.now)))) }
        ensures refused { OnErr result (self.new ≡ self.old) }
        ensures memory { IsErr result → IsCallWithText (form_step self.old.config self.old.state (option_map ask (command_of_line line.now))) self.old.state }
    {
        let tenant = match self.party {
            Party::Ended => return Ok(Step::Quiet),
            Party::Stranger => return Ok(Step::Say(unasked(alloc, line))),
            Party::Tenant(tenant) => tenant,
        };
        match command_of(alloc, line) {
            Ok(command) => return Ok(Step::Call(tenant, command)),
            Err(LineFault::BadCommand) => return Ok(Step::Say(OwnReply::BadCommand)),
            Err(LineFault::Memory) => return Err(AllocError),
        }
    }
}

// The reply to a line that begins with neither `hello` nor `quit`, if no tenant was greeted.
fn unasked(alloc: Global, line: &str) -> OwnReply
    ensures { text_of_own result ≡ (if is_some (command_of_line line.now) then err_not_greeted else err_bad_command) }
{
    let Err(fault) = command_of(alloc, line) else {
        return OwnReply::NotGreeted;
    };
    match fault {
        LineFault::BadCommand => OwnReply::BadCommand,
        LineFault::Memory => OwnReply::NotGreeted,
    }
}

// Whether these words, which come after `hello`, are the name of a tenant and a key.
fn is_hello(rest: &str) -> bool
    ensures { hello_of (words_of rest.now) ≡ (if result then Some (hello (first_word_of rest.now) (first_word_of (behind_first_word rest.now))) else None) }
{
    let behind = words::behind_first_word(rest);
    if !is_name(words::first_word(rest).as_bytes()) {
        return false;
    }
    if words::first_word(behind).is_empty() {
        return false;
    }
    words::first_word(words::behind_first_word(behind)).is_empty()
}
