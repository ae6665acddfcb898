//! A session over a reader and a writer.

ghost use Rattle.std.specs.Prelude.{◌≡◌, ℕ, List, [], ◌∷◌, ◌++◌, Option, map, string_bytes, IfErr, IfSome, OnOk};
ghost use Rattle.std.specs.Io.KnownBytes.{Appends, Keeps};
ghost use Rattle.rig_model.specs.declared.logged.Call.{Call};
ghost use Rattle.rig_model.specs.Sessions.{State, call};
ghost use Rattle.locked_book.specs.Books.{PassValue};
ghost use Rattle.rig_sessions.specs.Talks.{AreFewRead, IsCutOff, TalkedToEnd};
ghost use Rattle.rig_sessions.specs.inner.Answered.{AreAnswered, AreUnanswered, IsAnswered, IsUnanswered, IsUnderWay};

use crate::calls::Calls;
use crate::faults::TalkFault;
use crate::sessions::{Session, Step};
use crate::waiting::{Work, call_and_say, call_waiting};
use crate::writing::{flush, refuse, say, say_bad_line, say_reply};
use locked_book::faults::DeskFault;
use locked_book::naming::Naming;
use locked_book::passes::Pass;
use rig_model::config::{Config, TenantId};
use rig_model::lines::commands::Command;
use std::alloc::Global;
use std::io::{Read, Write};
use std::sync::Wait;
use text_lines::lines::{Behind, Lines};

/// Answers the lines of a client, in their order, until its input or the session ends. The session replies by itself or makes a call of the
/// pass. The pass is returned with the new calls at its end. The reply to a line that is too long or not UTF-8 is `bye bad-line`. Lines after
/// the end aren't answered. If there is no memory for a line's command, its call or its reply's text, the reply is `err memory`, and the
/// session goes on.
///
/// The writer is flushed before each read and at the end.
///
/// # Errors
/// - `Read`, `Write` and `Turns` as in `Lines::next_line`. `Read` also if there is no memory for a line; exactly the lines before it were
///   answered.
/// - `Desk` if a call is refused because the pass is full or isn't known. `bye pass-full` or `bye strange` is written last. The fault is the
///   same if that write fails.
pub fn talk<N: Naming, R: Wait, D: Calls<N>, I: Read, W: Write>(
    rt: &R,
    alloc: Global,
    config: &Config,
    desk: &D,
    pass: Pass<N>,
    reader: &mut I,
    writer: &mut W,
) -> (Pass<N>, Result<(), TalkFault>)
    ensures calls { (made : List Call) × (result.0.calls ≡ pass.calls ++ made) }
    ensures seat { result.0.seat ≡ pass.seat }
    ensures ok { OnOk result.1 (IfSome (I.remaining reader.old) (TalkedToEnd config.now pass result.0 (Appends (W.contents writer.old) (W.contents writer.new)) (I.remaining reader.new))) }
    ensures fault { IfErr result.1 (λ fault. IfSome (I.remaining reader.old) (λ bytes.
        IsCutOff config.now pass result.0 (Appends (W.contents writer.old) (W.contents writer.new)) (I.remaining reader.new) bytes fault)) }
    ensures reads { AreFewRead result.1 (I.remaining reader.old) (I.remaining reader.new) }
{
    let mut pass = pass;
    let answer = converse(rt, alloc, config, desk, &mut pass, reader, writer);
    (pass, answer)
}

// The same with a borrowed pass.
fn converse<N: Naming, R: Wait, D: Calls<N>, I: Read, W: Write>(
    rt: &R,
    alloc: Global,
    config: &Config,
    desk: &D,
    pass: &mut Pass<N>,
    reader: &mut I,
    writer: &mut W,
) -> Result<(), TalkFault>
    ensures calls { (made : List Call) × (pass.new.calls ≡ pass.old.calls ++ made) }
    ensures seat { pass.new.seat ≡ pass.old.seat }
    ensures ok { OnOk result (IfSome (I.remaining reader.old) (TalkedToEnd config.now pass.old pass.new (Appends (W.contents writer.old) (W.contents writer.new)) (I.remaining reader.new))) }
    ensures fault { IfErr result (λ fault. IfSome (I.remaining reader.old) (λ bytes.
        IsCutOff config.now pass.old pass.new (Appends (W.contents writer.old) (W.contents writer.new)) (I.remaining reader.new) bytes fault)) }
    ensures reads { AreFewRead result (I.remaining reader.old) (I.remaining reader.new) }
{
    let mut session = Session::new(config);
    let mut work = Work::new(alloc);
    let mut lines = Lines::new(alloc);
    let mut texts = Vec::new(alloc);
    loop {
        let behind = lines.next_lines(reader, writer, &mut texts);
        answer_all(rt, desk, &mut session, pass, writer, &texts, &mut work)?;
        if session.has_ended() {
            return flush(writer);
        }
        match behind? {
            Behind::More => {}
            Behind::Bad => return say_bad_line(writer),
            Behind::End => return flush(writer),
        }
    }
}

// Answers these lines, one after the other. Short calls that follow one another are made together.
fn answer_all<N: Naming, R: Wait, D: Calls<N>, W: Write>(
    rt: &R,
    desk: &D,
    session: &mut Session<'_>,
    pass: &mut Pass<N>,
    writer: &mut W,
    lines: &[String],
    work: &mut Work,
) -> Result<(), TalkFault>
    requires { work.old.waiting.items ≡ [] }
    ensures ok { OnOk result (AreAnswered session.old.config session.old.state (map string_bytes lines.now) session.new.state pass.old pass.new (Appends (W.contents writer.old) (W.contents writer.new))) }
    ensures fault { IfErr result (AreUnanswered session.old.config session.old.state (map string_bytes lines.now) pass.old pass.new) }
    ensures none { OnOk result (work.new.waiting.items ≡ []) }
    ensures config { session.new.config ≡ session.old.config }
    ensures seat { pass.new.seat ≡ pass.old.seat }
{
    for line in lines {
        answer(rt, desk, session, pass, writer, line.as_str(), work)?;
    }
    call_waiting(rt, desk, pass, writer, work)
}

// Answers a line, or lets its call wait.
fn answer<N: Naming, R: Wait, D: Calls<N>, W: Write>(
    rt: &R,
    desk: &D,
    session: &mut Session<'_>,
    pass: &mut Pass<N>,
    writer: &mut W,
    line: &str,
    work: &mut Work,
) -> Result<(), TalkFault>
    ensures ok { OnOk result ((from : State) (texts : List (List ℕ)) (first : PassValue) (before : Option (List ℕ))
        → IsUnderWay session.old.config from texts session.old.state work.old.tenant work.old.waiting.items first pass.old (Appends before (W.contents writer.old))
        → IsUnderWay session.old.config from (texts ++ line.now ∷ []) session.new.state work.new.tenant work.new.waiting.items first pass.new (Appends before (W.contents writer.new))) }
    ensures fault { IfErr result (λ fault. (from : State) (texts : List (List ℕ)) (first : PassValue) (before : Option (List ℕ))
        → IsUnderWay session.old.config from texts session.old.state work.old.tenant work.old.waiting.items first pass.old (Appends before (W.contents writer.old))
        → AreUnanswered session.old.config from (texts ++ line.now ∷ []) first pass.new fault) }
    ensures config { session.new.config ≡ session.old.config }
    ensures seat { pass.new.seat ≡ pass.old.seat }
{
    let Ok(step) = session.line(*work.text.allocator(), line) else {
        return call_and_say(rt, desk, pass, writer, work, b"err memory\n");
    };
    match step {
        Step::Quiet => call_waiting(rt, desk, pass, writer, work),
        Step::Say(reply) => {
            let own = reply.as_line().as_bytes();
            call_and_say(rt, desk, pass, writer, work, own)
        }
        Step::Call(tenant, command) => match work.wait(tenant, command) {
            Ok(()) => Ok(()),
            Err(command) => {
                call_waiting(rt, desk, pass, writer, work)?;
                request(rt, desk, pass, writer, tenant, command, &mut work.text)
            }
        },
        Step::End => call_and_say(rt, desk, pass, writer, work, b"bye\n"),
    }
}

// Makes a call and writes its reply, or the reason why there is none.
fn request<N: Naming, R: Wait, D: Calls<N>, W: Write>(
    rt: &R,
    desk: &D,
    pass: &mut Pass<N>,
    writer: &mut W,
    tenant: TenantId,
    command: Command,
    text: &mut String,
) -> Result<(), TalkFault>
    ensures ok { OnOk result ((s : State) → IsAnswered (record { act = call tenant command; state = s }) s pass.old pass.new (Appends (W.contents writer.old) (W.contents writer.new))) }
    ensures fault { IfErr result (λ fault. (s : State) → IsUnanswered (record { act = call tenant command; state = s }) pass.old pass.new fault) }
    ensures seat { pass.new.seat ≡ pass.old.seat }
{
    match desk.call(rt, pass, tenant, command) {
        Ok(reply) => say_reply(writer, &reply, text),
        Err(DeskFault::Memory) => say(writer, b"err memory\n"),
        Err(DeskFault::PassFull) => Err(refuse(writer, DeskFault::PassFull)),
        Err(DeskFault::Strange(length)) => Err(refuse(writer, DeskFault::Strange(length))),
    }
}
