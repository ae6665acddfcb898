//! The lines of a user, from the first one to the end of the session.

ghost use Rattle.std.specs.Prelude.{◌≡◌, ℕ, List, [], IfOk, OnOk, codes, string_bytes};
ghost use Rattle.std.specs.Io.KnownBytes.{Appends};
ghost use Rattle.rig_client.specs.Answers.{kind_of_answer};
ghost use Rattle.rig_client.specs.Ends.{IsAsked, said_to};
ghost use Rattle.rig_client.specs.Requests.{line_of_file};
ghost use Rattle.rig_client.specs.Sessions.{IsAskedAtLast, hello_of};
ghost use Rattle.rig_client.specs.UserLines.{user_line_of};
ghost use Rattle.rig_client.specs.declared.help.TheConstants.{HELP};
ghost use Rattle.rig_client.specs.inner.LineAnswers.{IsLineAnswered, IsRequested};

use crate::answers::{AnswerKind, Server, kind_of_answer};
use crate::faults::ClientFault;
use crate::help::HELP;
use crate::outcomes::{Next, OnRefusal, Outcome, next_after, report_on_refusal};
use crate::programs::{FileFault, ProgramFiles, line_of_file};
use crate::remarks::{remark_on, remark_on_file};
use crate::sessions::{Connections, Sessions, ask};
use crate::user_lines::{FileCommand, UserLine, user_line};
use crate::users::User;
use rig_model::limits::MAX_LINE;
use std::alloc::Global;
use std::io::{BufRead, Read, Write};
use text_lines::lines::Line;

/// Sends the lines of a user, each after the answer to the one before, and writes the answers, until the server ends the session.
///
/// Blank lines aren't sent, and `help` is answered here. `load < FILE` and `replace < FILE` are sent with the text of the file; if the
/// program is refused, what is wrong with the file is reported as `check` does. Remarks on other refusals are reported too. A line that
/// is too long or not UTF-8 is reported, and so is a file that can't be sent; then the next line is read, unless `on_refusal` ends the
/// session after a line that was refused or not sent. If the server ends the session
/// with `bye pass-full`, a new one begins, and the line is sent again there. After the last line `quit` is sent.
///
/// # Errors
/// `Ended` if the server's last line isn't `bye`, and all others but `KeyFile` and `KeyRange`. `Read` also after 2^64 - 1 lines.
pub fn converse<
    I: Read,
    O: Write,
    E: Write,
    R: BufRead + Drop,
    W: Write + Drop,
    C: Connections<R, W>,
    F: ProgramFiles,
>(
    alloc: Global,
    user: &mut User<I, O, E>,
    server: &mut Server<R, W>,
    sessions: &Sessions<C>,
    files: &F,
    on_refusal: OnRefusal,
) -> Result<Outcome, ClientFault> {
    for before in 0..u64::MAX {
        let kind = match user.next_line()? {
            Line::Whole(line) => answer(alloc, user, server, sessions, files, line.as_str())?,
            Line::Bad => {
                user.report_unsent("the line", "is longer than 16384 bytes or isn't UTF-8")?;
                AnswerKind::Refused
            }
            Line::End => leave(alloc, user, server)?,
        };
        match next_after(kind, on_refusal) {
            Next::Line => {}
            Next::Quit => return give_up(alloc, user, server, before + 1),
            Next::Bye => {
                user.flush()?;
                return Ok(Outcome::Bye);
            }
            Next::Ended => {
                user.flush()?;
                return Err(ClientFault::Ended);
            }
        }
    }
    Err(ClientFault::Read)
}

// Ends the session after the last line.
fn leave<I: Read, O: Write, E: Write, R: BufRead, W: Write>(
    alloc: Global,
    user: &mut User<I, O, E>,
    server: &mut Server<R, W>,
) -> Result<AnswerKind, ClientFault>
    ensures { IfOk result (λ kind. (answer : List ℕ) × IsAsked W.contents R.remaining server.old server.new (codes "quit") answer × (kind ≡ kind_of_answer answer)) }
{
    if user.is_prompted() {
        user.say(b"\n")?;
    }
    quit(alloc, user, server)
}

// Ends the session after the line with this number, which was refused or not sent.
fn give_up<I: Read, O: Write, E: Write, R: BufRead, W: Write>(
    alloc: Global,
    user: &mut User<I, O, E>,
    server: &mut Server<R, W>,
    number: u64,
) -> Result<Outcome, ClientFault>
    ensures refused { IfOk result (λ outcome. outcome ≡ Outcome.Refused) }
    ensures quit { OnOk result ((answer : List ℕ) × IsAsked W.contents R.remaining server.old server.new (codes "quit") answer) }
{
    quit(alloc, user, server)?;
    let report = report_on_refusal(alloc, number)?;
    user.report(report.as_str())?;
    Ok(Outcome::Refused)
}

// Sends `quit`, and writes its answer.
fn quit<I: Read, O: Write, E: Write, R: BufRead, W: Write>(
    alloc: Global,
    user: &mut User<I, O, E>,
    server: &mut Server<R, W>,
) -> Result<AnswerKind, ClientFault>
    ensures { IfOk result (λ kind. (answer : List ℕ) × IsAsked W.contents R.remaining server.old server.new (codes "quit") answer × (kind ≡ kind_of_answer answer)) }
{
    let answer = server.ask(alloc, "quit")?;
    show(user, answer.as_slice())
}

// Does what a line asks for.
fn answer<
    I: Read,
    O: Write,
    E: Write,
    R: BufRead + Drop,
    W: Write + Drop,
    C: Connections<R, W>,
    F: ProgramFiles,
>(
    alloc: Global,
    user: &mut User<I, O, E>,
    server: &mut Server<R, W>,
    sessions: &Sessions<C>,
    files: &F,
    line: &str,
) -> Result<AnswerKind, ClientFault>
    ensures { IfOk result (IsLineAnswered (IsAskedAtLast W.contents R.remaining (hello_of sessions.now) server.old server.new) (server.new ≡ server.old)
        (Appends (said_to O.contents user.old) (said_to O.contents user.new)) HELP.now line.now (user_line_of line.now)) }
{
    match user_line(line) {
        UserLine::Blank => Ok(AnswerKind::GoesOn),
        UserLine::Help => {
            user.say(HELP.as_bytes())?;
            Ok(AnswerKind::GoesOn)
        }
        UserLine::OfFile(command, None) => not_sent(
            user,
            command.as_str(),
            "< wants one FILE, without blanks",
        ),
        UserLine::OfFile(command, Some(path)) => match text_of_file(alloc, files, command, path) {
            Ok(line) => request_file(alloc, user, server, sessions, files, (path, line.as_str())),
            Err(fault) => not_sent(user, path, fault.as_str()),
        },
        UserLine::Request => request(alloc, user, server, sessions, line),
    }
}

// Reports why something isn't sent.
fn not_sent<I: Read, O: Write, E: Write>(
    user: &mut User<I, O, E>,
    subject: &str,
    reason: &str,
) -> Result<AnswerKind, ClientFault>
    ensures { IfOk result (λ kind. Appends (said_to O.contents user.old) (said_to O.contents user.new) [] × (kind ≡ AnswerKind.Refused)) }
{
    user.report_unsent(subject, reason)?;
    Ok(AnswerKind::Refused)
}

// The line that sends the file at this path.
fn text_of_file<F: ProgramFiles>(
    alloc: Global,
    files: &F,
    command: FileCommand,
    path: &str,
) -> Result<String, FileFault>
    ensures { IfOk result (λ line. (text : List ℕ) × (string_bytes line ≡ line_of_file command text)) }
{
    let bytes = files.bytes(path, MAX_LINE)?;
    line_of_file(alloc, command, bytes)
}

// Sends a line, and writes its answer, with the remark on it.
fn request<I: Read, O: Write, E: Write, R: BufRead + Drop, W: Write + Drop, C: Connections<R, W>>(
    alloc: Global,
    user: &mut User<I, O, E>,
    server: &mut Server<R, W>,
    sessions: &Sessions<C>,
    line: &str,
) -> Result<AnswerKind, ClientFault>
    ensures { IfOk result (IsRequested (IsAskedAtLast W.contents R.remaining (hello_of sessions.now) server.old server.new)
        (Appends (said_to O.contents user.old) (said_to O.contents user.new)) line.now) }
{
    let answer = ask(alloc, user, server, sessions, line)?;
    let kind = show(user, answer.as_slice())?;
    user.remark(remark_on(alloc, line, answer.as_slice())?)?;
    Ok(kind)
}

// Sends the line of the file at a path, and writes its answer, with the remark on it.
fn request_file<
    I: Read,
    O: Write,
    E: Write,
    R: BufRead + Drop,
    W: Write + Drop,
    C: Connections<R, W>,
    F: ProgramFiles,
>(
    alloc: Global,
    user: &mut User<I, O, E>,
    server: &mut Server<R, W>,
    sessions: &Sessions<C>,
    files: &F,
    file: (&str, &str),
) -> Result<AnswerKind, ClientFault>
    ensures { IfOk result (IsRequested (IsAskedAtLast W.contents R.remaining (hello_of sessions.now) server.old server.new)
        (Appends (said_to O.contents user.old) (said_to O.contents user.new)) file.entry.1.now) }
{
    let answer = ask(alloc, user, server, sessions, file.1)?;
    let kind = show(user, answer.as_slice())?;
    user.remark(remark_on_file(alloc, files, file, answer.as_slice())?)?;
    Ok(kind)
}

// Writes an answer. Returns what it means for the session.
fn show<I: Read, O: Write, E: Write>(
    user: &mut User<I, O, E>,
    answer: &[u8],
) -> Result<AnswerKind, ClientFault>
    ensures { IfOk result (λ kind. Appends (said_to O.contents user.old) (said_to O.contents user.new) answer.now × (kind ≡ kind_of_answer answer.now)) }
{
    user.say(answer)?;
    Ok(kind_of_answer(answer))
}
