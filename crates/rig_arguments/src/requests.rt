//! The requests to the program, by its subcommands.

ghost use Rattle.std.specs.Prelude.{◌≡◌, Some, option_map};
ghost use Rattle.rig_arguments.specs.inner.Inputs.{name_of, path_in, path_of};

use clap::{ArgMatches, Error};
use std::alloc::{AllocError, Global};

/// What the arguments request.
#[derive(Drop)]
pub enum Request<'a> {
    /// A text for standard output, as of `--help`.
    Text(Error),
    /// A check of files.
    Check(CheckRequest<'a>),
    /// The configuration of a rig as one supplier may have it.
    Config(ConfigRequest<'a>),
    /// The answers to a script.
    Script(ScriptRequest<'a>),
    /// The server of a rig.
    Serve(ServeRequest<'a>),
    /// A session of a server.
    Connect(ConnectRequest<'a>),
    /// The timelines of tenants in a script.
    Timeline(TimelineRequest<'a>),
    /// The table of retests of a script.
    Retest(RetestRequest<'a>),
    /// The trial of one tenant in a script.
    Trial(TrialRequest<'a>),
    /// The comparison of two scripts.
    Compare(CompareRequest<'a>),
    /// The audit of a history.
    Audit(AuditRequest<'a>),
    /// The test of runs.
    Test(TestRequest<'a>),
}

/// What is read, as the arguments name it.
#[derive(Clone, Copy, Debug, PartialEq, Eq)]
pub enum Input<'a> {
    /// Standard input: no FILE is given, or `-`.
    Standard,
    /// The file at this path.
    File(&'a str),
}

impl<'a> Input<'a> {
    /// Returns the path; `None` for standard input.
    pub fn path(self) -> Option<&'a str>
        ensures { option_map (λ path. path.now) result ≡ path_of self.entry }
    {
        match self {
            Input::Standard => None,
            Input::File(path) => Some(path),
        }
    }

    /// Returns the name for messages: the path, or `-`.
    pub fn name(self) -> &'a str
        ensures { result.now ≡ name_of self.entry }
    {
        self.path().unwrap_or("-")
    }

    // The input of a FILE.
    fn of_file(path: &'a str) -> Input<'a>
        ensures { path_of result ≡ path_in (Some path.now) }
    {
        if path == "-" {
            Input::Standard
        } else {
            Input::File(path)
        }
    }

    // The input of an optional FILE.
    fn of_argument(path: Option<&'a str>) -> Input<'a>
        ensures { path_of result ≡ path_in (option_map (λ p. p.now) path.entry) }
    {
        match path {
            Some(path) => Input::of_file(path),
            None => Input::Standard,
        }
    }
}

/// Which files are checked, and what is printed of them.
#[derive(Drop)]
pub struct CheckRequest<'a> {
    /// The path of the configuration; `None` for the built-in one, or the one that a run names.
    pub config: Option<&'a str>,
    /// The name of the tenant whose budgets programs are checked against; `None` if they aren't.
    pub tenant: Option<&'a str>,
    /// The name of the tenant that loads a program, if the line of a script that does so is requested.
    pub load: Option<&'a str>,
    /// Whether a program's canonical text is requested.
    pub print: bool,
    /// Whether a program laid out over many lines is requested.
    pub pretty: bool,
    /// The files, at least one. Standard input has a script.
    pub files: Vec<Input<'a>>,
}

/// Which configuration is printed, and for which supplier.
#[derive(Clone, Copy)]
pub struct ConfigRequest<'a> {
    /// The path of the configuration.
    pub config: &'a str,
    /// The name of the tenant whose key is shown.
    pub tenant: &'a str,
}

/// Which script is answered, and what is reported about it.
#[derive(Clone, Copy)]
pub struct ScriptRequest<'a> {
    /// The path of the configuration; `None` for the built-in one, or the one that a run names.
    pub config: Option<&'a str>,
    /// The script. Not read if a run is compared, which has the script.
    pub input: Input<'a>,
    /// The run whose replies are compared, if that is requested.
    pub expect: Option<ExpectRequest<'a>>,
    /// Whether a report of what went wrong is requested.
    pub strict: bool,
    /// The value change dump, if one is requested.
    pub dump: Option<DumpRequest<'a>>,
    /// The path of the run that the script with its replies is written to, if that is requested.
    pub record: Option<&'a str>,
}

/// Where a value change dump is written, and how.
#[derive(Clone, Copy)]
pub struct DumpRequest<'a> {
    /// The path of the dump.
    pub path: &'a str,
    /// The duration of a tick, if one is given.
    pub timescale: Option<&'a str>,
    /// The path of the save file for gtkwave, if one is requested.
    pub save: Option<&'a str>,
}

/// Which run is compared.
#[derive(Clone, Copy)]
pub struct ExpectRequest<'a> {
    /// The path of the run.
    pub run: &'a str,
    /// The path of the suite, if one is requested.
    pub suite: Option<&'a str>,
}

/// What `serve` is started with.
#[derive(Clone, Copy)]
pub struct ServeRequest<'a> {
    /// The path of the configuration; `None` for the built-in one.
    pub config: Option<&'a str>,
    /// The port; 0 for one that the system chooses.
    pub port: u16,
    /// The number of workers that run jobs, 1 to 64.
    pub workers: u8,
    /// How many seconds a session may be idle, if there is a bound.
    pub idle: Option<u32>,
    /// How many seconds a client may take until it has greeted, if there is a bound.
    pub hello_timeout: Option<u32>,
    /// How many connections may be open in which no tenant was greeted, if there is a bound.
    pub ungreeted: Option<u32>,
    /// How many seconds a session may go on after a halt, if there is a bound.
    pub drain: Option<u32>,
    /// The path of the folder in which a history is written, if one is requested.
    pub history: Option<&'a str>,
}

/// What `connect` is started with.
#[derive(Clone, Copy)]
pub struct ConnectRequest<'a> {
    /// The port of the server on this machine.
    pub port: u16,
    /// The name of the tenant.
    pub name: &'a str,
    /// The path of the file with the key; `None` for the key of the environment, or the answer at the terminal.
    pub key_file: Option<&'a str>,
    /// Whether a line that is refused or not sent ends the session.
    pub strict: bool,
}

/// Which timelines are drawn, and where.
#[derive(Drop)]
pub struct TimelineRequest<'a> {
    /// The path of the configuration; `None` for the built-in one, or the one that a run names.
    pub config: Option<&'a str>,
    /// The script.
    pub input: Input<'a>,
    /// The name of the tenant; `None` for all that load a program.
    pub tenant: Option<&'a str>,
    /// The first drawn tick; `None` for that of the script.
    pub from: Option<u64>,
    /// The last drawn tick; `None` for that of the script.
    pub to: Option<u64>,
    /// The names of the drawn sensors, actuators and outputs; none for all sensors and actuators.
    pub ports: Vec<&'a str>,
    /// The path of the picture.
    pub picture: &'a str,
}

/// Which table of retests is printed.
#[derive(Clone, Copy)]
pub struct RetestRequest<'a> {
    /// The path of the configuration; `None` for the built-in one, or the one that a run names.
    pub config: Option<&'a str>,
    /// The script.
    pub input: Input<'a>,
    /// The path of the graph, if one is requested.
    pub graph: Option<&'a str>,
}

/// Which trial is printed.
#[derive(Clone, Copy)]
pub struct TrialRequest<'a> {
    /// The path of the configuration; `None` for the built-in one, or the one that a run names.
    pub config: Option<&'a str>,
    /// The script.
    pub input: Input<'a>,
    /// The name of the tenant.
    pub tenant: &'a str,
    /// Whether a summary is printed instead of the lines.
    pub is_summary: bool,
}

/// Which scripts are compared.
#[derive(Clone, Copy)]
pub struct CompareRequest<'a> {
    /// The path of the configuration; `None` for the built-in one, or the one that a run names.
    pub config: Option<&'a str>,
    /// The name of the only tenant that is compared; `None` for the whole rig.
    pub tenant: Option<&'a str>,
    /// By how much two values may differ and still count as the same.
    pub tolerance: u64,
    /// The old script.
    pub old: Input<'a>,
    /// The new script.
    pub new: Input<'a>,
}

/// Which history is audited, and whose calls are printed.
#[derive(Clone, Copy)]
pub struct AuditRequest<'a> {
    /// The history.
    pub input: Input<'a>,
    /// The name of the tenant whose calls are printed; `None` if none are.
    pub tenant: Option<&'a str>,
}

/// Which runs are tested, and whether they are updated.
#[derive(Drop)]
pub struct TestRequest<'a> {
    /// The path of the configuration; `None` for the built-in one, or the one that a run names.
    pub config: Option<&'a str>,
    /// Whether the runs that differ get the replies that came.
    pub update: bool,
    /// The paths of the runs, at least one.
    pub runs: Vec<&'a str>,
}

/// Returns the request that the matches of the arguments make.
///
/// # Errors
/// Out of memory.
pub(crate) fn request_of<'a>(
    alloc: Global,
    matches: &ArgMatches<'a>,
) -> Result<Request<'a>, AllocError> {
    if let Some(words) = matches.subcommand_matches("check") {
        return Ok(Request::Check(check_of(alloc, words)?));
    }
    if let Some(words) = matches.subcommand_matches("test") {
        return Ok(Request::Test(test_of(alloc, words)?));
    }
    if let Some(request) = config_of(matches) {
        return Ok(Request::Config(request));
    }
    if let Some(request) = session_of(matches) {
        return Ok(request);
    }
    if let Some(words) = matches.subcommand_matches("timeline")
        && let Some(path) = words.get_str("output")
    {
        return Ok(Request::Timeline(timeline_of(alloc, words, path)?));
    }
    if let Some(request) = report_of(matches) {
        return Ok(request);
    }
    Ok(Request::Script(script_of(matches)))
}

// The requested configuration for a supplier, if one is requested.
fn config_of<'a>(matches: &ArgMatches<'a>) -> Option<ConfigRequest<'a>> {
    let words = matches.subcommand_matches("config")?;
    Some(ConfigRequest {
        config: words.get_str("file")?,
        tenant: words.get_str("for")?,
    })
}

// The requested server, or the requested session of one, if either is requested.
fn session_of<'a>(matches: &ArgMatches<'a>) -> Option<Request<'a>> {
    if let Some(words) = matches.subcommand_matches("serve") {
        return Some(Request::Serve(server_of(words)));
    }
    let words = matches.subcommand_matches("connect")?;
    Some(Request::Connect(client_of(words)?))
}

// The requested table or comparison of scripts, or audit of a history, if one is requested.
fn report_of<'a>(matches: &ArgMatches<'a>) -> Option<Request<'a>> {
    if let Some(words) = matches.subcommand_matches("retest") {
        return Some(Request::Retest(retest_of(words)));
    }
    if let Some(words) = matches.subcommand_matches("audit") {
        return Some(Request::Audit(audit_of(words)));
    }
    if let Some(words) = matches.subcommand_matches("compare") {
        return Some(Request::Compare(compared_of(words)?));
    }
    let words = matches.subcommand_matches("trial")?;
    Some(Request::Trial(trial_of(words)?))
}

fn check_of<'a>(alloc: Global, words: &ArgMatches<'a>) -> Result<CheckRequest<'a>, AllocError> {
    Ok(CheckRequest {
        config: words.get_str("config"),
        tenant: words.get_str("tenant"),
        load: words.get_str("load"),
        print: words.get_flag("print"),
        pretty: words.get_flag("pretty"),
        files: inputs_of(alloc, words)?,
    })
}

// The inputs of any number of files. None is standard input.
fn inputs_of<'a>(alloc: Global, words: &ArgMatches<'a>) -> Result<Vec<Input<'a>>, AllocError> {
    let mut inputs = Vec::new(alloc);
    let Some(paths) = words.get_strs("files") else {
        inputs.push(Input::Standard)?;
        return Ok(inputs);
    };
    for path in paths {
        inputs.push(Input::of_file(path))?;
    }
    Ok(inputs)
}

fn test_of<'a>(alloc: Global, words: &ArgMatches<'a>) -> Result<TestRequest<'a>, AllocError> {
    Ok(TestRequest {
        config: words.get_str("config"),
        update: words.get_flag("update"),
        runs: texts_of(alloc, words, "runs")?,
    })
}

// The texts of an argument that may have several.
fn texts_of<'a>(
    alloc: Global,
    words: &ArgMatches<'a>,
    id: &str,
) -> Result<Vec<&'a str>, AllocError> {
    let mut texts = Vec::new(alloc);
    if let Some(values) = words.get_strs(id) {
        for value in values {
            texts.push(*value)?;
        }
    }
    Ok(texts)
}

// The input of the argument FILE.
fn input_of<'a>(words: &ArgMatches<'a>) -> Input<'a> {
    Input::of_argument(words.get_str("file"))
}

fn script_of<'a>(matches: &ArgMatches<'a>) -> ScriptRequest<'a> {
    match matches.subcommand_matches("script") {
        Some(words) => ScriptRequest {
            config: words.get_str("config"),
            input: input_of(words),
            expect: expected_of(words),
            strict: words.get_flag("strict"),
            dump: dump_of(words),
            record: words.get_str("record"),
        },
        None => ScriptRequest {
            config: None,
            input: Input::Standard,
            expect: None,
            strict: false,
            dump: None,
            record: None,
        },
    }
}

fn dump_of<'a>(words: &ArgMatches<'a>) -> Option<DumpRequest<'a>> {
    Some(DumpRequest {
        path: words.get_str("vcd")?,
        timescale: words.get_str("timescale"),
        save: words.get_str("gtkwave"),
    })
}

fn expected_of<'a>(words: &ArgMatches<'a>) -> Option<ExpectRequest<'a>> {
    Some(ExpectRequest {
        run: words.get_str("expect")?,
        suite: words.get_str("junit"),
    })
}

fn server_of<'a>(words: &ArgMatches<'a>) -> ServeRequest<'a> {
    ServeRequest {
        config: words.get_str("config"),
        port: words.get_one::<u16>("port").unwrap_or(0),
        workers: words.get_one::<u8>("workers").unwrap_or(2),
        idle: words.get_one::<u32>("idle"),
        hello_timeout: words.get_one::<u32>("hello-timeout"),
        ungreeted: words.get_one::<u32>("ungreeted"),
        drain: words.get_one::<u32>("drain"),
        history: words.get_str("history"),
    }
}

fn client_of<'a>(words: &ArgMatches<'a>) -> Option<ConnectRequest<'a>> {
    Some(ConnectRequest {
        port: words.get_one::<u16>("port")?,
        name: words.get_str("name")?,
        key_file: words.get_str("key-file"),
        strict: words.get_flag("strict"),
    })
}

fn timeline_of<'a>(
    alloc: Global,
    words: &ArgMatches<'a>,
    picture: &'a str,
) -> Result<TimelineRequest<'a>, AllocError> {
    Ok(TimelineRequest {
        config: words.get_str("config"),
        input: input_of(words),
        tenant: words.get_str("tenant"),
        from: words.get_one::<u64>("from"),
        to: words.get_one::<u64>("to"),
        ports: texts_of(alloc, words, "ports")?,
        picture,
    })
}

fn retest_of<'a>(words: &ArgMatches<'a>) -> RetestRequest<'a> {
    RetestRequest {
        config: words.get_str("config"),
        input: input_of(words),
        graph: words.get_str("dot"),
    }
}

fn trial_of<'a>(words: &ArgMatches<'a>) -> Option<TrialRequest<'a>> {
    Some(TrialRequest {
        config: words.get_str("config"),
        input: input_of(words),
        tenant: words.get_str("tenant")?,
        is_summary: words.get_flag("summary"),
    })
}

fn compared_of<'a>(words: &ArgMatches<'a>) -> Option<CompareRequest<'a>> {
    Some(CompareRequest {
        config: words.get_str("config"),
        tenant: words.get_str("tenant"),
        tolerance: words.get_one::<u64>("tolerance").unwrap_or(0),
        old: Input::of_file(words.get_str("old")?),
        new: Input::of_file(words.get_str("new")?),
    })
}

fn audit_of<'a>(words: &ArgMatches<'a>) -> AuditRequest<'a> {
    AuditRequest {
        input: input_of(words),
        tenant: words.get_str("tenant"),
    }
}
