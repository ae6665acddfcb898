//! The subcommands, with their arguments and their help.

use crate::arguments::{Argument, Form, Values};
use clap::error::ErrorKind;
use clap::{Command, Error};
use std::alloc::{AllocError, Global};

// Printed below the help of `check`.
const CHECK_EXAMPLES: &str = "\
A file whose name ends with .toml is a configuration, with .script a script, with .run a script with its replies. Each other file is
a program, which may have several lines and // comments. Standard input is a script.

Example: rig_host check examples/first/adder.giotto
         rig_host check --config rig.toml --tenant pump pump.giotto
         rig_host check runs/early_work.run
         (rig_host check --load alpha examples/first/adder.giotto && cat rest.script) | rig_host script
Errors are reported as compilers do, `FILE:LINE:COLUMN: error: ..`, with status 4.";

// Printed below the help of `config`.
const CONFIG_EXAMPLE: &str = "\
Example: rig_host config --for pump rig.toml > rig.pump.toml
         rig_host check --config rig.pump.toml --tenant pump pump.giotto";

// Printed below the help of `script`.
const SCRIPT_EXAMPLES: &str = "\
Example: echo 'op tick 5' | rig_host script
         rig_host script examples/first/first.script --strict --vcd first.vcd
         rig_host script --expect runs/early_work.run
         rig_host script examples/first/first.script --record first.run

A configuration, one [[tenant]] for each tenant (docs/HOST.md lists the fields):
  version = 1
  lines = 8                # lines 0 to 7
  [[tenant]]
  name = \"pump\"
  key = \"kp\"
  reads = [0, 2]           # lines that its sensors may read
  writes = [4, 7]          # lines that its actuators may drive
  bytes = 4096             # the budgets of its programs
  ports = 64
  tasks = 16
  modes = 16
  steps = 10000
  trace = 8
  offers = 4
  binds = 4";

// Printed below the help of `serve`.
const SERVE_EXAMPLE: &str = "\
Example: rig_host serve --port 4000
The operator's lines come from standard input: `tick V ..`, `lines`, `wait`, `archive` and `halt`.";

// Printed below the help of `timeline`.
const TIMELINE_EXAMPLE: &str = "\
Example: rig_host timeline examples/first/first.script -o first.svg
         rig_host timeline --config rig.toml --tenant pump --from 100 --to 200 --ports level,speed rig.script -o pump.svg";

// Printed below the help of `retest`.
const RETEST_EXAMPLE: &str = "\
Example: rig_host retest --config examples/whose_retest/rig.toml --dot retests.dot examples/whose_retest/rig.script
         dot -Tsvg retests.dot -o retests.svg";

// Printed below the help of `trial`.
const TRIAL_EXAMPLE: &str = "\
Example: rig_host trial --config examples/whose_retest/rig.toml lamp examples/whose_retest/rig.script";

// Printed below the help of `compare`.
const COMPARE_EXAMPLE: &str = "\
Example: rig_host script --config rig.toml --record old.run rig.script
         rig_host compare old.run new.script";

// Printed below the help of `audit`.
const AUDIT_EXAMPLE: &str = "\
Example: rig_host serve --port 4000 --history histories
         rig_host audit histories/1.history
         rig_host audit --tenant pump histories/1.history > pump.calls";

// Printed below the help of `test`.
const TEST_EXAMPLE: &str = "\
Example: rig_host script --config rig.toml --record first.run first.script
         rig_host test first.run second.run
         rig_host test --update first.run
The status is 4 if a run differs, and 3 if one can't be run.";

// Printed below the help of `connect`.
const CONNECT_EXAMPLES: &str = "\
Example: rig_host connect 4000 pump --key-file pump.key
         rlwrap rig_host connect 4000 pump --key-file pump.key
         rig_host connect 4000 pump --key-file pump.key --strict < commands
At a terminal each line has a prompt; `rlwrap` adds a history and editing. `help` lists the commands; `load < FILE` and
`replace < FILE` send the text of a file, which may have lines and // comments.
Without --key-file the key is read from the environment variable RIG_HOST_KEY, or else asked for at the terminal, where it is visible.";

/// A subcommand of the program.
#[derive(Clone, Copy, Debug, PartialEq, Eq)]
pub enum Subcommand {
    Check,
    Config,
    Script,
    Serve,
    Connect,
    Timeline,
    Retest,
    Trial,
    Compare,
    Audit,
    Test,
}

const CONFIG: Argument = Argument {
    id: "config",
    form: Form::Option("FILE", Values::Text),
    help: "Read the rig's configuration from FILE, in TOML; default: one line, and the tenants alpha and beta",
    conflicts: [None, None],
    needs: None,
};

const FILE: Argument = Argument {
    id: "file",
    form: Form::File("FILE"),
    help: "Read the script from FILE, or the lines of a run if the name ends with .run; without FILE or with -, from standard input",
    conflicts: [None, None],
    needs: None,
};

const CHECK_ARGUMENTS: [Argument; 6] = [
    CONFIG,
    Argument {
        id: "tenant",
        form: Form::Option("NAME", Values::Text),
        help: "Check programs against the budgets of the tenant NAME",
        conflicts: [None, None],
        needs: None,
    },
    Argument {
        id: "load",
        form: Form::Option("NAME", Values::Text),
        help: "Print the script line with which the tenant NAME loads the program",
        conflicts: [Some("print"), Some("pretty")],
        needs: None,
    },
    Argument {
        id: "print",
        form: Form::Flag,
        help: "Print the program's canonical text, in one line",
        conflicts: [Some("pretty"), None],
        needs: None,
    },
    Argument {
        id: "pretty",
        form: Form::Flag,
        help: "Print the program over many lines, indented",
        conflicts: [None, None],
        needs: None,
    },
    Argument {
        id: "files",
        form: Form::Files("FILE"),
        help: "Check these programs, configurations, scripts and runs; without FILE or with -, a script on standard input",
        conflicts: [None, None],
        needs: None,
    },
];

const CONFIG_ARGUMENTS: [Argument; 2] = [
    Argument {
        id: "for",
        form: Form::Required(None, "NAME"),
        help: "Print the key of the tenant NAME, and hide all other keys",
        conflicts: [None, None],
        needs: None,
    },
    Argument {
        id: "file",
        form: Form::Positional("FILE", Values::Text),
        help: "Read the rig's configuration from FILE, in TOML",
        conflicts: [None, None],
        needs: None,
    },
];

const SCRIPT_ARGUMENTS: [Argument; 9] = [
    FILE,
    CONFIG,
    Argument {
        id: "strict",
        form: Form::Flag,
        help: "Report each refusal, each overrun and a script that is cut off on standard error, with status 4",
        conflicts: [None, None],
        needs: None,
    },
    Argument {
        id: "expect",
        form: Form::Option("FILE", Values::Text),
        help: "Answer the lines of the run FILE, and print what differs from the replies below them, with status 4",
        conflicts: [Some("file"), None],
        needs: None,
    },
    Argument {
        id: "junit",
        form: Form::Option("FILE", Values::Text),
        help: "Write the comparison to FILE as well, as a test suite in JUnit's form",
        conflicts: [Some("file"), None],
        needs: Some("expect"),
    },
    Argument {
        id: "vcd",
        form: Form::Option("FILE", Values::Text),
        help: "Write the run to FILE as well, as a value change dump for a waveform viewer",
        conflicts: [None, None],
        needs: None,
    },
    Argument {
        id: "timescale",
        form: Form::Option("UNIT", Values::Text),
        help: "Let a tick of the dump take UNIT: 1, 10 or 100 and s, ms, us, ns, ps or fs, as '10 us'; default: '1 s'",
        conflicts: [None, None],
        needs: Some("vcd"),
    },
    Argument {
        id: "gtkwave",
        form: Form::Option("FILE", Values::Text),
        help: "Write a save file for gtkwave to FILE as well, with the dump's name and the variables to show",
        conflicts: [None, None],
        needs: Some("vcd"),
    },
    Argument {
        id: "record",
        form: Form::Option("FILE", Values::Text),
        help: "Write the script with its replies to FILE as well, as a run for --expect",
        conflicts: [None, None],
        needs: None,
    },
];

const SERVE_ARGUMENTS: [Argument; 8] = [
    CONFIG,
    Argument {
        id: "port",
        form: Form::Option("N", Values::AnyPort),
        help: "Listen on the port N, 0 to 65535; without it or with 0 the system chooses one",
        conflicts: [None, None],
        needs: None,
    },
    Argument {
        id: "workers",
        form: Form::Option("N", Values::Workers),
        help: "Run jobs in N threads, 1 to 64; default: 2",
        conflicts: [None, None],
        needs: None,
    },
    Argument {
        id: "idle",
        form: Form::Option("SECONDS", Values::Seconds),
        help: "Close a session that is idle for SECONDS, 1 to 86400; default: never",
        conflicts: [None, None],
        needs: None,
    },
    Argument {
        id: "hello-timeout",
        form: Form::Option("SECONDS", Values::Seconds),
        help: "Close a connection in which no tenant is greeted within SECONDS, 1 to 86400; default: never",
        conflicts: [None, None],
        needs: None,
    },
    Argument {
        id: "ungreeted",
        form: Form::Option("N", Values::Connections),
        help: "Close the oldest connection in which no tenant is greeted once there are more than N, 1 to 65536; default: never",
        conflicts: [None, None],
        needs: None,
    },
    Argument {
        id: "drain",
        form: Form::Option("SECONDS", Values::Seconds),
        help: "Close the sessions that are still open SECONDS after a halt, 1 to 86400; default: never",
        conflicts: [None, None],
        needs: None,
    },
    Argument {
        id: "history",
        form: Form::Option("FOLDER", Values::Text),
        help: "Write each call with its reply, each instant and each completion to a new file in FOLDER; default: nowhere",
        conflicts: [None, None],
        needs: None,
    },
];

const CONNECT_ARGUMENTS: [Argument; 4] = [
    Argument {
        id: "port",
        form: Form::Positional("PORT", Values::Port),
        help: "Connect to the server at this port, 1 to 65535",
        conflicts: [None, None],
        needs: None,
    },
    Argument {
        id: "name",
        form: Form::Positional("NAME", Values::Text),
        help: "Greet the server as the tenant NAME",
        conflicts: [None, None],
        needs: None,
    },
    Argument {
        id: "key-file",
        form: Form::Option("FILE", Values::Text),
        help: "Read the tenant's key from the first line of FILE",
        conflicts: [None, None],
        needs: None,
    },
    Argument {
        id: "strict",
        form: Form::Flag,
        help: "End the session after a line that is refused or not sent, with status 4",
        conflicts: [None, None],
        needs: None,
    },
];

const TIMELINE_ARGUMENTS: [Argument; 7] = [
    FILE,
    CONFIG,
    Argument {
        id: "tenant",
        form: Form::Option("TENANT", Values::Text),
        help: "Draw the run of TENANT alone; default: those of all tenants that load a program, one below another",
        conflicts: [None, None],
        needs: None,
    },
    Argument {
        id: "from",
        form: Form::Option("TICK", Values::Tick),
        help: "Begin the picture with TICK; default: the first of the script",
        conflicts: [None, None],
        needs: None,
    },
    Argument {
        id: "to",
        form: Form::Option("TICK", Values::Tick),
        help: "End the picture with TICK; default: the last of the script",
        conflicts: [None, None],
        needs: None,
    },
    Argument {
        id: "ports",
        form: Form::Options("NAME"),
        help: "Draw these sensors, actuators and outputs alone, with commas between the names; default: all sensors and actuators",
        conflicts: [None, None],
        needs: None,
    },
    Argument {
        id: "output",
        form: Form::Required(Some('o'), "FILE"),
        help: "Write the picture, an SVG, to FILE: a name that ends with .svg, or - for standard output",
        conflicts: [None, None],
        needs: None,
    },
];

const RETEST_ARGUMENTS: [Argument; 3] = [
    FILE,
    CONFIG,
    Argument {
        id: "dot",
        form: Form::Option("FILE", Values::Text),
        help: "Write the binds and the declared plant to FILE as well, as a graph for graphviz",
        conflicts: [None, None],
        needs: None,
    },
];

const TRIAL_ARGUMENTS: [Argument; 4] = [
    CONFIG,
    Argument {
        id: "summary",
        form: Form::Flag,
        help: "Print which tenants are left out and how many replies are compared, instead of the lines",
        conflicts: [None, None],
        needs: None,
    },
    Argument {
        id: "tenant",
        form: Form::Positional("TENANT", Values::Text),
        help: "Compare the answers of TENANT",
        conflicts: [None, None],
        needs: None,
    },
    FILE,
];

const COMPARE_ARGUMENTS: [Argument; 5] = [
    CONFIG,
    Argument {
        id: "tenant",
        form: Form::Option("NAME", Values::Text),
        help: "Compare the answers of the tenant NAME alone; default: those of all tenants, and the driven lines",
        conflicts: [None, None],
        needs: None,
    },
    Argument {
        id: "tolerance",
        form: Form::Option("N", Values::Difference),
        help: "Take values that differ by at most N, 0 to 9223372036854775807, as the same; default: 0",
        conflicts: [None, None],
        needs: None,
    },
    Argument {
        id: "old",
        form: Form::Positional("OLD", Values::Text),
        help: "Read the old script from OLD, or the lines of a run if the name ends with .run; with -, from standard input",
        conflicts: [None, None],
        needs: None,
    },
    Argument {
        id: "new",
        form: Form::Positional("NEW", Values::Text),
        help: "Read the new script from NEW, likewise",
        conflicts: [None, None],
        needs: None,
    },
];

const AUDIT_ARGUMENTS: [Argument; 2] = [
    Argument {
        id: "file",
        form: Form::File("FILE"),
        help: "Read the history from FILE; without FILE or with -, from standard input",
        conflicts: [None, None],
        needs: None,
    },
    Argument {
        id: "tenant",
        form: Form::Option("NAME", Values::Text),
        help: "Print the commands of the tenant NAME with their replies as well, as they are in the history",
        conflicts: [None, None],
        needs: None,
    },
];

const TEST_ARGUMENTS: [Argument; 3] = [
    Argument {
        id: "runs",
        form: Form::RequiredFiles("RUN"),
        help: "Answer the lines of these runs, each on a new rig, and compare the replies",
        conflicts: [None, None],
        needs: None,
    },
    CONFIG,
    Argument {
        id: "update",
        form: Form::Flag,
        help: "Write the replies that came into the runs that differ; all other lines stay",
        conflicts: [None, None],
        needs: None,
    },
];

impl Subcommand {
    /// All of them, in the order of the help.
    pub const ALL: [Subcommand; 11] = [
        Subcommand::Check,
        Subcommand::Config,
        Subcommand::Script,
        Subcommand::Test,
        Subcommand::Serve,
        Subcommand::Connect,
        Subcommand::Timeline,
        Subcommand::Retest,
        Subcommand::Trial,
        Subcommand::Compare,
        Subcommand::Audit,
    ];

    /// Returns its command, with its arguments and their help.
    ///
    /// # Errors
    /// Out of memory.
    pub(crate) fn command<'a>(self, alloc: Global) -> Result<Command<'a>, AllocError> {
        let command = Command::new(alloc, self.name())
            .about(self.about())
            .after_help(self.examples());
        match self {
            Subcommand::Check => with_arguments(alloc, command, &CHECK_ARGUMENTS),
            Subcommand::Config => with_arguments(alloc, command, &CONFIG_ARGUMENTS),
            Subcommand::Script => with_arguments(alloc, command, &SCRIPT_ARGUMENTS),
            Subcommand::Serve => with_arguments(alloc, command, &SERVE_ARGUMENTS),
            Subcommand::Connect => with_arguments(alloc, command, &CONNECT_ARGUMENTS),
            Subcommand::Timeline => with_arguments(alloc, command, &TIMELINE_ARGUMENTS),
            Subcommand::Retest => with_arguments(alloc, command, &RETEST_ARGUMENTS),
            Subcommand::Trial => with_arguments(alloc, command, &TRIAL_ARGUMENTS),
            Subcommand::Compare => with_arguments(alloc, command, &COMPARE_ARGUMENTS),
            Subcommand::Audit => with_arguments(alloc, command, &AUDIT_ARGUMENTS),
            Subcommand::Test => with_arguments(alloc, command, &TEST_ARGUMENTS),
        }
    }

    /// Returns the message for wrong arguments of this subcommand; the text says what is wrong.
    ///
    /// # Errors
    /// Out of memory.
    pub fn error(self, alloc: Global, text: &str) -> Result<Error, AllocError> {
        // the usage that is printed with the text begins with it
        let called = format!(in alloc; "rig_host {}", self.name())?;
        self.command(alloc)?
            .bin_name(called.as_str())?
            .error(ErrorKind::ValueValidation, text)
    }

    // Its name.
    fn name<'a>(self) -> &'a str {
        match self {
            Subcommand::Check => "check",
            Subcommand::Config => "config",
            Subcommand::Script => "script",
            Subcommand::Serve => "serve",
            Subcommand::Connect => "connect",
            Subcommand::Timeline => "timeline",
            Subcommand::Retest => "retest",
            Subcommand::Trial => "trial",
            Subcommand::Compare => "compare",
            Subcommand::Audit => "audit",
            Subcommand::Test => "test",
        }
    }

    // The sentence of the help that says what it does.
    fn about<'a>(self) -> &'a str {
        match self {
            Subcommand::Check => "Check programs, configurations and scripts",
            Subcommand::Config =>
                "Print the configuration of a rig as one supplier may have it: the keys of the other tenants are hidden",
            Subcommand::Script =>
                "Run a script of lines `TENANT COMMAND`, `op tick V ..`, `op work` and `op lines`, and answer each on standard output before reading the next",
            Subcommand::Serve =>
                "Listen on 127.0.0.1, answer a session for each connection, and take the operator's lines from standard input",
            Subcommand::Connect =>
                "Greet a server on 127.0.0.1 as a tenant, send the lines of standard input, each after the answer to the one before, and print the answers",
            Subcommand::Timeline =>
                "Draw the runs of tenants in a script: their modes, tasks, sensors and actuators over the ticks",
            Subcommand::Retest =>
                "Read a script, and print which tenant's change calls for which tenant's retest, through which binds, and from which line on",
            Subcommand::Trial =>
                "Run a script twice, in whole and without what can't reach one tenant, and print that tenant's answers of both runs side by side",
            Subcommand::Compare =>
                "Run two scripts, and print whose answers differ, where they first do, and whose do though no retest names them",
            Subcommand::Audit =>
                "Play the history that a server wrote on a new rig, and compare each reply with what the rig computes",
            Subcommand::Test =>
                "Answer the lines of runs, and print what differs from the replies below them, and how many runs differ",
        }
    }

    // The text below its help.
    fn examples<'a>(self) -> &'a str {
        match self {
            Subcommand::Check => CHECK_EXAMPLES,
            Subcommand::Config => CONFIG_EXAMPLE,
            Subcommand::Script => SCRIPT_EXAMPLES,
            Subcommand::Serve => SERVE_EXAMPLE,
            Subcommand::Connect => CONNECT_EXAMPLES,
            Subcommand::Timeline => TIMELINE_EXAMPLE,
            Subcommand::Retest => RETEST_EXAMPLE,
            Subcommand::Trial => TRIAL_EXAMPLE,
            Subcommand::Compare => COMPARE_EXAMPLE,
            Subcommand::Audit => AUDIT_EXAMPLE,
            Subcommand::Test => TEST_EXAMPLE,
        }
    }
}

// A command with these arguments, in the order of the help.
fn with_arguments<'a>(
    alloc: Global,
    command: Command<'a>,
    arguments: &[Argument],
) -> Result<Command<'a>, AllocError> {
    let mut command = command;
    for argument in arguments {
        command = command.arg(argument.arg(alloc)?)?;
    }
    Ok(command)
}
