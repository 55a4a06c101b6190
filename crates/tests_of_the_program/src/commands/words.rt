//! The commands that words name.
use super::desks::SAMPLE_BANK;
use super::lists::OPTIONS;
use cli_submit::SubmitOptions;
use desk_cli::{Command, LineFault, ServeOptions, Syncs, command_of};
use std::alloc::Global;

/// Options without values.
const NOTHING: SubmitOptions<'static> = SubmitOptions {
    company: "",
    key: "",
    reference: "",
    sec: "",
    direction: "",
    description: "",
    day: "",
};

/// Words, and the command that they name.
const COMMANDS: &[(&[&str], Command<'static>)] = &[
    (&[], Command::AnswerSubmission),
    (
        &[
            "submit",
            "pay.csv",
            "--company",
            "MILL01",
            "--key",
            "mill-street-key",
            "--ref",
            "PAY-1",
            "--sec",
            "PPD",
            "--direction",
            "credit",
            "--description",
            "PAYROLL",
            "--day",
            "2025-01-10",
        ],
        Command::Submit("pay.csv", OPTIONS),
    ),
    (
        &[
            "submit",
            "--day=2025-01-10",
            "--description=PAYROLL",
            "--direction=credit",
            "--sec=PPD",
            "--ref=PAY-1",
            "--key=mill-street-key",
            "--company=MILL01",
            "pay.csv",
        ],
        Command::Submit("pay.csv", OPTIONS),
    ),
    (
        &[
            "submit",
            "--company=",
            "--key=",
            "--ref=",
            "--sec=",
            "--direction=",
            "--description=",
            "--day=",
            "--",
            "--list",
        ],
        Command::Submit("--list", NOTHING),
    ),
    (&["check", "returns.ach"], Command::Check("returns.ach")),
    (&["check", ""], Command::Check("")),
    (&["check", "--", "-"], Command::Check("-")),
    (&["stdio"], Command::AnswerMessages),
    (
        &["stdio", "desk.db"],
        Command::AnswerByFile("desk.db", Syncs::Twice),
    ),
    (
        &["stdio", "--sync", "once", "desk.db"],
        Command::AnswerByFile("desk.db", Syncs::Once),
    ),
    (
        &["stdio", "desk.db", "--sync=twice"],
        Command::AnswerByFile("desk.db", Syncs::Twice),
    ),
    (&["migrate", "desk.db"], Command::Migrate("desk.db")),
    (
        &["serve", "desk.db", "1"],
        Command::Serve(
            "desk.db",
            ServeOptions {
                port: 1,
                connections: 1_000,
                patience: 30,
                syncs: Syncs::Twice,
            },
        ),
    ),
    (
        &[
            "serve",
            "desk.db",
            "65535",
            "--connections",
            "1",
            "--patience=3600",
        ],
        Command::Serve(
            "desk.db",
            ServeOptions {
                port: 65_535,
                connections: 1,
                patience: 3_600,
                syncs: Syncs::Twice,
            },
        ),
    ),
    (
        &["serve", "desk.db", "8080", "--sync=once"],
        Command::Serve(
            "desk.db",
            ServeOptions {
                port: 8080,
                connections: 1_000,
                patience: 30,
                syncs: Syncs::Once,
            },
        ),
    ),
    (
        &["serve", "--connections=1000000", "desk.db", "8080"],
        Command::Serve(
            "desk.db",
            ServeOptions {
                port: 8080,
                connections: 1_000_000,
                patience: 30,
                syncs: Syncs::Twice,
            },
        ),
    ),
    (
        &[
            "init",
            "desk.db",
            "--key=operator-key",
            "--odfi",
            "121042882",
            "--odfi-name=OUR BANK",
            "--destination",
            "061000146",
            "--destination-name",
            "ACH OPERATOR",
        ],
        Command::Init("desk.db", SAMPLE_BANK),
    ),
];

/// Words that ask for help, and a part of its text.
const HELP: &[(&[&str], &str)] = &[
    (&["--help"], "submit"),
    (&["submit", "--help"], "Usage: achdesk submit "),
    (&["submit", "a", "-h"], "--description <TEXT>"),
    (&["help", "submit"], "Usage: achdesk submit "),
    (&["submit", "a", "--help"], "--direction <DIRECTION>"),
    (&["--help"], "check"),
    (&["-h"], "check"),
    (&["check", "--help"], "Usage: achdesk check <FILE>"),
    (&["check", "a", "-h"], "FILE"),
    (&["help"], "check"),
    (&["help", "check"], "Usage: achdesk check <FILE>"),
    (&["--help"], "stdio"),
    (&["stdio", "--help"], "Usage: achdesk stdio"),
    (&["--help"], "init"),
    (&["init", "--help"], "--odfi-name <ODFI_NAME>"),
    (&["--help"], "serve"),
    (&["serve", "--help"], "--connections"),
    (&["serve", "--help"], "--sync <WHEN>"),
    (&["stdio", "--help"], "--sync <WHEN>"),
    (&["--help"], "migrate"),
    (&["migrate", "--help"], "Usage: achdesk migrate <DB>"),
];

/// Words that do not name a command, and a part of the text that is printed.
const USAGE: &[(&[&str], &str)] = &[
    (&["submit"], "--company <COMPANY>"),
    (&["submit", "a", "--key", "k"], "--day <DAY>"),
    (
        &["submit", "a", "--key", "k", "--key", "k"],
        "'--key <KEY>'",
    ),
    (&["submit", "a", "--amount", "1"], "'--amount'"),
    (&["check"], "FILE"),
    (&["check", "a", "b"], "'b'"),
    (&["check", "a", "check"], "'check'"),
    (&["bogus"], "'bogus'"),
    (&["bogus", "check", "a"], "'bogus'"),
    (&["Check", "a"], "'Check'"),
    (&["help", "bogus"], "'bogus'"),
    (&[""], "''"),
    (&["check", "--fast", "a"], "'--fast'"),
    (&["stdio", "desk.db", "more.db"], "'more.db'"),
    (&["--fast"], "'--fast'"),
    (
        &["stdio", "desk.db", "--sync", "thrice"],
        "invalid value 'thrice' for '--sync <WHEN>'",
    ),
    (&["stdio", "desk.db", "--sync="], "'--sync <WHEN>'"),
    (&["stdio", "desk.db", "--sync"], "'--sync <WHEN>'"),
    (
        &["stdio", "desk.db", "--sync=once", "--sync=once"],
        "'--sync <WHEN>'",
    ),
    (&["stdio", "--sync", "once"], "<DB>"),
    (&["stdio", "--sync=twice"], "<DB>"),
    (&["serve", "desk.db", "8080", "--sync", "Once"], "'Once'"),
    (&["init", "desk.db", "--sync", "once"], "'--sync'"),
    (&["migrate", "desk.db", "--sync", "once"], "'--sync'"),
    (
        &["init", "desk.db", "--odfi", "121042882"],
        "--destination-name <DESTINATION_NAME>",
    ),
    (&["init", "desk.db", "more.db"], "'more.db'"),
];

// Do the words name this command?
fn names(alloc: Global, words: &[&str], wanted: Command<'_>) -> bool {
    match command_of(alloc, words) {
        Ok(command) => command == wanted,
        Err(_) => false,
    }
}

// Reports whether the text for the words, help or a usage error, has this part.
fn tells(alloc: Global, words: &[&str], is_help: bool, part: &str) -> bool {
    match command_of(alloc, words) {
        Err(LineFault::Help(text)) => is_help && text.as_str().contains(part),
        Err(LineFault::Usage(text)) => !is_help && text.as_str().contains(part),
        Err(LineFault::Version | LineFault::NoMemory) | Ok(_) => false,
    }
}

#[test]
fn commands(rt: HostRuntime) {
    for &(words, wanted) in COMMANDS {
        assert!(rt; names(rt.alloc(), words, wanted), "{words:?}");
    }
}

#[test]
fn help(rt: HostRuntime) {
    for &(words, part) in HELP {
        assert!(rt; tells(rt.alloc(), words, true, part), "{words:?}");
    }
}

#[test]
fn usage(rt: HostRuntime) {
    for &(words, part) in USAGE {
        assert!(rt; tells(rt.alloc(), words, false, part), "{words:?}");
    }
}
