//! Commands that are carried out, and words that name none.
use super::{NOBODY, PAY_1, PAY_1_LINE, carry_out_words, prints};
use desk_cli::{Command, LineFault, Status, VERSION_LINE, print_line_fault};
use std::alloc::Global;
use std::test::Fail;

/// Words, the exit status, and what the first line begins with.
const WORDS: &[(&[&str], u8, &str)] = &[
    (&[], 0, PAY_1_LINE),
    (&["check", "no such file"], 3, "unavailable\n"),
    (
        &["--help"],
        0,
        "ACH desk of an originating bank.\n\nWithout a command, it reads a submission in JSON from standard input",
    ),
    (&["--version"], 0, "achdesk "),
    (&["-V"], 0, "achdesk "),
    (&["check", "--version"], 2, "error: "),
    (&["help"], 0, "ACH desk of an originating bank."),
    (&["help", "help"], 0, "Print this message"),
    (
        &["help", "bogus"],
        2,
        "error: unrecognized subcommand 'bogus'",
    ),
    (&["check", "--help"], 0, "Checks an incoming ACH file"),
    (&["check"], 2, "error: "),
    (
        &[
            "submit",
            "no such list",
            "--company=MILL01",
            "--key=mill-street-key",
            "--ref=PAY-1",
            "--sec=PPD",
            "--direction=credit",
            "--description=PAYROLL",
            "--day=2025-01-10",
        ],
        3,
        "unavailable\n",
    ),
    (&["submit", "--help"], 0, "Prints the HTTP request"),
    (&["submit"], 2, "error: "),
    (&["stdio"], 1, ""),
    (&["stdio", "--help"], 0, "Answers HTTP/1.1 requests"),
    (&["stdio", "no such desk"], 1, "NotADesk\n"),
    (&["stdio", "no such desk", "--sync=once"], 1, "NotADesk\n"),
    (&["stdio", "no such desk", "--sync=never"], 2, "error: "),
    (
        &["init", "--help"],
        0,
        "Creates a desk in a new database file",
    ),
    (&["init", "desk.db"], 2, "error: "),
    (&["migrate", "--help"], 0, "Upgrades a desk's database file"),
    (&["migrate"], 2, "error: "),
    (&["migrate", "no such desk"], 1, "NotADesk\n"),
    (&["serve", "--help"], 0, "Serves a desk over HTTP/1.1"),
    (&["serve", "no such desk"], 2, "error: "),
    (&["serve", "no such desk", "0"], 2, "error: "),
    (&["serve", "no such desk", "65536"], 2, "error: "),
    (&["serve", "no such desk", "port"], 2, "error: "),
    (
        &["serve", "no such desk", "8080", "--connections", "0"],
        2,
        "error: ",
    ),
    (
        &["serve", "no such desk", "8080", "--connections=1000001"],
        2,
        "error: ",
    ),
    (
        &["serve", "no such desk", "8080", "--patience", "0"],
        2,
        "error: ",
    ),
    (
        &["serve", "no such desk", "8080", "--patience=3601"],
        2,
        "error: ",
    ),
    (
        &["serve", "no such desk", "8080", "--sync", "never"],
        2,
        "error: invalid value 'never' for '--sync <WHEN>'",
    ),
    (&["serve", "no such desk", "8080"], 1, "NotADesk\n"),
    (
        &["serve", "no such desk", "8080", "--sync=once"],
        1,
        "NotADesk\n",
    ),
];

/// The whole text of help.
const HELP: &str = "ACH desk of an originating bank.

Without a command, it reads a submission in JSON from standard input and prints the answer.

Usage: achdesk < SUBMISSION
       achdesk <COMMAND>

Commands:
  check    Checks an incoming ACH file and counts its returns and changes
  submit   Prints the HTTP request that submits a list of entries, or the list's first fault
  stdio    Answers HTTP/1.1 requests on standard input, from a desk's file or a sample desk in memory
  init     Creates a desk in a new database file
  serve    Serves a desk over HTTP/1.1 on a port of 127.0.0.1
  migrate  Upgrades a desk's database file from version 1 to version 2
  help     Print this message or the help of the given subcommand(s)

Options:
  -h, --help     Print help
  -V, --version  Print version
";

/// The whole text for words that do not name a command.
const USAGE: &str = "error: unrecognized subcommand 'bogus'

Usage: achdesk < SUBMISSION
       achdesk <COMMAND>

For more information, try '--help'.
";

/// The whole help of a command that may sync once.
const STDIO_HELP: &str =
    "Answers HTTP/1.1 requests on standard input, from a desk's file or a sample desk in memory

Usage: achdesk stdio [OPTIONS] [DB]

Arguments:
  [DB]  Path of the desk's database file [default: none, a sample desk in memory]

Options:
      --sync <WHEN>  How often a commit syncs its files: twice or once [default: twice].
                     Both assume that a write that a power failure cuts off changes no byte outside of it.
                     'once' also assumes that each of its bytes is the old one or the new one.
                     A disk that finishes each sector it began does both, as NVMe disks have to.
  -h, --help         Print help
";

/// The whole help of the command that serves.
const SERVE_HELP: &str = "Serves a desk over HTTP/1.1 on a port of 127.0.0.1

Usage: achdesk serve [OPTIONS] <DB> <PORT>

Arguments:
  <DB>    Path of the desk's database file
  <PORT>  Port on 127.0.0.1, 1 to 65535

Options:
      --connections <N>     Number of connections to serve before it exits, 1 to 1000000.
                            Without this option it exits after 1000 [default: 1000]
      --patience <SECONDS>  Seconds that a client may keep the desk waiting, 1 to 3600 [default: 30]
      --sync <WHEN>         How often a commit syncs its files: twice or once [default: twice].
                            Both assume that a write that a power failure cuts off changes no byte outside of it.
                            'once' also assumes that each of its bytes is the old one or the new one.
                            A disk that finishes each sector it began does both, as NVMe disks have to.
  -h, --help                Print help
";

/// The whole text for `--sync` without a desk's file.
const NO_FILE: &str = "error: the following required arguments were not provided:
  <DB>

Usage: achdesk stdio --sync <WHEN> <DB>

For more information, try '--help'.
";

/// The whole text for a word that `--sync` does not take.
const NO_SYNC: &str = "error: invalid value 'thrice' for '--sync <WHEN>'
  [possible values: once, twice]

For more information, try '--help'.
";

/// The commands that have a help of their own.
const COMMANDS: &[&str] = &["check", "submit", "stdio", "init", "serve", "migrate"];

// Do these words give this exit status, and does what is printed begin so?
fn begins(rt: &HostRuntime, words: &[&str], code: u8, start: &str) -> bool {
    let mut output = Vec::new(rt.alloc());
    let given = carry_out_words(rt, words, PAY_1, &mut output);
    given == code && output.as_slice().starts_with(start.as_bytes())
}

// Do these words give this exit status, and is this printed?
fn says(rt: &HostRuntime, words: &[&str], code: u8, text: &str) -> bool {
    let mut output = Vec::new(rt.alloc());
    let given = carry_out_words(rt, words, NOBODY, &mut output);
    given == code && output.as_slice() == text.as_bytes()
}

// Is the help of a command the same whether it is asked for before or after its name?
fn has_one_help(rt: &HostRuntime, command: &str) -> bool {
    let mut before = Vec::new(rt.alloc());
    let mut after = Vec::new(rt.alloc());
    let first = carry_out_words(rt, &["help", command], NOBODY, &mut before);
    let second = carry_out_words(rt, &[command, "--help"], NOBODY, &mut after);
    first == 0 && second == 0 && before.as_slice() == after.as_slice()
}

// Does a line fault give this exit status, and print this?
fn tells(alloc: Global, fault: LineFault, code: u8, line: &str) -> bool {
    let mut output = Vec::new(alloc);
    let given = print_line_fault(&mut output, &fault);
    given == code && output.as_slice() == line.as_bytes()
}

#[test]
fn a_submission_and_a_file_that_is_not_there(rt: HostRuntime) {
    let answer = Command::AnswerSubmission;
    assert!(rt; prints(&rt, &answer, PAY_1, Status::Done, PAY_1_LINE.as_bytes()));
    let check = Command::Check("out/no such folder/no such file");
    assert!(rt; prints(&rt, &check, NOBODY, Status::Failed, b"unavailable\n"));
}

#[test]
fn words_and_their_exit_status(rt: HostRuntime) {
    for &(words, code, start) in WORDS {
        assert!(rt; begins(&rt, words, code, start), "{words:?}");
    }
}

#[test]
fn whole_texts(rt: HostRuntime) {
    assert!(rt; says(&rt, &["--help"], 0, HELP));
    assert!(rt; says(&rt, &["bogus"], 2, USAGE));
    assert!(rt; says(&rt, &["stdio", "--help"], 0, STDIO_HELP));
    assert!(rt; says(&rt, &["serve", "--help"], 0, SERVE_HELP));
    assert!(rt; says(&rt, &["stdio", "--sync=once"], 2, NO_FILE));
    let words = &["stdio", "desk.db", "--sync=thrice"];
    assert!(rt; says(&rt, words, 2, NO_SYNC));
}

#[test]
fn help_before_and_after_a_command(rt: HostRuntime) {
    for &command in COMMANDS {
        assert!(rt; has_one_help(&rt, command), "{command}");
    }
}

#[test]
fn line_faults(rt: HostRuntime) -> Result<(), Fail> {
    let alloc = rt.alloc();
    let help = LineFault::Help(String::from_str(alloc, "Usage: achdesk\n")?);
    assert!(rt; tells(alloc, help, 0, "Usage: achdesk\n"));
    let usage = LineFault::Usage(String::from_str(alloc, "error: wrong words\n")?);
    assert!(rt; tells(alloc, usage, 2, "error: wrong words\n"));
    assert!(rt; tells(alloc, LineFault::NoMemory, 3, "unavailable\n"));
    assert!(rt; tells(alloc, LineFault::Version, 0, VERSION_LINE));
    assert!(rt; VERSION_LINE.lines().count() == 1);
    Ok(())
}
