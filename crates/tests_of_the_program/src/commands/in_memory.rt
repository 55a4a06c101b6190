//! Commands over files in memory: what one leaves, the next one finds, and a refused one loses nothing.
use super::NOBODY;
use super::desks::SAMPLE_BANK;
use super::files::{LINE, RECORDS};
use super::lists::PAY_MESSAGE;
use super::messages::{DAY_SET, PAY_TAKEN, REGISTER, REGISTERED, SET_DAY, join};
use desk_cli::{Command, Status, Syncs};
use http_session::HostNetwork;
use memory_files::{MemoryFiles, OtherFile, run_in_memory};
use std::test::Fail;

/// The path of the desk.
const PATH: &str = "desk.db";

// Is the command carried out over this input so, and is this printed?
fn prints(
    rt: &HostRuntime,
    files: &mut MemoryFiles<'_>,
    command: &Command<'_>,
    input: &[u8],
    status: Status,
    text: &[u8],
) -> bool {
    let mut input = input;
    let mut printed = Vec::new(rt.alloc());
    let mut network = HostNetwork::new(rt);
    let ended = run_in_memory(
        rt.alloc(),
        files,
        &mut network,
        command,
        &mut input,
        &mut printed,
    );
    ended == status && printed.as_slice() == text
}

// Does a command that reads no input end so, and print this line?
fn says(
    rt: &HostRuntime,
    files: &mut MemoryFiles<'_>,
    command: &Command<'_>,
    status: Status,
    line: &str,
) -> bool {
    prints(rt, files, command, NOBODY, status, line.as_bytes())
}

// Is a desk of the sample bank made?
fn is_made(rt: &HostRuntime, files: &mut MemoryFiles<'_>) -> bool {
    let command = Command::Init(PATH, SAMPLE_BANK);
    says(rt, files, &command, Status::Done, "created\n")
}

// Does a session over these messages with the desk at this path end so, and print this?
fn answers(
    rt: &HostRuntime,
    files: &mut MemoryFiles<'_>,
    path: &str,
    messages: &[&str],
    status: Status,
    wanted: &[&str],
) -> Result<bool, Fail> {
    let input = join(rt.alloc(), messages)?;
    let text = join(rt.alloc(), wanted)?;
    let command = Command::AnswerByFile(path, Syncs::Twice);
    Ok(prints(
        rt,
        files,
        &command,
        input.as_slice(),
        status,
        text.as_slice(),
    ))
}

// Does a session register the company and set the desk day?
fn is_set_up(rt: &HostRuntime, files: &mut MemoryFiles<'_>) -> Result<bool, Fail> {
    answers(
        rt,
        files,
        PATH,
        &[REGISTER, SET_DAY],
        Status::Done,
        &[REGISTERED, DAY_SET],
    )
}

// Does a session take the company's pay run?
fn is_paid(rt: &HostRuntime, files: &mut MemoryFiles<'_>) -> Result<bool, Fail> {
    answers(rt, files, PATH, &[PAY_MESSAGE], Status::Done, &[PAY_TAKEN])
}

// Has this path no desk?
fn has_no_desk(rt: &HostRuntime, files: &mut MemoryFiles<'_>, path: &str) -> Result<bool, Fail> {
    answers(
        rt,
        files,
        path,
        &[SET_DAY],
        Status::Refused,
        &["NotADesk\n"],
    )
}

#[test]
fn a_session_finds_what_the_one_before_it_left(rt: HostRuntime) -> Result<(), Fail> {
    let mut files = MemoryFiles::new(rt.alloc(), &[]);
    assert!(rt; is_made(&rt, &mut files));
    assert!(rt; is_set_up(&rt, &mut files)?);
    assert!(rt; is_paid(&rt, &mut files)?);
    // The same reference is the same order.
    assert!(rt; is_paid(&rt, &mut files)?);
    Ok(())
}

#[test]
fn a_path_with_no_desk_has_no_session(rt: HostRuntime) -> Result<(), Fail> {
    let mut files = MemoryFiles::new(rt.alloc(), &[]);
    assert!(rt; has_no_desk(&rt, &mut files, PATH)?);
    assert!(rt; files.places.is_empty());
    assert!(rt; is_made(&rt, &mut files));
    assert!(rt; has_no_desk(&rt, &mut files, "other.db")?);
    assert!(rt; is_set_up(&rt, &mut files)?);
    Ok(())
}

#[test]
fn the_files_of_a_refused_desk_come_back(rt: HostRuntime) -> Result<(), Fail> {
    let mut files = MemoryFiles::new(rt.alloc(), &[]);
    assert!(rt; is_made(&rt, &mut files));
    assert!(rt; is_set_up(&rt, &mut files)?);
    let again = Command::Init(PATH, SAMPLE_BANK);
    assert!(rt; says(&rt, &mut files, &again, Status::Refused, "Exists\n"));
    let migrate = Command::Migrate(PATH);
    assert!(rt;
        says(
            &rt,
            &mut files,
            &migrate,
            Status::Refused,
            "WrongVersion 2\n"
        )
    );
    assert!(rt; is_paid(&rt, &mut files)?);
    Ok(())
}

#[test]
fn another_file_is_read(rt: HostRuntime) -> Result<(), Fail> {
    let others = [OtherFile {
        path: "returns.ach",
        bytes: RECORDS,
    }];
    let mut files = MemoryFiles::new(rt.alloc(), &others);
    let check = Command::Check("returns.ach");
    assert!(rt; says(&rt, &mut files, &check, Status::Done, LINE));
    let missing = Command::Check("other.ach");
    assert!(rt; says(&rt, &mut files, &missing, Status::Failed, "unavailable\n"));
    Ok(())
}
