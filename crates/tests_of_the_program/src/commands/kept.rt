//! Sessions with a desk in a file: what one leaves, the next one finds.
use super::desks::{NOTE, clear, is_absent, is_made};
use super::lists::PAY_MESSAGE;
use super::messages::{DAY_SET, PAY_TAKEN, REGISTER, REGISTERED, SET_DAY, join};
use super::prints;
use desk_cli::{Command, Status, Syncs};
use std::fs;
use std::test::Fail;

/// The messages of one session after another, and their answers. The third session repeats the
/// second's.
const SESSIONS: &[(&[&str], &[&str])] = &[
    (&[REGISTER, SET_DAY], &[REGISTERED, DAY_SET]),
    (&[PAY_MESSAGE], &[PAY_TAKEN]),
    (&[PAY_MESSAGE], &[PAY_TAKEN]),
];

// Does a session over these messages with the desk in this file, which syncs so often, end so, and print
// this?
fn answers(
    rt: &HostRuntime,
    path: &str,
    syncs: Syncs,
    messages: &[&str],
    status: Status,
    wanted: &[&str],
) -> Result<bool, Fail> {
    let input = join(rt.alloc(), messages)?;
    let text = join(rt.alloc(), wanted)?;
    let command = Command::AnswerByFile(path, syncs);
    Ok(prints(rt, &command, input.as_slice(), status, text.as_slice()))
}

#[test]
fn a_submission_is_taken_once_over_sessions(rt: HostRuntime) -> Result<(), Fail> {
    let path = "kept.db";
    assert!(rt; is_made(&rt, path)?);
    for &(messages, wanted) in SESSIONS {
        assert!(rt;
            answers(&rt, path, Syncs::Twice, messages, Status::Done, wanted)?,
            "{messages:?}"
        );
    }
    clear(&rt, path)
}

#[test]
fn a_submission_is_taken_once_over_sessions_that_sync_once(rt: HostRuntime) -> Result<(), Fail> {
    let path = "once.db";
    assert!(rt; is_made(&rt, path)?);
    for &(messages, wanted) in SESSIONS {
        assert!(rt;
            answers(&rt, path, Syncs::Once, messages, Status::Done, wanted)?,
            "{messages:?}"
        );
    }
    // A session that syncs twice finds what they left.
    assert!(rt;
        answers(
            &rt,
            path,
            Syncs::Twice,
            &[PAY_MESSAGE],
            Status::Done,
            &[PAY_TAKEN]
        )?
    );
    clear(&rt, path)
}

#[test]
fn what_is_no_desk_has_no_session(rt: HostRuntime) -> Result<(), Fail> {
    let path = "nothing.db";
    clear(&rt, path)?;
    assert!(rt;
        answers(
            &rt,
            path,
            Syncs::Twice,
            &[SET_DAY],
            Status::Refused,
            &["NotADesk\n"]
        )?
    );
    assert!(rt; is_absent(&rt, path));
    fs::write(&rt, path, b"")?;
    assert!(rt;
        answers(
            &rt,
            path,
            Syncs::Twice,
            &[SET_DAY],
            Status::Refused,
            &["NotADesk\n"]
        )?
    );
    clear(&rt, path)
}

#[test]
fn what_is_no_database_has_no_session(rt: HostRuntime) -> Result<(), Fail> {
    let path = "note.db";
    clear(&rt, path)?;
    fs::write(&rt, path, NOTE)?;
    assert!(rt;
        answers(
            &rt,
            path,
            Syncs::Twice,
            &[SET_DAY],
            Status::Failed,
            &["unavailable\n"]
        )?
    );
    let left = fs::read(&rt, path)?;
    assert!(rt; left.as_slice() == NOTE);
    clear(&rt, path)
}
