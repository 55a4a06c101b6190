//! The body of a submission or retry that was looked up.
ghost use Rattle.std.specs.Prelude.{◌≡◌, ◌≤◌, ◌+◌, length, OnOk, vec_len, vec_capacity};
ghost use Rattle.http_json.specs.Gains.{Gains, GainsValue};
ghost use Rattle.http_json.specs.Members.{more_members_text};
ghost use Rattle.http_answers.specs.Company.{direction_text, unsent_entry, sent_entry, returned_entry, entry_body, retried_members, report_body};

use crate::list::{ROW_ROOM, Row, add_list};
use bank_days::Day;
use desk_history::{ReportedEntry, RetriedEntry, SubmissionReport};
use desk_rules::{Direction, EntryState, ReturnCode, RuleDay};
use http_json::{put, put_flag, put_number, put_text};
use std::alloc::AllocError;

/// Appends the body of a submission or retry that was looked up.
pub(crate) fn add_report(text: &mut Vec<u8>, report: SubmissionReport) -> Result<(), AllocError>
    ensures { OnOk result (GainsValue text.old text.new (report_body report)) }
{
    text.reserve(ROW_ROOM)?;
    put(text, b"{");
    put_number(text, false, b"cents", report.cents.get());
    put_text(text, true, b"day", &report.day.text());
    put_text(
        text,
        true,
        b"direction",
        direction_text(report.direction).as_bytes(),
    );
    add_list(text, true, b"entries", report.entries)?;
    text.reserve(ROW_ROOM)?;
    put_retried(text, &report.retried);
    put_number(text, true, b"order", report.order);
    put_text(text, true, b"ref", report.reference.bytes());
    put_text(text, true, b"sec", report.sec.text());
    put(text, b"}");
    Ok(())
}

fn direction_text(direction: Direction) -> &'static str
    ensures text { result.now ≡ direction_text direction }
    ensures short { length result.now ≤ 6 }
{
    match direction {
        Direction::Credit => "credit",
        Direction::Debit => "debit",
    }
}

// The entry that a retry tries again.
fn put_retried(text: &mut Vec<u8>, retried: &Option<RetriedEntry>)
    requires { vec_len text.old + 220 ≤ vec_capacity text.old }
    ensures items { Gains text.old text.new (more_members_text (retried_members retried.now)) }
    ensures len { vec_len text.new ≤ vec_len text.old + 220 }
    ensures capacity { vec_capacity text.old ≤ vec_capacity text.new }
{
    if let Some(entry) = retried {
        put_text(text, true, b"of", entry.of.bytes());
        put_number(text, true, b"of_index", entry.index);
    }
}

impl Row for ReportedEntry {
    ghost body = { entry_body };

    #[tactic(auto, unfolding(crate::specs::Company::entry_body))]
    fn put(&self, text: &mut Vec<u8>) {
        match self.state {
            EntryState::Held => put_unsent(text, self, "held"),
            EntryState::Lapsed => put_unsent(text, self, "lapsed"),
            EntryState::Sent { settled } => put_sent(text, self, settled),
            EntryState::Returned {
                settled,
                code,
                day,
                late,
            } => {
                put_returned(text, self, settled, code, day, late);
            }
        }
    }
}

fn put_unsent(text: &mut Vec<u8>, entry: &ReportedEntry, state: &str)
    requires room { vec_len text.old + 1_024 ≤ vec_capacity text.old }
    requires short { length state.now ≤ 8 }
    ensures { GainsValue text.old text.new (unsent_entry entry.now state.now) }
{
    put(text, b"{");
    put_number(text, false, b"cents", entry.cents.get());
    put_number(text, true, b"index", entry.index);
    put_text(text, true, b"state", state.as_bytes());
    put(text, b"}");
}

fn put_sent(text: &mut Vec<u8>, entry: &ReportedEntry, settled: RuleDay)
    requires { vec_len text.old + 1_024 ≤ vec_capacity text.old }
    ensures { GainsValue text.old text.new (sent_entry entry.now settled) }
{
    put(text, b"{");
    put_number(text, false, b"cents", entry.cents.get());
    put_number(text, true, b"index", entry.index);
    put_text(text, true, b"settled", &settled.day().text());
    put_text(text, true, b"state", b"sent");
    put(text, b"}");
}

fn put_returned(
    text: &mut Vec<u8>,
    entry: &ReportedEntry,
    settled: RuleDay,
    code: ReturnCode,
    returned: Day,
    late: bool,
)
    requires { vec_len text.old + 1_024 ≤ vec_capacity text.old }
    ensures { GainsValue text.old text.new (returned_entry entry.now settled code returned late) }
{
    put(text, b"{");
    put_number(text, false, b"cents", entry.cents.get());
    put_text(text, true, b"code", &code.text());
    put_number(text, true, b"index", entry.index);
    put_flag(text, true, b"late", late);
    put_text(text, true, b"returned", &returned.text());
    put_text(text, true, b"settled", &settled.day().text());
    put_text(text, true, b"state", b"returned");
    put(text, b"}");
}
