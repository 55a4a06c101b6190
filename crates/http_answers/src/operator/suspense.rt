//! The body of the items in suspense.
ghost use Rattle.std.specs.Prelude.{◌≡◌, ◌≤◌, length, OnOk};
ghost use Rattle.http_json.specs.Gains.{GainsValue};
ghost use Rattle.http_answers.specs.Operator.{reason_text, suspense_row_body, suspense_body};

use crate::list::{Row, add_list_alone};
use desk_history::{ListOf, SuspenseReason, SuspenseRow};
use http_json::{put, put_number, put_text};
use std::alloc::AllocError;

/// Appends the body of the items in suspense.
#[tactic(auto, unfolding(crate::specs::Operator::suspense_body))]
pub(crate) fn add_suspense(text: &mut Vec<u8>, rows: ListOf<SuspenseRow>) -> Result<(), AllocError>
    ensures { OnOk result (GainsValue text.old text.new (suspense_body rows)) }
{
    add_list_alone(text, b"items", rows)
}

impl Row for SuspenseRow {
    ghost body = { suspense_row_body };

    fn put(&self, text: &mut Vec<u8>) {
        put(text, b"{");
        put_number(text, false, b"cents", self.cents.get());
        put_text(text, true, b"code", &self.code);
        put_text(text, true, b"day", &self.day.text());
        put_text(text, true, b"file", &self.file);
        put_number(text, true, b"item", self.item);
        put_text(text, true, b"trace", &self.trace);
        put_text(text, true, b"why", reason_text(self.why).as_bytes());
        put(text, b"}");
    }
}

fn reason_text(why: SuspenseReason) -> &'static str
    ensures text { result.now ≡ reason_text why }
    ensures short { length result.now ≤ 15 }
{
    match why {
        SuspenseReason::NoTrace => "NoTrace",
        SuspenseReason::Differs => "Differs",
        SuspenseReason::CodeOutside => "CodeOutside",
        SuspenseReason::AlreadyReturned => "AlreadyReturned",
    }
}
