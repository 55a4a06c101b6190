//! The body of a company's notifications of change.
ghost use Rattle.std.specs.Prelude.{OnOk};
ghost use Rattle.http_json.specs.Gains.{GainsValue};
ghost use Rattle.http_answers.specs.Company.{change_body, changes_body};

use crate::list::{Row, add_list_alone};
use desk_history::{ChangeRow, ListOf};
use http_json::{put, put_number, put_text};
use std::alloc::AllocError;

/// Appends the body of a company's notifications of change.
#[tactic(auto, unfolding(crate::specs::Company::changes_body))]
pub(crate) fn add_changes(text: &mut Vec<u8>, rows: ListOf<ChangeRow>) -> Result<(), AllocError>
    ensures { OnOk result (GainsValue text.old text.new (changes_body rows)) }
{
    add_list_alone(text, b"changes", rows)
}

impl Row for ChangeRow {
    ghost body = { change_body };

    fn put(&self, text: &mut Vec<u8>) {
        put(text, b"{");
        put_text(text, false, b"code", &self.code);
        put_text(text, true, b"day", &self.day.text());
        put_number(text, true, b"index", self.index);
        put_text(text, true, b"ref", self.reference.bytes());
        put_text(text, true, b"text", &self.text);
        put(text, b"}");
    }
}
