//! The body of a company's returns.
ghost use Rattle.std.specs.Prelude.{◌≡◌, ◌≤◌, length, OnOk};
ghost use Rattle.http_json.specs.Gains.{GainsValue};
ghost use Rattle.ach_fields.specs.Text.{without_blanks_after};
ghost use Rattle.http_answers.specs.Company.{return_body, returns_body};

use crate::list::{Row, add_list_alone};
use ach_fields::without_blanks_after;
use desk_history::{ListOf, ReturnRow};
use http_json::{put, put_flag, put_number, put_text};
use std::alloc::AllocError;

/// Appends the body of a company's returns.
#[tactic(auto, unfolding(crate::specs::Company::returns_body))]
pub(crate) fn add_returns(text: &mut Vec<u8>, rows: ListOf<ReturnRow>) -> Result<(), AllocError>
    ensures { OnOk result (GainsValue text.old text.new (returns_body rows)) }
{
    add_list_alone(text, b"returns", rows)
}

impl Row for ReturnRow {
    ghost body = { return_body };

    fn put(&self, text: &mut Vec<u8>) {
        put(text, b"{");
        put_text(text, false, b"code", &self.code.text());
        put_text(text, true, b"day", &self.day.text());
        put_number(text, true, b"index", self.index);
        put_text(text, true, b"info", trimmed_info(&self.info));
        put_flag(text, true, b"late", self.late);
        put_text(text, true, b"ref", self.reference.bytes());
        put(text, b"}");
    }
}

// The information without the blanks at its end, of at most 44 characters.
fn trimmed_info(info: &[u8; 44]) -> &[u8]
    ensures text { result.now ≡ without_blanks_after info.now }
    ensures short { length result.now ≤ 44 }
{
    without_blanks_after(info)
}
