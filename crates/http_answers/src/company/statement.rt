//! The body of a company's statement.
ghost use Rattle.std.specs.Prelude.{◌≡◌, ◌≤◌, length, OnOk};
ghost use Rattle.http_json.specs.Gains.{GainsValue};
ghost use Rattle.http_answers.specs.Company.{cause_text, line_body, statement_body};

use crate::list::{ROW_ROOM, Row, add_list};
use desk_accounts::Cause;
use desk_history::{Statement, StatementLine};
use http_json::{put, put_decimal, put_number, put_signed, put_text};
use std::alloc::AllocError;

/// Appends the body of a company's statement.
pub(crate) fn add_statement(text: &mut Vec<u8>, statement: Statement) -> Result<(), AllocError>
    ensures { OnOk result (GainsValue text.old text.new (statement_body statement)) }
{
    text.reserve(ROW_ROOM)?;
    put(text, b"{");
    put_decimal(text, false, b"balance", statement.balance);
    put_text(text, true, b"day", &statement.day.text());
    add_list(text, true, b"lines", statement.lines)?;
    text.push(b'}')?;
    Ok(())
}

impl Row for StatementLine {
    ghost body = { line_body };

    fn put(&self, text: &mut Vec<u8>) {
        put(text, b"{");
        put_text(text, false, b"cause", cause_text(self.cause).as_bytes());
        put_signed(text, true, b"cents", self.cents);
        put_text(text, true, b"day", &self.day.text());
        put_number(text, true, b"index", self.index);
        put_text(text, true, b"ref", self.reference.bytes());
        put(text, b"}");
    }
}

fn cause_text(cause: Cause) -> &'static str
    ensures text { result.now ≡ cause_text cause }
    ensures short { length result.now ≤ 6 }
{
    match cause {
        Cause::Cut => "cut",
        Cause::Return => "return",
    }
}
