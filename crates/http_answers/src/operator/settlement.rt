//! The body of the operator's account.
ghost use Rattle.std.specs.Prelude.{OnOk};
ghost use Rattle.http_json.specs.Gains.{GainsValue};
ghost use Rattle.http_answers.specs.Operator.{day_sum_body, settlement_body};

use crate::list::{ROW_ROOM, Row, add_list};
use desk_history::{DaySum, Settlement};
use http_json::{put, put_decimal, put_text};
use std::alloc::AllocError;

/// Appends the body of the operator's account.
pub(crate) fn add_settlement(text: &mut Vec<u8>, settlement: Settlement) -> Result<(), AllocError>
    ensures { OnOk result (GainsValue text.old text.new (settlement_body settlement)) }
{
    text.reserve(ROW_ROOM)?;
    put(text, b"{");
    put_decimal(text, false, b"balance", settlement.balance);
    put_text(text, true, b"day", &settlement.day.text());
    add_list(text, true, b"days", settlement.days)?;
    text.push(b'}')?;
    Ok(())
}

impl Row for DaySum {
    ghost body = { day_sum_body };

    fn put(&self, text: &mut Vec<u8>) {
        put(text, b"{");
        put_decimal(text, false, b"cents", self.cents);
        put_text(text, true, b"day", &self.day.text());
        put(text, b"}");
    }
}
