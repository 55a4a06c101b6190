//! The body of a company's exposure.
ghost use Rattle.std.specs.Prelude.{OnOk};
ghost use Rattle.http_json.specs.Gains.{GainsValue};
ghost use Rattle.http_answers.specs.Company.{exposure_body};

use crate::list::ROW_ROOM;
use desk_history::Exposure;
use http_json::{put, put_decimal, put_number, put_text};
use std::alloc::AllocError;

/// Appends the body of a company's exposure and limits.
pub(crate) fn add_exposure(text: &mut Vec<u8>, exposure: &Exposure) -> Result<(), AllocError>
    ensures { OnOk result (GainsValue text.old text.new (exposure_body exposure.now)) }
{
    text.reserve(ROW_ROOM)?;
    put(text, b"{");
    put_decimal(text, false, b"credit", exposure.credit);
    put_number(text, true, b"credit_limit", exposure.limits.credit);
    put_text(text, true, b"day", &exposure.day.text());
    put_decimal(text, true, b"debit", exposure.debit);
    put_number(text, true, b"debit_limit", exposure.limits.debit);
    put_number(text, true, b"entry_limit", exposure.limits.entry);
    put(text, b"}");
    Ok(())
}
