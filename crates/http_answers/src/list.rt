//! Lists of objects.
ghost use Rattle.std.specs.Prelude.{◌≤◌, length, OnOk};
ghost use Rattle.http_json.specs.Gains.{GainsMember, GainsValue};
ghost use Rattle.http_answers.specs.Lists.{list_of, list_alone, GainsRow, GainsRows};

use desk_history::ListOf;
use emptying_lists::EmptyingList;
use http_json::{put, put_comma, put_key};
use std::alloc::AllocError;

/// The room that is taken for an object of a list, or for the members around a list.
pub(crate) const ROW_ROOM: usize = 2_048;

/// The approximate bytes of each object in a long list.
const ROW_LENGTH: usize = 128;

/// A `Row` is an object in a list of a body.
pub(crate) trait Row {
    ghost use Rattle.std.specs.Prelude.{◌≤◌, ◌+◌, vec_len, vec_capacity};
    ghost use Rattle.serde_json.specs.Data.{Data};
    ghost use Rattle.http_json.specs.Gains.{GainsValue};

    /// The row in JSON.
    ghost body: { Self → Data };

    /// Appends it.
    fn put(&self, text: &mut Vec<u8>)
        requires { vec_len text.old + 2_048 ≤ vec_capacity text.old }
        ensures { GainsValue text.old text.new (body self.now) };
}

/// Appends a member whose value is a list. The objects are let go as they are written, so that the text
/// comes into their place.
#[tactic(auto, unfolding(http_json::specs::Members::member_text))]
pub(crate) fn add_list<R: Row + Drop>(
    text: &mut Vec<u8>,
    later: bool,
    key: &[u8],
    rows: ListOf<R>,
) -> Result<(), AllocError>
    requires { length key.now ≤ 32 }
    ensures { OnOk result (GainsMember text.old text.new later key.now (list_of R.body rows)) }
{
    // A long text has a block of its own from the start, which then grows without a copy.
    text.reserve(rows.as_slice().len().saturating_mul(ROW_LENGTH))?;
    text.reserve(ROW_ROOM)?;
    put_key(text, later, key);
    put(text, b"[");
    add_rows(text, EmptyingList::new(rows.into_vec()))
}

// With the closing bracket.
fn add_rows<R: Row + Drop>(text: &mut Vec<u8>, rows: EmptyingList<R>) -> Result<(), AllocError>
    ensures { OnOk result (GainsRows text.old text.new R.body rows) }
{
    let mut left = rows;
    let mut later = false;
    while let Some(row) = left.take_first() {
        add_row(text, later, &row)?;
        later = true;
    }
    text.push(b']')?;
    Ok(())
}

fn add_row<R: Row>(text: &mut Vec<u8>, later: bool, row: &R) -> Result<(), AllocError>
    ensures { OnOk result (GainsRow text.old text.new later (R.body row.now)) }
{
    text.reserve(ROW_ROOM + 1)?;
    put_comma(text, later);
    row.put(text);
    Ok(())
}

/// Appends an object that has a list as its only member.
pub(crate) fn add_list_alone<R: Row + Drop>(
    text: &mut Vec<u8>,
    key: &[u8],
    rows: ListOf<R>,
) -> Result<(), AllocError>
    requires { length key.now ≤ 32 }
    ensures { OnOk result (GainsValue text.old text.new (list_alone key.now R.body rows)) }
{
    text.push(b'{')?;
    add_list(text, false, key, rows)?;
    text.push(b'}')?;
    Ok(())
}
