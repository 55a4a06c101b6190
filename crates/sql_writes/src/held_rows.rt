//! What sixteen rows store is held beside each other, each row under its number, for one statement.
ghost use Rattle.std.specs.Prelude.{◌≡◌, ◌+◌, ◌<◌, ◌^◌, ℕ, length, IfOk};
ghost use Rattle.sql_writes.specs.HeldRows.{held_from};

use sql_statements::RowBody;
use sqlite::Error;

/// A `HoldBody` knows what the rows of a list store.
pub(crate) trait HoldBody: RowBody {
    type Held: Copy;

    /// Is what the row of this number stores.
    ghost held: { Self → ℕ → Self.Row → Self.Held };

    /// Gives what the row stores that has this number. `Error::InvalidQuery` says that a number is past
    /// the last that a column has.
    fn hold(&self, number: u64, row: &Self::Row) -> Result<Self::Held, Error>
        ensures { IfOk result (λ it. it ≡ held self.now number row.now) };
}

/// Gives what sixteen rows store, of which the first has this number.
pub(crate) fn hold_sixteen<B: HoldBody>(
    body: &B,
    first: u64,
    rows: &[B::Row],
) -> Result<[B::Held; 16], Error>
    requires many { length rows.now ≡ 16 }
    requires numbers { first + 16 < 2 ^ 64 }
    ensures { IfOk result (λ all. all ≡ held_from (B.held body.now) first rows.now) }
{
    let mut all = [body.hold(first, &rows[0])?; 16];
    for at in 0..16 {
        all[at] = body.hold(first + at as u64, &rows[at])?;
    }
    Ok(all)
}
