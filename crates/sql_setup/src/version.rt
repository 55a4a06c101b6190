//! The version of a desk's tables is checked.
ghost use Rattle.std.specs.Prelude.{◌≡◌, ◌≢◌, [], false, IfErr};
ghost use Rattle.sqlite.specs.Held.{state};
ghost use Rattle.sqlite.specs.State.{FailsToQuery, HasCleanDisk};
ghost use Rattle.sql_statements.specs.Promises.{FailsWith, LeavesNothingNew, SeesStill, SucceedsIn, SucceedsWith};
ghost use Rattle.sql_setup.specs.Refusals.{ExplainsUnread, ExplainsVersion, TellsEmpty};
ghost use Rattle.sql_setup.specs.Versions.{FindsVersion, SaysFirst, ShowsVersion, row_text, version_text};

use crate::fault::{DeskFault, OpenFault};
use sql_statements::query;
use sql_tables::read_only_column;
use sqlite::{Alter, Connection, Error, Row};

/// The version of the tables that this crate makes, as the row of the desk has it.
pub(crate) const VERSION: i64 = 2;

// The version that the first row says, if it says one.
fn first_version(rows: &[Row]) -> Option<i64>
    ensures { SaysFirst rows.now result }
{
    match rows.first() {
        Some(row) => read_only_column(row),
        None => None,
    }
}

// Gives the version that the row of the desk says, if it says one.
fn found_version<S: Alter>(conn: &mut Connection<S>) -> Result<Option<i64>, Error>
    ensures found { SucceedsWith S.Store conn.old conn.new result FindsVersion }
    ensures failed { conn.old.in_transaction ≡ false → FailsWith S.Store conn.old conn.new result
        (λ error before after. FailsToQuery version_text [] before after error) }
    ensures stays { SeesStill S.Store conn.old conn.new }
    ensures survives { LeavesNothingNew S.Store conn.old conn.new }
    ensures ended { conn.old.in_transaction ≡ false → conn.new.in_transaction ≡ false }
{
    let rows = query(
        conn,
        "SELECT version FROM desk WHERE id = 1 ORDER BY id",
        &[],
    )?;
    Ok(first_version(&rows))
}

// Has the table `desk` no row, whatever its columns are?
fn is_empty<S: Alter>(conn: &mut Connection<S>) -> Result<bool, Error>
    ensures shown { SucceedsWith S.Store conn.old conn.new result TellsEmpty }
    ensures failed { conn.old.in_transaction ≡ false → FailsWith S.Store conn.old conn.new result
        (λ error before after. FailsToQuery row_text [] before after error) }
    ensures stays { SeesStill S.Store conn.old conn.new }
    ensures survives { LeavesNothingNew S.Store conn.old conn.new }
    ensures ended { conn.old.in_transaction ≡ false → conn.new.in_transaction ≡ false }
{
    let rows = query(conn, "SELECT 1 FROM desk LIMIT 1", &[])?;
    Ok(rows.is_empty())
}

// Tells why no version was read: the table has no row, or it could not be asked for one, or else this.
fn unread_fault<S: Alter>(conn: &mut Connection<S>, otherwise: DeskFault) -> DeskFault
    requires { conn.old.in_transaction ≡ false }
    ensures told { HasCleanDisk (state S.Store conn.new) →
        ExplainsUnread S.Store conn.old conn.new otherwise result }
    ensures otherwise { otherwise ≢ DeskFault.Told OpenFault.Exists →
        result ≢ DeskFault.Told OpenFault.Exists }
    ensures stays { SeesStill S.Store conn.old conn.new }
    ensures survives { LeavesNothingNew S.Store conn.old conn.new }
    ensures ended { conn.new.in_transaction ≡ false }
{
    match is_empty(conn) {
        Ok(true) => DeskFault::Told(OpenFault::NotADesk),
        Ok(false) => otherwise,
        Err(error) => DeskFault::Failed(error),
    }
}

/// Checks that the row of the desk says this version, whatever the other columns and tables are. It
/// changes nothing. The connection is outside of a transaction, and sees a table `desk`.
///
/// Where the table has no row it is `OpenFault::NotADesk`, where the row says another version it is
/// `OpenFault::WrongVersion`, and where it says none it is `OpenFault::Unavailable`. The error is given
/// of a database that could not be asked.
pub fn check_version<S: Alter>(conn: &mut Connection<S>, wanted: i64) -> Result<(), DeskFault>
    requires { conn.old.in_transaction ≡ false }
    ensures version { SucceedsIn S.Store conn.old conn.new result
        (λ before after. ShowsVersion before after wanted) }
    ensures told { IfErr result (λ why. HasCleanDisk (state S.Store conn.new) →
        ExplainsVersion S.Store wanted conn.old conn.new why) }
    ensures otherwise { IfErr result (λ why. why ≢ DeskFault.Told OpenFault.Exists) }
    ensures stays { SeesStill S.Store conn.old conn.new }
    ensures survives { LeavesNothingNew S.Store conn.old conn.new }
    ensures ended { conn.new.in_transaction ≡ false }
{
    match found_version(conn) {
        Ok(Some(found)) if found == wanted => Ok(()),
        Ok(Some(found)) => Err(DeskFault::Told(OpenFault::WrongVersion(found))),
        Ok(None) => Err(unread_fault(conn, DeskFault::Told(OpenFault::Unavailable))),
        Err(error) => Err(unread_fault(conn, DeskFault::Failed(error))),
    }
}
