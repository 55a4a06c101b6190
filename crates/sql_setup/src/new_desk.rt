//! A new desk is made in a blank database.
ghost use Rattle.std.specs.Prelude.{◌≡◌, ◌↔◌, [], false, Err, OnOk, IfErr};
ghost use Rattle.sqlite.specs.Held.{state};
ghost use Rattle.sql_statements.specs.Promises.{Runs, SucceedsIn, FailsUnchanged};
ghost use Rattle.sql_tables.specs.Schema.{schema_of};
ghost use Rattle.sql_setup.specs.Refusals.{ExplainsUnmade};
ghost use Rattle.sql_setup.specs.Setup.{KeepsNewDesk, HasDesk, setup_layout, new_desk_edit, HasOwnDigits, PutsRow, MayLeave, HasNewDesk};

use crate::blank::{check_name, is_blank};
use crate::create::create_tables;
use crate::fault::{DeskFault, OpenFault};
use crate::version::VERSION;
use desk_history::Identity;
use sql_statements::{TransactionBody, blob, commit, execute, number};
use sqlite::types::ValueRef;
use sqlite::{Alter, Connection, Error, Transaction};

// What the row of a new desk says, beside the digits of its routing numbers, so that the row borrows
// from one value.
#[derive(Clone, Copy)]
struct NewRow {
    identity: Identity,
    operator_key: [u8; 32],
    odfi: [u8; 9],
    destination: [u8; 9],
}

// Writes the row of the desk into tables that have no rows.
fn put_desk<S: Alter>(tx: &mut Transaction<'_, S>, row: &NewRow) -> Result<(), Error>
    requires { HasOwnDigits row.now }
    ensures { Runs S.Store tx.old.conn tx.new.conn result (PutsRow row.now) }
{
    execute(
        tx,
        "INSERT INTO desk VALUES (?1, ?2, ?3, ?4, ?5, ?6, ?7, ?8)",
        &[
            number(1),
            number(VERSION),
            ValueRef::Text(&row.odfi),
            ValueRef::Text(row.identity.odfi_name.bytes()),
            ValueRef::Text(&row.destination),
            ValueRef::Text(row.identity.destination_name.bytes()),
            blob(&row.operator_key),
            ValueRef::Null,
        ],
    )?;
    Ok(())
}

// The tables are made, with the row of the desk.
#[derive(Clone, Copy)]
struct NewDesk {
    identity: Identity,
    operator_key: [u8; 32],
}

impl TransactionBody for NewDesk {
    ghost layout = { setup_layout };

    ghost edit = { λ b. new_desk_edit b.identity b.operator_key };

    fn run<S: Alter>(&self, tx: &mut Transaction<'_, S>) -> Result<(), Error> {
        let row = NewRow {
            identity: self.identity,
            operator_key: self.operator_key,
            odfi: self.identity.odfi.text(),
            destination: self.identity.destination.text(),
        };
        check_name(tx)?;
        create_tables(tx)?;
        put_desk(tx, &row)?;
        Ok(())
    }
}

// Makes a desk in a database in which nothing is defined.
fn set_up<S: Alter>(
    conn: &mut Connection<S>,
    identity: Identity,
    operator_key: [u8; 32],
) -> Result<(), Error>
    requires { (state S.Store conn.old).now.schema ≡ schema_of [] }
    ensures made { SucceedsIn S.Store conn.old conn.new result (HasNewDesk identity operator_key) }
    ensures unmade { FailsUnchanged S.Store conn.old conn.new result }
    ensures survives { MayLeave S.Store conn.old conn.new (KeepsNewDesk identity operator_key) }
    ensures ended { conn.old.in_transaction ≡ false → conn.new.in_transaction ≡ false }
{
    let body = NewDesk {
        identity,
        operator_key,
    };
    commit(conn, &body)
}

/// Makes a new desk on a connection, with the SHA-256 digest of the operator's key: all tables and
/// indexes and the row of the desk, in one transaction. A crash leaves the database as it was, or the
/// whole desk.
///
/// Over a table `desk` it is `OpenFault::Exists`, and over anything else that a schema has
/// `OpenFault::Unavailable`. The error is given of a database that failed. A connection that is inside a
/// transaction, over a blank database, is refused with `Error::InvalidQuery`.
pub fn make_desk<S: Alter>(
    conn: &mut Connection<S>,
    identity: Identity,
    operator_key: [u8; 32],
) -> Result<(), DeskFault>
    ensures exists { (result ≡ Err (DeskFault.Told OpenFault.Exists)) ↔
        HasDesk (state S.Store conn.old).now.schema }
    ensures untouched { result ≡ Err (DeskFault.Told OpenFault.Exists) → conn.new ≡ conn.old }
    ensures otherwise { IfErr result (ExplainsUnmade S.Store conn.old) }
    ensures blank { OnOk result ((state S.Store conn.old).now.schema ≡ schema_of []) }
    ensures made { SucceedsIn S.Store conn.old conn.new result (HasNewDesk identity operator_key) }
    ensures unmade { FailsUnchanged S.Store conn.old conn.new result }
    ensures survives { MayLeave S.Store conn.old conn.new (KeepsNewDesk identity operator_key) }
    ensures ended { conn.old.in_transaction ≡ false → conn.new.in_transaction ≡ false }
{
    let schema = conn.schema();
    if schema.table_named(b"desk").is_some() {
        return Err(DeskFault::Told(OpenFault::Exists));
    }
    if !is_blank(schema) {
        return Err(DeskFault::Told(OpenFault::Unavailable));
    }
    match set_up(conn, identity, operator_key) {
        Ok(()) => Ok(()),
        Err(error) => Err(DeskFault::Failed(error)),
    }
}
