//! The desk and its companies.
ghost use Rattle.std.specs.Prelude.{◌≡◌};
ghost use Rattle.sql_tables.specs.Selected.{keyed_identity_of};
ghost use Rattle.sql_tables.specs.TableReads.{company_in};
ghost use Rattle.sql_queries.specs.Asking.{Asks, IsThe};

use crate::rows::{all_of, cell_of, first_of};
use ach_fields::Id;
use desk_history::Identity;
use desk_rules::{Company, RuleDay};
use sql_tables::{KeyedIdentity, characters};
use sqlite::{Alter, Connection, Error};
use std::alloc::Global;

// Whose desk it is, and the digest of the operator's key.
fn keyed_identity<S: Alter>(conn: &mut Connection<S>) -> Result<KeyedIdentity, Error>
    ensures { Asks S.Store conn.old conn.new result (λ found t. found ≡ keyed_identity_of t.desk) }
{
    match first_of(
        conn,
        "SELECT odfi, odfi_name, destination, destination_name, operator_key FROM desk WHERE id = 1 ORDER BY id",
        &[],
    )? {
        Some(found) => Ok(found),
        None => Err(Error::InvalidQuery),
    }
}

/// Gives the identity of the desk: whose files it makes, and for whom.
pub fn identity<S: Alter>(conn: &mut Connection<S>) -> Result<Identity, Error>
    ensures { Asks S.Store conn.old conn.new result (λ found t. found ≡ t.desk.identity) }
{
    let found = keyed_identity(conn)?;
    Ok(found.identity)
}

/// Gives the SHA-256 digest of the operator's key.
pub fn operator_key<S: Alter>(conn: &mut Connection<S>) -> Result<[u8; 32], Error>
    ensures { Asks S.Store conn.old conn.new result (λ found t. found ≡ t.desk.operator_key) }
{
    let found = keyed_identity(conn)?;
    Ok(found.operator_key)
}

/// Gives the desk day, once one was set.
pub fn day<S: Alter>(conn: &mut Connection<S>) -> Result<Option<RuleDay>, Error>
    ensures { Asks S.Store conn.old conn.new result (λ found t. found ≡ t.desk.day) }
{
    match cell_of(conn, "SELECT day FROM desk WHERE id = 1 ORDER BY id", &[])? {
        Some(found) => Ok(found),
        None => Err(Error::InvalidQuery),
    }
}

/// Gives the companies, by their identification.
pub fn companies<S: Alter>(conn: &mut Connection<S>, alloc: Global) -> Result<Vec<Company>, Error>
    ensures { Asks S.Store conn.old conn.new result (λ found t. found.items ≡ t.companies) }
{
    all_of(
        conn,
        alloc,
        "SELECT id, name, key_digest, entry_limit, credit_limit, debit_limit FROM companies ORDER BY id",
        &[],
    )
}

/// Finds a company.
pub fn company<S: Alter>(conn: &mut Connection<S>, id: Id) -> Result<Option<Company>, Error>
    ensures { Asks S.Store conn.old conn.new result (IsThe (company_in id)) }
{
    first_of(
        conn,
        "SELECT id, name, key_digest, entry_limit, credit_limit, debit_limit FROM companies WHERE id = ?1 ORDER BY id",
        &[characters(id.bytes())],
    )
}
