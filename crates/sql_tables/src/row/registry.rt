//! Rows of the desk and of its companies.
ghost use Rattle.sql_tables.specs.Description.{as_row};
ghost use Rattle.sql_tables.specs.DeskTables as the;
ghost use Rattle.sql_tables.specs.QueryRows.{keyed_identity_row};
ghost use Rattle.sql_tables.specs.RowRanges.{KeyedIdentityFits, CompanyFits};

use super::FromRow;
use crate::column::{read_column, read_digest, read_number};
use desk_history::Identity;
use desk_rules::{Company, Limits};
use sqlite::Row;

/// An entry limit has at most so many cents.
const MOST_ENTRY_LIMIT: u64 = 9_999_999_999;

/// A credit or debit limit has at most so many cents.
const MOST_EXPOSURE_LIMIT: u64 = 999_999_999_999_999;

/// A `KeyedIdentity` is the identity of a desk, with the SHA-256 digest of its operator's key.
#[derive(Drop)]
pub struct KeyedIdentity {
    pub identity: Identity,
    pub operator_key: [u8; 32],
}

// A row of the columns odfi, odfi_name, destination, destination_name and operator_key.
impl FromRow for KeyedIdentity {
    ghost stored_row = { keyed_identity_row };

    ghost fits = { KeyedIdentityFits };

    fn from_row(row: &Row) -> Option<KeyedIdentity> {
        if row.column_count() != 5 {
            return None;
        }
        let odfi = read_column(row, 0)?;
        let odfi_name = read_column(row, 1)?;
        let destination = read_column(row, 2)?;
        let destination_name = read_column(row, 3)?;
        let operator_key = read_digest(row, 4)?;
        Some(KeyedIdentity {
            identity: Identity {
                odfi,
                odfi_name,
                destination,
                destination_name,
            },
            operator_key,
        })
    }
}

// A whole row of companies.
impl FromRow for Company {
    ghost stored_row = { as_row the.companies };

    ghost fits = { CompanyFits };

    fn from_row(row: &Row) -> Option<Company> {
        if row.column_count() != 6 {
            return None;
        }
        let id = read_column(row, 0)?;
        let name = read_column(row, 1)?;
        let digest = read_digest(row, 2)?;
        let entry = read_number(row, 3, 0, MOST_ENTRY_LIMIT)?;
        let credit = read_number(row, 4, 0, MOST_EXPOSURE_LIMIT)?;
        let debit = read_number(row, 5, 0, MOST_EXPOSURE_LIMIT)?;
        Some(Company {
            id,
            name,
            digest,
            limits: Limits {
                entry,
                credit,
                debit,
            },
        })
    }
}
