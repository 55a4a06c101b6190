//! The schema of version 1 is told by that of version 2.
ghost use Rattle.std.specs.Prelude.{◌≡◌, IsTrue};
ghost use Rattle.sql_tables.specs.Schema.{desk_schema};
ghost use Rattle.sql_migration.specs.FirstVersion.{first_schema};

use sql_setup::{are_same_indexes, are_same_tables};
use sqlite_schema::schema::Schema;

/// Is it the schema of version 1? That has the tables and indexes of version 2 but for the last two
/// tables, and the two indexes of their keys.
pub(crate) fn is_first_schema(pattern: &Schema, schema: &Schema) -> bool
    requires { pattern.now ≡ desk_schema }
    ensures told { IsTrue result → schema.now ≡ first_schema }
    ensures found { schema.now ≡ first_schema → IsTrue result }
{
    let [first @ .., _numbers, _authorizations] = pattern.tables.as_slice() else {
        return false;
    };
    let [keys @ .., _place, _retry] = pattern.indexes.as_slice() else {
        return false;
    };
    if !are_same_tables(first, schema.tables.as_slice()) {
        return false;
    }
    if !are_same_indexes(keys, schema.indexes.as_slice()) {
        return false;
    }
    schema.views.is_empty()
}
