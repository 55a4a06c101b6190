//! A database is told to be blank.
ghost use Rattle.std.specs.Prelude.{◌≡◌, ◌↔◌, [], IsTrue};
ghost use Rattle.sql_statements.specs.Promises.{Runs};
ghost use Rattle.sql_tables.specs.Schema.{schema_of};
ghost use Rattle.sql_setup.specs.Setup.{FindsNoDesk};

use sqlite::{Alter, Error, Transaction};
use sqlite_schema::schema::Schema;

/// Is nothing defined in the schema?
pub(crate) fn is_blank(schema: &Schema) -> bool
    ensures { IsTrue result ↔ (schema.now ≡ schema_of []) }
{
    schema.tables.is_empty() && schema.indexes.is_empty() && schema.views.is_empty()
}

/// Tells inside a transaction that there is no desk, by the text of a statement that would take its
/// name. The statement is not run.
pub(crate) fn check_name<S: Alter>(tx: &mut Transaction<'_, S>) -> Result<(), Error>
    ensures { Runs S.Store tx.old.conn tx.new.conn result FindsNoDesk }
{
    tx.prepare("CREATE TABLE desk (id INT)")?;
    Ok(())
}
