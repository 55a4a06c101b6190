//! The law of what an incoming file writes.
ghost use Rattle.desk_book.specs.Steps.{IntakeWrite, commit_intake};
ghost use Rattle.sql_tables.specs.TableEdits.{commit_intake_edit};
ghost use Rattle.sql_write_laws.specs.Making.{Makes};

/// An incoming file that is taken.
pub fn intake_follows()
    ensures { (intake : IntakeWrite) → Makes (commit_intake_edit intake) (commit_intake intake) }
{}
