//! The laws of reads of a company's rows.
ghost use Rattle.sql_read_laws.specs.RowLaws.{RowLaws};

/// The rows that are assembled of the tables are those of the book.
pub fn rows_of_tables()
    ensures { RowLaws }
{}
