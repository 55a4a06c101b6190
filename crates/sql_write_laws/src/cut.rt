//! The law of what a cut writes.
ghost use Rattle.std.specs.Prelude.{ℕ};
ghost use Rattle.desk_book.specs.Steps.{CutWrite};
ghost use Rattle.sql_write_laws.specs.Making.{MakesCut};

/// A cut whose first sent entry has the place after the last one's.
pub fn cut_follows()
    ensures { (first : ℕ) (cut : CutWrite) → MakesCut first cut }
{}
