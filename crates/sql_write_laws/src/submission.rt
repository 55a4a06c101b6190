//! The law of what a company writes.
ghost use Rattle.std.specs.Prelude.{List, ℕ};
ghost use Rattle.desk_rules.specs.declared.bodies.submission.Submission.{Submission};
ghost use Rattle.sql_write_laws.specs.Making.{MakesSubmission};

/// A company's next submission or retry.
pub fn submission_follows()
    ensures { (id : List ℕ) (order : ℕ) (content : Submission) → MakesSubmission id order content }
{}
