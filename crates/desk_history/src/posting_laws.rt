//! The law of a company's postings.
ghost use Rattle.desk_history.specs.PostingLaws.{CompanyLines};

/// The postings to a company's account are the lines of its statement.
pub fn company_lines()
    ensures { CompanyLines }
{}
