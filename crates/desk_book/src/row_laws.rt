//! The laws of a company's rows.
ghost use Rattle.desk_book.specs.RowLaws.{RowSteps, RowsOfPart, VerdictsOnRows};

/// A submission or a retry is judged by the company's rows as by all that happened before: each refusal
/// is the same, and so is the row that answers it.
pub fn verdicts_on_rows()
    ensures { VerdictsOnRows }
{}

/// The effect of a request, a cut and a return on a company's rows follows from the rows
/// themselves: a request adds at most one, a cut sends what is due or lets it lapse, and a return
/// marks its entry. For cuts and returns this holds if only sent entries are returned, each of them
/// once.
pub fn row_steps()
    ensures { RowSteps }
{}

/// All that a desk holds of a company is a function of its part: its submissions, returns and
/// changes, its name, its limits and the lines of its account. The digest of its key is that of its
/// part, so the part alone decides whether a caller's key is the company's.
pub fn rows_of_part()
    ensures { RowsOfPart }
{
    desk_history::company_of_part();
    desk_history::digest_of_part();
    desk_history::company_lines();
}
