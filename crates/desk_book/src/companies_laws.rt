//! The law of the operator's read of all companies and the book.
ghost use Rattle.desk_book.specs.CompaniesLaws.{TellsCompanies};

use crate::row_laws::verdicts_on_rows;

/// What the operator reads of all companies after any history follows from the desk's book alone:
/// their exposures, limits and return rates on the desk day.
pub fn tells_companies()
    ensures { TellsCompanies }
{
    verdicts_on_rows();
}
