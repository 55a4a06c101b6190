//! The laws of all histories.
ghost use Rattle.desk_history.specs.Calls.{OneMessage};
ghost use Rattle.desk_history.specs.CompanyRows.{CompaniesRows};
ghost use Rattle.desk_history.specs.Laws.{TwoWorlds};
ghost use Rattle.desk_history.specs.PartCompany.{CompanyOfPart, DigestOfPart};
ghost use Rattle.desk_history.specs.Repeated.{FirstAnswerStands};

/// Each call is one message: the bytes of a file are one file, or have one first fault.
pub fn one_message()
    ensures { OneMessage }
{
    ach_files::file_or_fault();
    ach_files::one_file();
}

/// A company is answered alike in two histories that have the same part of it, whatever others did.
pub fn two_worlds()
    ensures { TwoWorlds }
{}

/// A company's name, digest and present limits are those of its part.
pub fn company_of_part()
    ensures { CompanyOfPart }
{}

/// The digest of a company's key is that with which its part says that it was registered.
pub fn digest_of_part()
    ensures { DigestOfPart }
{}

/// The operator's read of all companies has one row for each registered company, and in it what the
/// company's own reads of its exposure and of its return rates are answered. It is refused before
/// the first day.
pub fn companies_rows()
    ensures { CompaniesRows }
{}

/// A submission, a retry or an incoming file that was accepted is answered as it was then whenever it
/// is sent again, whatever happened since.
pub fn first_answer_stands()
    ensures { FirstAnswerStands }
{
    desk_rules::same_contents();
}
