//! The laws of the book.
ghost use Rattle.desk_book.specs.BookLaws.{TellsReplies, StepsOfMessages};
ghost use Rattle.desk_book.specs.OperatorLaws.{StepsOfOperator, TellsOperator};
ghost use Rattle.desk_book.specs.Unauthorized.{UnauthorizedBooks};

use crate::row_laws::{row_steps, verdicts_on_rows};

/// A company's answers, and the facts by which its requests are judged, follow from the desk's book
/// alone.
pub fn tells_replies()
    ensures { TellsReplies }
{
    verdicts_on_rows();
    desk_history::company_lines();
}

/// Each message that is neither a cut nor an incoming file makes at most one write in the book: a
/// request adds at most one submission or retry to its company, held; a desk day, a holiday list, a
/// company or new limits are stored. Reads, and commands of the operator that are refused, leave
/// the book unchanged.
pub fn steps_of_messages()
    ensures { StepsOfMessages }
{
    row_steps();
}

/// The operator's answers follow from the desk's book alone; other laws say so of a cut and of an
/// incoming file.
pub fn tells_operator()
    ensures { TellsOperator }
{}

/// Each command of the operator that sets something makes of the book what its call writes: its step
/// where it is accepted, else nothing.
pub fn steps_of_operator()
    ensures { StepsOfOperator }
{
    steps_of_messages();
}

/// The book of a history without the key `authorized` of the retries has no retry that the receiver
/// authorized again.
pub fn unauthorized_books()
    ensures { UnauthorizedBooks }
{
    desk_history::authorizations_left_out();
}
