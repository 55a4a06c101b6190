//! The laws of all messages.
ghost use Rattle.desk_book.specs.OnMessages.{BookTells};
ghost use Rattle.desk_book.specs.Repeating.{TwiceActsOnce};
ghost use Rattle.desk_book.specs.Writes.{ReadsLeave};

/// The answer to every message, and the book after it, follow from the desk's book alone: for each
/// history, the book gives what the history gives.
pub fn book_tells()
    ensures { BookTells }
{
    crate::book_laws::tells_replies();
    crate::book_laws::steps_of_messages();
    crate::book_laws::tells_operator();
    crate::book_laws::steps_of_operator();
    crate::cut_laws::tells_cut();
    crate::intake_laws::tells_intake();
    crate::status_laws::tells_status();
    crate::companies_laws::tells_companies();
}

/// A message that writes nothing leaves the book unchanged. Reads write nothing, nor do messages
/// that are refused or were accepted before; and the answer alone shows that nothing was written.
pub fn reads_leave()
    ensures { ReadsLeave }
{}

/// A submission, a retry or an incoming file that was accepted is answered as it was then whenever it
/// is sent again, and the book stays as it is. So is another message of the company with the same
/// content, whatever else its draft says, and another file with the same key and digest.
pub fn twice_acts_once()
    ensures { TwiceActsOnce }
{
    desk_rules::same_contents();
    crate::row_laws::verdicts_on_rows();
    crate::book_laws::tells_replies();
    book_tells();
    reads_leave();
}
