//! The law of incoming files.
ghost use Rattle.desk_book.specs.IntakeLaws.{EntriesOfIntakes, TellsIntake};

use crate::row_laws::{row_steps, verdicts_on_rows};
use crate::steps_of_messages;

/// The answer to an incoming file after any history follows from the desk's book. If the file is
/// taken as a new one, the book after it is the result of one write: its returns and changes, its
/// items in suspense, its postings, and the file itself with its answer. A file that was taken
/// before, or is refused, leaves the book unchanged.
pub fn tells_intake()
    ensures { TellsIntake }
{
    steps_of_messages();
    verdicts_on_rows();
    row_steps();
    desk_history::sent_are_accepted();
    desk_history::possible_parts();
}

/// Whatever a book is, each return and each change that a file of it writes is of an entry that was
/// sent, with the order number and the reference of the submission that had it.
pub fn entries_of_intakes()
    ensures { EntriesOfIntakes }
{}
