//! The laws of a cut and the book.
ghost use Rattle.desk_book.specs.CutLaws.{TellsCut, EntriesOfCuts};

use crate::book_laws::steps_of_messages;
use crate::row_laws::row_steps;

/// The answer to a cut after any history follows from the desk's book alone: which submissions are
/// held and due, which of them lapse, which files they make, and the first refusal. The book after
/// it is the result of the cut's one write, and a refused cut leaves the book unchanged.
pub fn tells_cut()
    ensures { TellsCut }
{
    desk_plan::one_division();
    desk_history::accepted_in_order();
    desk_history::possible_parts();
    row_steps();
    steps_of_messages();
}

/// Whatever a book is, each entry that a cut of it writes is one of a submission of the book that
/// the cut sends, with that submission's order, reference and SEC code, and with its settlement.
pub fn entries_of_cuts()
    ensures { EntriesOfCuts }
{
    desk_plan::one_division();
}
