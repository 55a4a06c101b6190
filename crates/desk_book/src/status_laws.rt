//! The law of the status and the book.
ghost use Rattle.desk_book.specs.StatusLaws.{TellsStatus};

use crate::row_laws::row_steps;

/// The desk's status after any history follows from the desk's book alone: what each company has
/// waiting, and what a cut of the desk day would send of it and let lapse.
pub fn tells_status()
    ensures { TellsStatus }
{
    desk_history::possible_parts();
    row_steps();
}
