//! The laws: how exposures and rates follow from open sums, and what each write makes of them.
ghost use Rattle.remembering_store.specs.Laws.{AddedAreHeld, ExposuresReadOff, LapsedLapse, NumberedBooks, RatesReadOff, ReturnedComeBack, SentSettle};

/// A company's exposures are what is held plus what settles on certain days: credits on the desk day or
/// later, debits on days whose second banking day is the desk day or later.
pub fn exposures_read_off()
    ensures { ExposuresReadOff }
{}

/// A company's return rates are counts over the 60 days that end on the desk day.
pub fn rates_read_off()
    ensures { RatesReadOff }
{}

/// A cut that sends a submission makes all its entries sent, and changes no other entry of the company.
pub fn sent_settle()
    ensures { SentSettle }
{}

/// A retry that lapses makes all its entries lapsed, and changes no other entry.
pub fn lapsed_lapse()
    ensures { LapsedLapse }
{}

/// A return makes the entries that it names returned, if they are sent, and changes no other entry.
pub fn returned_come_back()
    ensures { ReturnedComeBack }
{}

/// An accepted submission adds its entries, held, after all others of its company.
pub fn added_are_held()
    ensures { AddedAreHeld }
{}

/// In the book of any history, each company's submissions are numbered 1, 2, 3 and so on.
pub fn numbered_books()
    ensures { NumberedBooks }
{
    desk_history::accepted_in_order();
}
