//! The laws of the division into files, of sequences and of modifiers.
ghost use Rattle.desk_plan.specs.Laws.{OneDivision, FewerFiles, SentByCut, ByRanges, NeverTwice, LatestInRows, YoungestAfter, DayModifiers, AcceptedAlone};

/// The batches of submissions have one division into files, and no other; its sizes give it back.
pub fn one_division()
    ensures { OneDivision }
{}

/// Some of the batches make no more files than all, in one cut and in the cuts of a day.
pub fn fewer_files()
    ensures { FewerFiles }
{}

/// A cut adds the entries of its batches to those that were sent, by the ranges of the batches.
pub fn sent_by_cut()
    ensures { SentByCut }
{}

/// That a cut may use its sequences is seen by ranges: no two of its batches have a sequence in
/// common, and of each range the latest settlement is long enough ago.
pub fn by_ranges()
    ensures { ByRanges }
{}

/// A desk that has sent no more entries than there are sequences uses none twice, and each names its
/// one entry.
pub fn never_twice()
    ensures { NeverTwice }
{}

/// A store finds the latest settlement of a range among rows that name the youngest entry of each
/// sequence.
pub fn latest_in_rows()
    ensures { LatestInRows }
{}

/// Such rows change as follows where a batch is sent: its entries are the youngest of their
/// sequences.
pub fn youngest_after()
    ensures { YoungestAfter }
{}

/// The files of a day have different modifiers, each a capital letter or a digit.
pub fn modifiers_of_a_day()
    ensures { DayModifiers }
{}

/// If a cut of the whole desk is not refused, neither is a cut of some of its batches on a desk
/// that has them alone.
pub fn accepted_alone()
    ensures { AcceptedAlone }
{}
