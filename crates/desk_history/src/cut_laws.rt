//! The laws of cuts, of their files and of traces.
ghost use Rattle.desk_history.specs.DayFiles.{DueOfStatus, FilesOfStatus};
ghost use Rattle.desk_history.specs.SentLaws.{AcceptedCuts, TracesName, TracesOfCuts};

/// A cut that was accepted had a desk day, took only sequences that were free, and had modifiers for
/// its files; its answer is the one that the definitions give.
pub fn accepted_cuts()
    ensures { AcceptedCuts }
{}

/// The trace of an incoming item names the youngest entry that was sent with it, and no other.
pub fn traces_name()
    ensures { TracesName }
{}

/// Sequences have one to seven digits, and as soon as a cut is made the trace of each entry that it
/// sent names that entry and no other.
pub fn traces_of_cuts()
    ensures { TracesOfCuts }
{
    ach_fields::numbers_and_digits();
    desk_plan::sent_by_cut();
    desk_plan::by_ranges();
}

/// The status lists exactly the modifiers of the desk day's files, in the order in which they were
/// made.
pub fn files_of_status()
    ensures { FilesOfStatus }
{}

/// If a cut follows on the same history, it makes exactly as many files as the status says, with as
/// many entry and addenda records, and the day has modifiers for all its files. If it is refused for
/// want of modifiers, the status says how many files it needed.
pub fn due_of_status()
    ensures { DueOfStatus }
{
    desk_plan::one_division();
}
