//! The laws of what a desk sent.
ghost use Rattle.desk_history.specs.Possible.{PossibleParts};
ghost use Rattle.desk_history.specs.SentLaws.{SentAreAccepted};

/// Each sent entry is an entry of an accepted submission of its company, which settles on its day.
pub fn sent_are_accepted()
    ensures { SentAreAccepted }
{}

/// Only sent entries are returned or changed, and each is returned at most once.
pub fn possible_parts()
    ensures { PossibleParts }
{}
