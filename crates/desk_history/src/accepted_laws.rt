//! The laws of what is accepted.
ghost use Rattle.desk_history.specs.AcceptedLaws.{AcceptedInOrder};
ghost use Rattle.desk_history.specs.Authorizations.{AuthorizationsLeftOut};

/// The accepted submissions and retries of a company are numbered from 1 in their order, each with
/// a reference of its own and a size that fits into a file. A retry names a live debit of an
/// earlier submission that had been sent.
pub fn accepted_in_order()
    ensures { AcceptedInOrder }
{}

/// Removing the key `authorized` from all retries of a history gives a history that differs in that
/// key alone. If no retry had the key, the history is the same, and no retry is accepted as
/// authorized again by the receiver.
pub fn authorizations_left_out()
    ensures { AuthorizationsLeftOut }
{}
