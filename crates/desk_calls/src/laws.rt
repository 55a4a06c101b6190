//! The laws of all desks.
ghost use Rattle.desk_calls.specs.Alike.{TwoDesks, DeskAlone};
ghost use Rattle.desk_calls.specs.Running.{CrashesLeave};

use desk_store::Store;

/// Two desks, over any two kinds of stores, give a company's call the same answer where both stores could
/// act and their histories have the same part of the company, whatever others did.
pub fn two_desks<S: Store, T: Store>()
    ensures { TwoDesks S.holds T.holds }
{
    desk_history::two_worlds();
}

/// A desk and one that serves the company alone give its call the same answer, if neither store
/// failed: the latter after the history of `served_alone`, made of the messages that gave the
/// company its events. This holds if the whole desk sent at most 9,999,999 entries and the company
/// had fewer than 10^21 returns and changes.
pub fn desk_alone<S: Store, T: Store>()
    ensures { DeskAlone S.holds T.holds }
{
    desk_history::served_alone();
}

/// After calls made one after another, some answered and some not, the store holds the book of the
/// history with those that were answered. A crash then leaves that book, or the book with one call
/// more: one that is not a read, was not answered, and was not followed by a call that wrote.
pub fn crashes_leave<S: Store>()
    ensures { CrashesLeave S.holds S.keeps S.may_leave }
{
    desk_book::book_tells();
    desk_book::reads_leave();
}
