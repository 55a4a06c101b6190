//! The laws of crashes, over any store.
ghost use Rattle.crash_law.specs.Crashes.{AnswersSurvive, StandsAfterCrash, StandsAfterLives};
ghost use Rattle.crash_law.specs.Runs.{NothingIsLost};

use desk_store::Store;

/// After any messages, some of them answered and some not, the store holds the book of the history of the
/// answered ones. A crash at any moment leaves what keeps that book, or the book of that history with one
/// pending message more.
pub fn answers_survive<S: Store>()
    ensures { AnswersSurvive S.holds S.keeps S.may_leave }
{
    desk_book::book_tells();
    desk_book::reads_leave();
    http_history::one_meaning();
    http_history::calls_are_history();
}

/// After a crash and an opening the desk represents the history of the answered messages, or that history
/// with one pending message more, and takes messages from there.
pub fn stands_after_crash<S: Store>()
    ensures { StandsAfterCrash S.holds S.keeps S.may_leave }
{
    answers_survive::<S>();
}

/// Over any number of crashes the desk represents the history of the answered messages, with at most one
/// pending message more for each crash.
pub fn stands_after_lives<S: Store>()
    ensures { StandsAfterLives S.holds S.keeps S.may_leave }
{
    stands_after_crash::<S>();
}

/// That history has each answered message of each life, with its answer.
pub fn nothing_is_lost()
    ensures { NothingIsLost }
{}
