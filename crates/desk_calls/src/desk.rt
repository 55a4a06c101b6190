ghost use Rattle.std.specs.Prelude.{◌≡◌};
ghost use Rattle.desk_admission.specs.OverStores.{AllowsKey, LeavesNoMore};
ghost use Rattle.desk_calls.specs.Applying.{HasBook, Goes, Replies};
ghost use Rattle.desk_calls.specs.OverStores.{AnswersByBook, LeavesByBook, LeavesByHistory, LeavesIfRead};

use crate::respond::respond;
use desk_admission::allow;
use desk_book::Caller;
use desk_history::{Answer, Call};
use desk_store::{Store, StoreFault};
use std::alloc::Global;
use std::marker::Model;

/// A `Desk` is a desk over its store. Clauses see the store.
#[derive(Drop)]
pub struct Desk<S> {
    store: S,
}

impl<S> Model for Desk<S> {
    ghost Value = { S };

    ghost view = { λ d. d.store };

    ghost inverse = { λ s. record { store = s } };
}

impl<S> Desk<S> {
    /// Makes the desk of a store.
    pub fn new(store: S) -> Desk<S>
        ensures { result ≡ store }
    {
        Desk { store }
    }

    /// Gives its store.
    pub fn into_store(self) -> S
        ensures { result ≡ self }
    {
        self.store
    }
}

impl<S: Store> Desk<S> {
    /// Answers a call, with at most one write. A refusal by a rule is an answer too, and writes
    /// nothing; nor does a request that was accepted before and is sent again. The answer is
    /// complete before the write, so that everything written is answered.
    ///
    /// By the clauses `answers`, `leaves` and `book` this holds for whatever book the store holds,
    /// and by the others for the history that the book stands for. By `read` a call that only
    /// reads, answered or not, changes nothing that a crash may leave.
    ///
    /// # Errors
    ///
    /// `Unavailable` if the desk is out of memory or the store failed: the store holds the book
    /// that it held, and the call can be repeated.
    pub fn apply(&mut self, alloc: Global, call: Call) -> Result<Answer, StoreFault>
        ensures before { S.is_clean self.new → S.is_clean self.old }
        ensures answers { AnswersByBook S.Store self.old self.new result call }
        ensures leaves { LeavesByBook S.Store self.old self.new result call }
        ensures book { S.is_clean self.new → HasBook (S.holds self.old) →
            HasBook (S.holds self.new) }
        ensures goes { S.is_clean self.new →
            Goes (S.holds self.old) call result (S.holds self.new) }
        ensures replies { S.is_clean self.new → Replies (S.holds self.old) call result }
        ensures left { LeavesByHistory S.Store self.old self.new result call }
        ensures read { LeavesIfRead S.Store self.old self.new call }
    {
        desk_history::one_message();
        desk_book::book_tells();
        respond(&mut self.store, alloc, call)
    }

    /// Reports whether this is the digest of the caller's key. The operator has one, and each
    /// registered company.
    ///
    /// # Errors
    ///
    /// `Unavailable` if the store failed.
    pub fn allow(
        &mut self,
        alloc: Global,
        caller: Caller,
        digest: [u8; 32],
    ) -> Result<bool, StoreFault>
        ensures before { S.is_clean self.new → S.is_clean self.old }
        ensures allows { AllowsKey S.Store self.old self.new result caller digest }
        ensures left { LeavesNoMore S.Store self.old self.new }
    {
        allow(&mut self.store, alloc, caller, digest)
    }
}
