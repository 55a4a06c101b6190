ghost use Rattle.std.specs.Prelude.{◌≡◌, ◌↔◌, IsTrue};
ghost use Rattle.desk_accounts.specs.Posting.{same_account};

use ach_fields::Id;

/// An `Account` says whose account it is.
#[derive(Clone, Copy, Debug, PartialEq, Eq)]
pub enum Account {
    /// A company that sends entries.
    Company(Id),
    /// The ACH operator, through which the entries settle.
    Operator,
    /// Returns whose entry is not known.
    Suspense,
}

impl Account {
    /// Are the two one account?
    #[tactic(auto, using(crate::proofs::Same::same_is))]
    pub fn is(&self, other: &Account) -> bool
        ensures value { result ≡ same_account self.now other.now }
        ensures same { IsTrue result ↔ (self.now ≡ other.now) }
    {
        match (self, other) {
            (Account::Company(id), Account::Company(other)) => id.bytes() == other.bytes(),
            (Account::Operator, Account::Operator) => true,
            (Account::Suspense, Account::Suspense) => true,
            _ => false,
        }
    }
}
