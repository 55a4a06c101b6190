ghost use Rattle.std.specs.Prelude.{◌≡◌, ◌≤◌};
ghost use Rattle.desk_rules.specs.Fields.{most_entry_cents, cents_within};

use ach_fields::Cents;
use std::marker::Model;

/// The largest amount of an entry has ten digits of cents.
pub(crate) const MOST_ENTRY_CENTS: u64 = 9_999_999_999;

/// `EntryCents` are the amount of an entry in cents, of at most ten digits, as entries in files hold.
#[derive(Clone, Copy, Debug, PartialEq, Eq)]
pub struct EntryCents {
    cents: Cents,
}

// Clauses see the number.
impl Model for EntryCents {
    ghost use Rattle.std.specs.Prelude.{ℕ, ◌≤◌};
    ghost use Rattle.desk_rules.specs.Fields.{most_entry_cents};

    ghost Value = { ℕ };

    ghost view = { λ c. c.cents };

    ghost invariant = { λ c. c.cents ≤ most_entry_cents };

    ghost inverse = { λ n. record { cents = n } };
}

impl EntryCents {
    /// Returns an amount in cents, or `None` above 9,999,999,999.
    pub fn new(cents: u64) -> Option<EntryCents>
        ensures { result ≡ cents_within cents }
    {
        if cents > MOST_ENTRY_CENTS {
            return None;
        }
        Some(EntryCents {
            cents: Cents::new(cents)?,
        })
    }

    /// Says how many cents it is.
    pub fn get(self) -> u64
        ensures value { result ≡ self }
        ensures within { self ≤ most_entry_cents }
    {
        self.cents.get()
    }

    /// Gives it as an amount of up to twelve digits.
    pub fn as_cents(self) -> Cents
        ensures value { result ≡ self }
        ensures within { self ≤ most_entry_cents }
    {
        self.cents
    }
}
