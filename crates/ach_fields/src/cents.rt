ghost use Rattle.std.specs.Prelude.{◌≡◌, ◌≤◌};
ghost use Rattle.ach_fields.specs.Cents.{cents_of, most_cents};

use std::marker::Model;

/// The largest amount has twelve digits of cents.
pub const MOST_CENTS: u64 = 999_999_999_999;

/// `Cents` is an amount of money in cents, of at most twelve digits, as the total fields of files hold.
#[derive(Clone, Copy, Debug, PartialEq, Eq, PartialOrd, Ord)]
pub struct Cents {
    cents: u64,
}

// Clauses see the number.
impl Model for Cents {
    ghost use Rattle.std.specs.Prelude.{ℕ, ◌≤◌};
    ghost use Rattle.ach_fields.specs.Cents.{most_cents};

    ghost Value = { ℕ };

    ghost view = { λ c. c.cents };

    ghost invariant = { λ c. c.cents ≤ most_cents };

    ghost inverse = { λ n. record { cents = n } };
}

impl Cents {
    /// Returns an amount in cents, or `None` above 999,999,999,999.
    pub fn new(cents: u64) -> Option<Cents>
        ensures { result ≡ cents_of cents }
    {
        if cents <= MOST_CENTS {
            Some(Cents { cents })
        } else {
            None
        }
    }

    /// Says how many cents it is.
    pub fn get(self) -> u64
        ensures value { result ≡ self }
        ensures within { self ≤ most_cents }
    {
        self.cents
    }
}
