//! A store around a store that remembers what almost every call asks: the identity of the desk, the
//! operator's key, the desk day, the holidays, all registered companies, and of the companies that were
//! asked about how many submissions they have, their open submissions, the sizes of the held ones and
//! their return rates. It hands every other call on.
//!
//! [`Remembering`] holds the book that the store inside holds. It reads each of these once, and follows
//! each write that succeeded: a new desk day and a new holiday list are kept as they were given, and so
//! are a registration, new limits and a submission. The list of all companies is read again after a
//! registration and after new limits. Because all companies are remembered, an unknown identification is
//! answered without the store inside too. If memory runs out, what does not fit is forgotten and read
//! again; the call itself does not fail.
//!
//! Of open submissions it keeps what is held and what settles, summed by settlement day, so that a new
//! desk day or a new holiday list changes nothing of it: [`exposures_read_off`] says how both exposures
//! follow from the sums. A submission, a cut and a returns file are followed.
//!
//! The sizes of a company's held submissions are kept from the first question about them. A submission
//! adds its size, and a cut takes away those that it decides. While one of them is a retry, or if there are
//! more than the caps allow, they are read at each question.
//!
//! Return rates are read from the store inside and kept with the day for which they were asked, one day
//! for each company. They are forgotten if a file returns an entry of the company, or if a cut sends a
//! submission of it that settles on or before that day. Accepted submissions, lapsed retries and other
//! cuts leave them unchanged.
//!
//! A company costs 8 bytes for each open debit and some 200 for each open submission. At most 200,000
//! submissions with 1,000,000 debits are kept of it ([`Caps`]). Of a company with more, the sums alone are
//! kept: they answer each question and follow each submission. A cut or a returns file that names the
//! company reads it again. So does a question when the first day that counts is more than 30 days after
//! the one on which the company was read.
#![tactic(auto)]

mod company_key;
mod counts;
mod held;
mod known;
mod laws;
mod registry;
mod remembering;
mod sums;

pub use laws::{
    added_are_held, exposures_read_off, lapsed_lapse, numbered_books, rates_read_off,
    returned_come_back, sent_settle,
};
pub use remembering::Remembering;
pub use sums::caps::Caps;
