//! The tests of what banks exchange: fields, records and files of the ACH format (`formats`), days and holiday
//! lists (`days`), and batches and sequences at their limits (`numbers`).
//!
//! They stand on the lowest crates alone, so that a change of the desk does not prove them again.
#![tactic(auto)]

#[cfg(test)]
mod days;
#[cfg(test)]
mod formats;
#[cfg(test)]
mod numbers;
