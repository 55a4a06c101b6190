//! The tests of a desk's tables.
//!
//! They cover transactions over two tables in memory (`statements`), rows of queries, each read back and
//! refused with each column outside its range (`records`), rows of a book that are made of these (`rows`),
//! and desks that are created and checked, along with databases that are not desks (`setup`).
//!
//! They are a crate of their own so that none of the tested crates is proved a second time with them, and so
//! that no prover needs the memory for these tests and those of the program at once.
#![tactic(auto)]

#[cfg(test)]
mod records;
#[cfg(test)]
mod rows;
#[cfg(test)]
mod samples;
#[cfg(test)]
mod setup;
#[cfg(test)]
mod statements;
