//! The tests of postings (`accounts`), of the rules (`rules`), of plans of cuts (`cut`) and of incoming files (`intake`),
//! and of the stores in memory (`lists`).
#![tactic(auto)]

#[cfg(test)]
mod accounts;
#[cfg(test)]
mod cut;
#[cfg(test)]
mod intake;
#[cfg(test)]
mod lists;
#[cfg(test)]
mod rules;
#[cfg(test)]
mod samples;
