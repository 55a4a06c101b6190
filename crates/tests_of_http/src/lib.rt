//! The tests of a desk over HTTP: worked sessions with a desk, messages with the bytes that must answer them, over
//! lists, over tables, and with each call of the store refused; and connections over loopback.
#![tactic(auto)]

#[cfg(test)]
mod all_companies;
#[cfg(test)]
mod companies;
#[cfg(test)]
mod connections;
#[cfg(test)]
mod cut_answers;
#[cfg(test)]
mod exchanges;
#[cfg(test)]
mod faults;
#[cfg(test)]
mod isolation;
#[cfg(test)]
mod large_bodies;
#[cfg(test)]
mod one_message;
#[cfg(test)]
mod own_rows;
#[cfg(test)]
mod refused_calls;
#[cfg(test)]
mod samples;
#[cfg(test)]
mod settlements;
