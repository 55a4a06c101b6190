//! The tests of messages.
//!
//! JSON bodies are read and written (`json_bodies`, `members`); known bodies of answers are written byte by byte, with
//! their statuses (`bodies`); lists of entries as companies write them give a message or a fault (`submit`); and bytes
//! of readers give the bytes that a session must write for them (`sessions`).
#![tactic(auto)]

#[cfg(test)]
mod bodies;
#[cfg(test)]
mod json_bodies;
#[cfg(test)]
mod members;
#[cfg(test)]
mod sessions;
#[cfg(test)]
mod submit;
