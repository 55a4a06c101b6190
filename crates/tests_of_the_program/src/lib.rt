//! The tests of the program's commands.
//!
//! They run over bodies as companies send them, over lists, incoming files, messages and desks in files, over files in
//! memory, and over readers and writers that fail (`commands`).
#![tactic(auto)]

#[cfg(test)]
mod commands;
