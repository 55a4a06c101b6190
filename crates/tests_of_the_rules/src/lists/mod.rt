//! Tests that calls answer, that traces name their entries over several cuts, and what a store does
//! that refuses a call. Writes and expected reads are steps, which a few functions take one after
//! another.
mod calls;
mod faults;
mod lists;
mod reads;
mod samples;
mod steps;
mod traces;
mod writes;
