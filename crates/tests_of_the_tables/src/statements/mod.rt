//! Tests of the effect of a commit on two tables.
mod bodies;
mod commits;
mod lists;
mod reads;
