//! A refusal says why something is refused. Each has a name, a number and an HTTP status.
pub(crate) mod names;
pub(crate) mod refusal;
