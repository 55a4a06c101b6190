//! A company asks here to try a returned debit again: Nacha's reinitiation.
pub(crate) mod attempts;
pub(crate) mod call;
pub(crate) mod content;
