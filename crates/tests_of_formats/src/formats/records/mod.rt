//! Fields come from files that banks exchange, and records are those of worked files.
mod fields;
mod records;
