//! Fields, records and files as banks exchange them: worked files from outside, files with one thing wrong,
//! and files at the limits.
mod files;
mod records;
mod worked;
