//! Worked files come from outside: two samples, files with one thing wrong, and files at the limits.
mod faults;
mod feeding;
mod printing;
mod reading;
mod samples;
