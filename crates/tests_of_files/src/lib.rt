//! The tests of desks in files.
//!
//! They are created, closed and opened again; files that are not desks or were damaged, and databases of version 1,
//! made by statements that are written here, are refused or migrated (`files`). Sessions, new desks and migrations run
//! over disks that stop at each of their calls in turn, tear each of their writes, find no room for it, or lost or
//! changed what was written (`crashes`).
//!
//! A connection to files takes long to prove, so few functions pass one on: all others use the bytes of files,
//! and the findings.
#![tactic(auto)]

#[cfg(test)]
mod crashes;
#[cfg(test)]
mod files;
#[cfg(test)]
mod tables;
