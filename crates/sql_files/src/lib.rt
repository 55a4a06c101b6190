//! This crate makes a desk's database file, opens one, and migrates one of version 1, by its path. It
//! passes on the migration of the tables that a connection sees.
//!
//! A database file `PATH` has its log beside it, in `PATH-wal`: what was written last may stand there
//! alone, so the two are kept together.
#![tactic(auto)]

mod checked;
mod closing;
mod desk_files;
mod found_file;
mod host_files;
mod migrated_file;
mod new_file;
mod presence;
mod private_file;
mod refusal;

pub use checked::{with_desk, with_new_desk, with_second_version};
pub use closing::close_files;
pub use desk_files::{Closes, DeskFiles, Opened};
pub use found_file::open;
pub use host_files::{HostFiles, HostStart};
pub use migrated_file::migrate_file;
pub use new_file::create;
pub use presence::{Presence, look};
pub use refusal::Refusal;
pub use sql_migration::migrate;
pub use sql_setup::{DeskFault, OpenFault};
pub use sqlite::{Connection, FileFrom, FileStore, Leftover, Start, Unknown, Wary};
