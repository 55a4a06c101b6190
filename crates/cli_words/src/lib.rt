//! Reads the words of the command line: the command that they name, with its options, or the reason
//! why they name none.
//!
//! A file `.._arguments` defines the arguments of the program or of a command, and `.._options` the
//! values that it was given.
#![tactic(auto)]

mod command;
mod desk_arguments;
mod file_commands;
mod given_values;
mod help_words;
mod init_options;
mod plain_arguments;
mod program_arguments;
mod serve_arguments;
mod serve_options;
mod sync_arguments;
mod syncs;
mod version_line;

pub use command::{Command, LineFault, command_of};
pub use init_options::InitOptions;
pub use serve_options::ServeOptions;
pub use syncs::Syncs;
pub use version_line::VERSION_LINE;
