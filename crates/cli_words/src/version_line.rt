//! The program's version.

/// The line that `--version` prints. The version is written here alone.
pub const VERSION_LINE: &str = "achdesk 1.0.0\n";
