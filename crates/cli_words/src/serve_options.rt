//! The options of a server.
use crate::syncs::Syncs;

/// The options say where a server listens, how long, how long it waits for a client, and how often it syncs.
#[derive(Clone, Copy, Debug, PartialEq, Eq)]
pub struct ServeOptions {
    /// The port on which the server listens: 1 to 65,535.
    pub port: u16,
    /// How many connections it serves, one after another, before it ends: 1 to 1,000,000.
    pub connections: u32,
    /// How many seconds each read and each write waits for a client at most: 1 to 3,600.
    pub patience: u16,
    /// How often a commit syncs the desk's files.
    pub syncs: Syncs,
}
