//! How often a commit syncs the desk's files.

/// How often a commit syncs the desk's files. It follows from what is assumed of a write that a power
/// failure cuts off. In either case it is assumed that the write changes no byte outside of it.
#[derive(Clone, Copy, Debug, PartialEq, Eq)]
pub enum Syncs {
    /// A commit syncs once. It is assumed that each byte of the write is the old one or the new one.
    Once,
    /// A commit syncs twice. The write may leave any bytes where it wrote.
    Twice,
}
