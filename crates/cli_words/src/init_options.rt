//! The options of a new desk.

/// The options say whose desk a new one is.
#[derive(Clone, Copy, Debug, PartialEq, Eq)]
pub struct InitOptions<'a> {
    /// Routing number of the originating bank: nine digits.
    pub odfi: &'a str,
    /// The bank's name: at most 23 characters.
    pub odfi_name: &'a str,
    /// The routing number of the operator to which files go.
    pub destination: &'a str,
    /// That operator's name: at most 23 characters.
    pub destination_name: &'a str,
    /// The key of who operates the desk: 8 to 64 characters, none of them a blank.
    pub key: &'a str,
}
