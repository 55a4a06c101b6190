use crate::party_name::PartyName;
use ach_fields::Routing;

/// An `Identity` says whose desk it is.
#[derive(Clone, Copy, Debug, PartialEq, Eq, Drop)]
pub struct Identity {
    /// The originating bank (ODFI): its first eight digits begin each trace.
    pub odfi: Routing,
    pub odfi_name: PartyName,
    /// The ACH operator to which the files go.
    pub destination: Routing,
    pub destination_name: PartyName,
}
