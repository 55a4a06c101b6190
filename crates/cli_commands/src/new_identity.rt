//! The bank of a new desk, from the options of `init`.
ghost use Rattle.std.specs.Prelude.{◌≡◌};
ghost use Rattle.cli_words.specs.InitOptions.{init_texts_of};
ghost use Rattle.cli_commands.specs.NewIdentities.{fault_line, identity_of};

use ach_fields::Routing;
use cli_words::InitOptions;
use desk_history::{Identity, PartyName};
use desk_rules::is_key;

/// The bad option of a new desk.
#[derive(Clone, Copy, Debug, PartialEq, Eq)]
pub enum OptionFault {
    /// The bank's routing number is invalid.
    Odfi,
    /// The bank's name is invalid.
    OdfiName,
    /// The operator's routing number is invalid.
    Destination,
    /// The operator's name is invalid.
    DestinationName,
    /// The key is invalid.
    Key,
}

impl OptionFault {
    /// Returns the line that is printed for it.
    pub fn line(self) -> &'static [u8]
        ensures { result.now ≡ fault_line self }
    {
        match self {
            OptionFault::Odfi => b"bad odfi\n",
            OptionFault::OdfiName => b"bad odfi-name\n",
            OptionFault::Destination => b"bad destination\n",
            OptionFault::DestinationName => b"bad destination-name\n",
            OptionFault::Key => b"bad key\n",
        }
    }
}

/// Returns the identity of the desk, or the first bad option.
pub fn identity_of(options: &InitOptions<'_>) -> Result<Identity, OptionFault>
    ensures { result ≡ identity_of (init_texts_of options.now) }
{
    let Ok(odfi) = Routing::parse(options.odfi.as_bytes()) else {
        return Err(OptionFault::Odfi);
    };
    let Ok(odfi_name) = PartyName::new(options.odfi_name.as_bytes()) else {
        return Err(OptionFault::OdfiName);
    };
    let Ok(destination) = Routing::parse(options.destination.as_bytes()) else {
        return Err(OptionFault::Destination);
    };
    let Ok(destination_name) = PartyName::new(options.destination_name.as_bytes()) else {
        return Err(OptionFault::DestinationName);
    };
    if !is_key(options.key.as_bytes()) {
        return Err(OptionFault::Key);
    }
    Ok(Identity {
        odfi,
        odfi_name,
        destination,
        destination_name,
    })
}
