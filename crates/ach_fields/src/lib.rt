//! ACH entries and files are made of these fields: routing numbers, traces, amounts in cents, dates,
//! references, identifications, and texts and numbers at fixed widths.
//!
//! Nothing here takes memory. Each type is a `Copy` value over fixed arrays, and contracts see it as
//! its text or its number.
#![tactic(auto)]

mod cents;
mod characters;
mod fault;
mod id;
mod laws;
mod number;
mod packed;
mod reference;
mod routing;
mod short_text;
mod text;
mod trace;
mod ymd;

pub use cents::{Cents, MOST_CENTS};
pub use characters::{are_digits, are_printable, is_digit, is_printable};
pub use fault::FieldFault;
pub use id::Id;
pub use laws::{numbers_and_digits, texts_and_fields};
pub use number::{put_number, take_number};
pub use reference::Ref;
pub use routing::{MOST_DFI, Routing, check_digit};
pub use short_text::ShortText;
pub use text::{put_text, take_text, without_blanks_after};
pub use trace::{MOST_SEQUENCE, Trace};
pub use ymd::Ymd;
