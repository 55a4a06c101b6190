//! The message that submits a list of entries.
ghost use Rattle.std.specs.Prelude.{◌≡◌, IfOk, string_bytes};
ghost use Rattle.cli_submit.specs.Messages.{head_text, input_fault, message_of, Gives, IsMessage, OfEntries, ReadsAs, ReadsBack};
ghost use Rattle.cli_submit.specs.Options.{texts_of};

use crate::body::body_text;
use crate::fault::{InputFault, SubmitFault};
use crate::options::SubmitOptions;
use crate::rows::entries_of_list;
use ach_fields::Id;
use desk_rules::is_key;
use serde_json::Value;
use std::alloc::{AllocError, Global};

/// The most bytes of a list of entries.
const MOST_BYTES: usize = 4_194_304;

/// Returns the message that submits a list of entries in CSV to the desk: an HTTP/1.1 POST request
/// whose body is the submission in JSON. Nothing follows the body.
///
/// The list's first row is `routing,account,kind,prenote,cents,id,name,info`; each other row is an
/// entry. Rows are as `csv` reads them: blank lines are skipped, a field may be quoted, and a byte
/// order mark at the start is dropped. A prenote is `yes` or empty; an empty prenote and an empty
/// info are left out of the body. The other fields are not checked: the desk does that.
///
/// # Errors
///
/// The first of these faults: the company is not an identification, a company may not have the key,
/// the list has more than 4,194,304 bytes, its header is another, or a row is invalid. Of the rows
/// the first invalid one counts, and of its faults the first of `BadRow`, `BadCents` and
/// `BadPrenote`.
pub fn submit_message(
    alloc: Global,
    options: &SubmitOptions<'_>,
    list: &[u8],
) -> Result<Vec<u8>, SubmitFault>
    ensures message { Gives (message_of (texts_of options.now) list.now) result }
    ensures reads_back { IfOk result
        (λ text. ReadsBack (texts_of options.now) list.now text.items) }
{
    if let Some(fault) = input_fault(options, list.len()) {
        return Err(SubmitFault::Input(fault));
    }
    let entries = entries_of_list(alloc, list)?;
    Ok(message_text(alloc, options, entries)?)
}

// Returns the fault of the options, or of a list of this many bytes.
fn input_fault(options: &SubmitOptions<'_>, size: usize) -> Option<InputFault>
    ensures { result ≡ input_fault (texts_of options.now) size }
{
    if Id::new(options.company.as_bytes()).is_err() {
        return Some(InputFault::BadCompany);
    }
    if !is_key(options.key.as_bytes()) {
        return Some(InputFault::BadKey);
    }
    if size > MOST_BYTES {
        return Some(InputFault::TooLarge);
    }
    None
}

// The message of these entries: a head, and the body whose size it has.
fn message_text(
    alloc: Global,
    options: &SubmitOptions<'_>,
    entries: Vec<Value>,
) -> Result<Vec<u8>, AllocError>
    ensures text { IfOk result (OfEntries entries (IsMessage (texts_of options.now))) }
    ensures reads_back { IfOk result (OfEntries entries (ReadsAs (texts_of options.now))) }
{
    let body = body_text(alloc, options, entries)?;
    let mut message = head_text(alloc, options, body.len())?.into_bytes();
    message.extend_from_slice(body.as_slice())?;
    Ok(message)
}

// The request line, three headers and the empty line.
#[tactic(auto, unfolding(crate::specs::Messages::head_text))]
fn head_text(alloc: Global, options: &SubmitOptions<'_>, size: usize) -> Result<String, AllocError>
    ensures { IfOk result (λ head. string_bytes head ≡ head_text (texts_of options.now) size) }
{
    let company = options.company;
    let key = options.key;
    format!(in alloc;
        "POST /c/{company}/submissions HTTP/1.1\r\nHost: 127.0.0.1\r\nX-Desk-Key: {key}\r\nContent-Length: {size}\r\n\r\n"
    )
}
