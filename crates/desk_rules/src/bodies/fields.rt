//! Each field of a body has its value here, or `None` where it is bad.
ghost use Rattle.std.specs.Prelude.{◌≡◌, option_and_then};
ghost use Rattle.std.specs.List.{list_all};
ghost use Rattle.std.specs.Result.{result_ok};
ghost use Rattle.ach_fields.specs.Names.{reference_of, id_of};
ghost use Rattle.ach_fields.specs.Routing.{routing_of};
ghost use Rattle.ach_fields.specs.Text.{short_text_of};
ghost use Rattle.bank_days.specs.Day.{day_of};
ghost use Rattle.desk_rules.specs.Chain.{good};
ghost use Rattle.desk_rules.specs.Fields.{sec_of, direction_of, kind_of, text_of, description_of, optional_of, prenote_of, entry_cents_of, entry_number_of, is_key, is_key_character, key_of, up_to};

use crate::bodies::entry_cents::MOST_ENTRY_CENTS;
use crate::rules::size::MOST_ENTRIES;
use crate::{
    AccountKind, Direction, DraftText, EntryCents, Field, Optional, Refusal, RuleDay, SecCode,
};
use ach_fields::{Id, Ref, Routing, ShortText};
use bank_days::Day;

/// Returns the value, or the refusal of its field; the index is the number of its entry, or 0.
pub fn good<T: Drop>(value: Option<T>, field: Field, index: u64) -> Result<T, Refusal>
    ensures { result ≡ good field index value }
{
    value.ok_or(Refusal::BadField { field, index })
}

/// Returns the reference of a text of 1 to 20 characters `A-Z a-z 0-9 - _ .`
pub fn reference(draft: &Option<DraftText>) -> Option<Ref>
    ensures { result ≡ option_and_then (λ s. result_ok (reference_of s)) draft.now }
{
    match draft {
        Some(text) => Ref::new(text.bytes()).ok(),
        None => None,
    }
}

/// Returns the identification of a text of 1 to 10 characters `A-Z 0-9`.
pub fn id(draft: &Option<DraftText>) -> Option<Id>
    ensures { result ≡ option_and_then (λ s. result_ok (id_of s)) draft.now }
{
    match draft {
        Some(text) => Id::new(text.bytes()).ok(),
        None => None,
    }
}

/// Returns the routing number of nine digits with their check digit.
pub fn routing(draft: &Option<DraftText>) -> Option<Routing>
    ensures { result ≡ option_and_then (λ s. result_ok (routing_of s)) draft.now }
{
    match draft {
        Some(text) => Routing::parse(text.bytes()).ok(),
        None => None,
    }
}

/// Returns the SEC code, `PPD` or `CCD`.
pub fn sec(draft: &Option<DraftText>) -> Option<SecCode>
    ensures { result ≡ option_and_then sec_of draft.now }
{
    match draft {
        Some(text) => match text.bytes() {
            b"PPD" => Some(SecCode::Ppd),
            b"CCD" => Some(SecCode::Ccd),
            _ => None,
        },
        None => None,
    }
}

/// Returns the direction, `credit` or `debit`.
pub fn direction(draft: &Option<DraftText>) -> Option<Direction>
    ensures { result ≡ option_and_then direction_of draft.now }
{
    match draft {
        Some(text) => {
            if text.bytes() == b"credit".as_slice() {
                Some(Direction::Credit)
            } else if text.bytes() == b"debit".as_slice() {
                Some(Direction::Debit)
            } else {
                None
            }
        }
        None => None,
    }
}

/// Returns the kind of account, `checking` or `savings`.
pub fn kind(draft: &Option<DraftText>) -> Option<AccountKind>
    ensures { result ≡ option_and_then kind_of draft.now }
{
    match draft {
        Some(text) => {
            if text.bytes() == b"checking".as_slice() {
                Some(AccountKind::Checking)
            } else if text.bytes() == b"savings".as_slice() {
                Some(AccountKind::Savings)
            } else {
                None
            }
        }
        None => None,
    }
}

/// Returns a text of 1 to N characters.
pub fn text<const N: usize>(draft: &Option<DraftText>) -> Option<ShortText<N>>
    ensures { result ≡ option_and_then (text_of N) draft.now }
{
    match draft {
        Some(text) => text_of(text),
        None => None,
    }
}

fn text_of<const N: usize>(text: &DraftText) -> Option<ShortText<N>>
    ensures { result ≡ text_of N text.now }
{
    if text.bytes().is_empty() {
        None
    } else {
        ShortText::new(text.bytes()).ok()
    }
}

/// Returns a text of at most N characters, which may be empty.
pub fn text_or_none<const N: usize>(draft: &Option<DraftText>) -> Option<ShortText<N>>
    ensures { result ≡ option_and_then (λ s. result_ok (short_text_of N s)) draft.now }
{
    match draft {
        Some(text) => ShortText::new(text.bytes()).ok(),
        None => None,
    }
}

/// Returns a description of 1 to 10 characters, other than those that Nacha reserves for retries and
/// reversals.
pub fn description(draft: &Option<DraftText>) -> Option<ShortText<10>>
    ensures { result ≡ option_and_then description_of draft.now }
{
    match draft {
        Some(text) => {
            if text.bytes() == b"RETRY PYMT".as_slice() || text.bytes() == b"REVERSAL".as_slice() {
                None
            } else {
                text_of(text)
            }
        }
        None => None,
    }
}

/// Returns the day of a text `YYYY-MM-DD`, if rules accept it.
pub fn day(draft: &Option<DraftText>) -> Option<RuleDay>
    ensures { result ≡ option_and_then day_of draft.now }
{
    match draft {
        Some(text) => RuleDay::read(text.bytes()),
        None => None,
    }
}

/// Returns the day of a text `YYYY-MM-DD`, if there is one.
pub fn optional_day(draft: &Optional<DraftText>) -> Option<Option<Day>>
    ensures { result ≡ optional_of day_of draft.now }
{
    match draft {
        Optional::Absent => Some(None),
        Optional::Wrong => None,
        Optional::Given(text) => Some(Some(Day::read(text.bytes())?)),
    }
}

/// Returns whether an entry is a prenote: false if the field is missing.
pub fn prenote(draft: &Optional<bool>) -> Option<bool>
    ensures { result ≡ prenote_of draft.now }
{
    match draft {
        Optional::Absent => Some(false),
        Optional::Wrong => None,
        Optional::Given(prenote) => Some(*prenote),
    }
}

/// Returns an entry's amount in cents: 0 for a prenote, else 1 to 9,999,999,999.
pub fn cents(draft: Option<u64>, prenote: bool) -> Option<EntryCents>
    ensures { result ≡ option_and_then (entry_cents_of prenote) draft }
{
    let amount = draft?;
    let right = if prenote {
        amount == 0
    } else {
        amount >= 1 && amount <= MOST_ENTRY_CENTS
    };
    if right { EntryCents::new(amount) } else { None }
}

/// Returns the text of an addenda, of 1 to 80 characters, if there is one.
pub fn info(draft: &Optional<DraftText>) -> Option<Option<ShortText<80>>>
    ensures { result ≡ optional_of (text_of 80) draft.now }
{
    match draft {
        Optional::Absent => Some(None),
        Optional::Wrong => None,
        Optional::Given(given) => Some(Some(text_of(given)?)),
    }
}

/// Returns the number of an entry in its submission, 1 to 1,000.
pub fn entry_number(draft: Option<u64>) -> Option<u64>
    ensures { result ≡ option_and_then entry_number_of draft }
{
    let index = draft?;
    if index >= 1 && index <= MOST_ENTRIES as u64 {
        Some(index)
    } else {
        None
    }
}

/// Checks a key; only its digest is kept.
pub fn key(draft: &Option<DraftText>) -> Option<()>
    ensures { result ≡ option_and_then key_of draft.now }
{
    match draft {
        Some(text) if is_key(text.bytes()) => Some(()),
        _ => None,
    }
}

/// Can a company have this key? It has 8 to 64 characters, none of them a blank.
pub fn is_key(bytes: &[u8]) -> bool
    ensures { result ≡ is_key bytes.now }
{
    bytes.len() >= 8 && bytes.len() <= 64 && are_key_characters(bytes)
}

fn are_key_characters(bytes: &[u8]) -> bool
    ensures { result ≡ list_all is_key_character bytes.now }
{
    bytes.iter().all(|byte| *byte >= b'!' && *byte <= b'~')
}

/// Returns the number if it is at most `most`.
pub fn up_to(most: u64, draft: Option<u64>) -> Option<u64>
    ensures { result ≡ option_and_then (up_to most) draft }
{
    let number = draft?;
    if number <= most { Some(number) } else { None }
}
