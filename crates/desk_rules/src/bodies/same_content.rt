//! Is a reference that is used again used for the same?
ghost use Rattle.std.specs.Prelude.{◌≡◌, bytes_eq};
ghost use Rattle.std.specs.List.{list_all, zip};
ghost use Rattle.std.specs.Cmp.Lexicographic.{pointwise};
ghost use Rattle.desk_rules.specs.SameContent.{same_direction, same_entry, same_kind, same_optional, same_retry, same_sec, same_submission};

use crate::{AccountKind, Direction, Entry, Retry, SecCode, Submission};
use ach_fields::ShortText;

impl Submission {
    /// Have two submissions the same content? They have where all their fields are equal; what was
    /// left out counts as its default.
    pub fn is_same(&self, other: &Submission) -> bool
        ensures { result ≡ same_submission self.now other.now }
    {
        self.reference.bytes() == other.reference.bytes()
            && same_sec(self.sec, other.sec)
            && same_direction(self.direction, other.direction)
            && self.description.bytes() == other.description.bytes()
            && self.day == other.day
            && same_entries(self.entries.as_slice(), other.entries.as_slice())
    }
}

impl Retry {
    /// Have two retries the same content? They have where they name the same entry and ask for the
    /// same day, with the same authorization or both without one.
    pub fn is_same(&self, other: &Retry) -> bool
        ensures { result ≡ same_retry self.now other.now }
    {
        self.of.bytes() == other.of.bytes()
            && self.index == other.index
            && self.day == other.day
            && self.authorized == other.authorized
    }
}

// As many entries, each the same as the other at its place?
fn same_entries(entries: &[Entry], others: &[Entry]) -> bool
    ensures { result ≡ pointwise same_entry entries.now others.now }
{
    entries.len() == others.len() && are_pairs_same(entries, others)
}

fn are_pairs_same(entries: &[Entry], others: &[Entry]) -> bool
    ensures { result ≡ list_all (λ p. same_entry p.0 p.1) (zip entries.now others.now) }
{
    entries
        .iter()
        .zip(others)
        .all(|(entry, other)| same_entry(entry, other))
}

fn same_entry(entry: &Entry, other: &Entry) -> bool
    ensures { result ≡ same_entry entry.now other.now }
{
    entry.routing.text() == other.routing.text()
        && entry.account.bytes() == other.account.bytes()
        && same_kind(entry.kind, other.kind)
        && entry.prenote == other.prenote
        && entry.cents.get() == other.cents.get()
        && entry.id.bytes() == other.id.bytes()
        && entry.name.bytes() == other.name.bytes()
        && same_info(&entry.info, &other.info)
}

fn same_info(info: &Option<ShortText<80>>, other: &Option<ShortText<80>>) -> bool
    ensures { result ≡ same_optional bytes_eq info.now other.now }
{
    match (info, other) {
        (Some(info), Some(other)) => info.bytes() == other.bytes(),
        (None, None) => true,
        _ => false,
    }
}

fn same_sec(sec: SecCode, other: SecCode) -> bool
    ensures { result ≡ same_sec sec other }
{
    sec == other
}

fn same_direction(direction: Direction, other: Direction) -> bool
    ensures { result ≡ same_direction direction other }
{
    direction == other
}

fn same_kind(kind: AccountKind, other: AccountKind) -> bool
    ensures { result ≡ same_kind kind other }
{
    kind == other
}
