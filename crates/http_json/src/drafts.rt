//! The drafts that JSON objects are. A key that is not named here is not looked at.
ghost use Rattle.std.specs.Prelude.{◌≡◌, ◌≢◌, [], option_and_then, option_map, IfOk, IsSome, OnErr};
ghost use Rattle.serde_json.specs.Find.{as_array, as_bool, as_number, as_str, as_u64};
ghost use Rattle.http_json.specs.View.{view, items_view};
ghost use Rattle.http_json.specs.Drafts.{value_at, text_at, number_at, given_or_wrong, optional_from, entry_draft_of, entry_drafts_of, submission_draft_of, retry_draft_of, company_draft_of, limits_draft_of, limit_drafts_of, draft_with, entries_at, HasEntry, HasText, HasTextOrEntry, submission_texts, retry_texts, company_texts};
ghost use Rattle.desk_rules.specs.declared.refusals.refusal.Field.TheVariants as field;

use crate::field_keys::key_of;
use crate::number::unsigned;
use desk_rules::{
    CompanyDraft, Draft, DraftText, EntryDraft, EntryDrafts, Field, LimitDrafts, LimitsDraft,
    Optional, RetryDraft,
};
use json::Value;
use std::alloc::{AllocError, Global};

/// Gives the draft of a submission that a JSON object is. Its keys are `ref`, `sec`, `direction`,
/// `description`, `day` and `entries`. Each call here runs out of memory only where there is a text or
/// an entry that it has to copy.
pub fn submission_draft(alloc: Global, value: &Value<'_>) -> Result<Draft, AllocError>
    ensures draft { IfOk result (λ d. d ≡ submission_draft_of (view value.now)) }
    ensures memory { OnErr result (HasTextOrEntry (view value.now)) }
{
    let entries = entries_at(alloc, value)?;
    draft_with(alloc, value, entries)
}

/// Gives the draft of a submission that has these entries.
pub(crate) fn draft_with(
    alloc: Global,
    value: &Value<'_>,
    entries: Option<EntryDrafts>,
) -> Result<Draft, AllocError>
    ensures draft { IfOk result (λ d. d ≡ draft_with entries (view value.now)) }
    ensures memory { OnErr result (HasText submission_texts (view value.now)) }
{
    let reference = text_at(alloc, value, Field::Reference)?;
    let sec = text_at(alloc, value, Field::Sec)?;
    let direction = text_at(alloc, value, Field::Direction)?;
    let description = text_at(alloc, value, Field::Description)?;
    let day = text_at(alloc, value, Field::Day)?;
    Ok(Draft {
        reference,
        sec,
        direction,
        description,
        day,
        entries,
    })
}

fn entries_at(alloc: Global, value: &Value<'_>) -> Result<Option<EntryDrafts>, AllocError>
    ensures drafts { IfOk result (λ d. d ≡ entries_at (view value.now)) }
    ensures memory { OnErr result (HasEntry (view value.now)) }
{
    match entry_values(value) {
        Some(values) => Ok(Some(entry_drafts(alloc, values)?)),
        None => Ok(None),
    }
}

/// Returns the list of entries under its key.
pub(crate) fn entry_values<'v, 'a>(value: &'v Value<'a>) -> Option<&'v [Value<'a>]>
    ensures { option_map (λ values. items_view values.now) result
        ≡ option_and_then as_array (value_at field.Entries (view value.now)) }
{
    match value.get(key_of(Field::Entries)) {
        Some(found) => items_in(found),
        None => None,
    }
}

fn items_in<'v, 'a>(value: &'v Value<'a>) -> Option<&'v [Value<'a>]>
    ensures { option_map (λ values. items_view values.now) result ≡ as_array (view value.now) }
{
    match value {
        Value::Array(items) => Some(items.as_slice()),
        _ => None,
    }
}

fn entry_drafts(alloc: Global, values: &[Value<'_>]) -> Result<EntryDrafts, AllocError>
    ensures drafts { IfOk result (λ d. d ≡ entry_drafts_of (items_view values.now)) }
    ensures memory { OnErr result (entry_drafts_of (items_view values.now) ≢ []) }
{
    let mut drafts = Vec::new(alloc);
    for value in values {
        drafts.push(entry_draft(alloc, value)?)?;
    }
    Ok(EntryDrafts::new(drafts))
}

/// Gives the draft of an entry that an object is. Its keys are `routing`, `account`, `kind`, `prenote`, `cents`, `id`, `name` and `info`.
pub(crate) fn entry_draft(
    alloc: Global,
    value: &Value<'_>,
) -> Result<Option<EntryDraft>, AllocError>
    ensures { IfOk result (λ d. d ≡ entry_draft_of (view value.now)) }
{
    let Value::Object(_) = value else {
        return Ok(None);
    };
    let routing = text_at(alloc, value, Field::Routing)?;
    let account = text_at(alloc, value, Field::Account)?;
    let kind = text_at(alloc, value, Field::Kind)?;
    let prenote = flag_at(value, Field::Prenote);
    let cents = number_at(value, Field::Cents);
    let id = text_at(alloc, value, Field::Id)?;
    let name = text_at(alloc, value, Field::Name)?;
    let info = optional_text_at(alloc, value, Field::Info)?;
    Ok(Some(EntryDraft {
        routing,
        account,
        kind,
        prenote,
        cents,
        id,
        name,
        info,
    }))
}

/// Gives the draft of a retry that a JSON object is. Its keys are `ref`, `of`, `index`, `day` and
/// `authorized`.
pub fn retry_draft(alloc: Global, value: &Value<'_>) -> Result<RetryDraft, AllocError>
    ensures draft { IfOk result (λ d. d ≡ retry_draft_of (view value.now)) }
    ensures memory { OnErr result (HasText retry_texts (view value.now)) }
{
    let reference = text_at(alloc, value, Field::Reference)?;
    let of = text_at(alloc, value, Field::Of)?;
    let index = number_at(value, Field::Index);
    let day = text_at(alloc, value, Field::Day)?;
    let authorized = optional_text_at(alloc, value, Field::Authorized)?;
    Ok(RetryDraft {
        reference,
        of,
        index,
        day,
        authorized,
    })
}

/// Gives the draft of a desk day that a JSON object is. Its key is `day`.
pub fn day_draft(alloc: Global, value: &Value<'_>) -> Result<Option<DraftText>, AllocError>
    ensures draft { IfOk result (λ d. d ≡ text_at Field.Day (view value.now)) }
    ensures memory { OnErr result (IsSome (text_at Field.Day (view value.now))) }
{
    text_at(alloc, value, Field::Day)
}

/// Gives the draft of a company that a JSON object is, with the SHA-256 digest of its key. Its keys
/// are `id`, `name`, `key`, `entry_limit`, `credit_limit` and `debit_limit`, the limits in cents.
pub fn company_draft(
    alloc: Global,
    value: &Value<'_>,
    digest: [u8; 32],
) -> Result<CompanyDraft, AllocError>
    ensures draft { IfOk result (λ d. d ≡ company_draft_of digest (view value.now)) }
    ensures memory { OnErr result (HasText company_texts (view value.now)) }
{
    let id = text_at(alloc, value, Field::Id)?;
    let name = text_at(alloc, value, Field::Name)?;
    let key = text_at(alloc, value, Field::Key)?;
    Ok(CompanyDraft {
        id,
        name,
        key,
        limits: limit_drafts(value),
        digest,
    })
}

/// Gives the draft of a company's new limits that a JSON object is. Its keys are `id`, `entry_limit`,
/// `credit_limit` and `debit_limit`, the limits in cents.
pub fn limits_draft(alloc: Global, value: &Value<'_>) -> Result<LimitsDraft, AllocError>
    ensures draft { IfOk result (λ d. d ≡ limits_draft_of (view value.now)) }
    ensures memory { OnErr result (IsSome (text_at Field.Id (view value.now))) }
{
    let id = text_at(alloc, value, Field::Id)?;
    Ok(LimitsDraft {
        id,
        limits: limit_drafts(value),
    })
}

fn limit_drafts(value: &Value<'_>) -> LimitDrafts
    ensures { result ≡ limit_drafts_of (view value.now) }
{
    LimitDrafts {
        entry: number_at(value, Field::EntryLimit),
        credit: number_at(value, Field::CreditLimit),
        debit: number_at(value, Field::DebitLimit),
    }
}

fn text_at(alloc: Global, value: &Value<'_>, field: Field) -> Result<Option<DraftText>, AllocError>
    ensures text { IfOk result (λ t. t ≡ text_at field (view value.now)) }
    ensures memory { OnErr result (IsSome (text_at field (view value.now))) }
{
    match text_of(value, field) {
        Some(text) => Ok(Some(DraftText::from_slice(alloc, text.as_bytes())?)),
        None => Ok(None),
    }
}

/// Returns the text of a field, or `None` if the field is missing or not a text.
pub fn text_of<'a>(value: &Value<'a>, field: Field) -> Option<&'a str>
    ensures { option_map (λ t. t.now) result ≡ text_at field (view value.now) }
{
    match value.get(key_of(field)) {
        Some(found) => found.as_str(),
        None => None,
    }
}

fn number_at(value: &Value<'_>, field: Field) -> Option<u64>
    ensures { result ≡ number_at field (view value.now) }
{
    match value.get(key_of(field)) {
        Some(found) => number_in(found),
        None => None,
    }
}

fn number_in(value: &Value<'_>) -> Option<u64>
    ensures { result ≡ option_and_then as_u64 (as_number (view value.now)) }
{
    match value.as_number() {
        Some(text) => unsigned(text),
        None => None,
    }
}

fn flag_at(value: &Value<'_>, field: Field) -> Optional<bool>
    ensures { result ≡ optional_from as_bool (value_at field (view value.now)) }
{
    match value.get(key_of(field)) {
        Some(found) => given_or_wrong(found.as_bool()),
        None => Optional::Absent,
    }
}

fn optional_text_at(
    alloc: Global,
    value: &Value<'_>,
    field: Field,
) -> Result<Optional<DraftText>, AllocError>
    ensures text { IfOk result (λ t. t ≡ optional_from as_str (value_at field (view value.now))) }
    ensures memory { OnErr result (IsSome (text_at field (view value.now))) }
{
    match value.get(key_of(field)) {
        Some(_) => Ok(given_or_wrong(text_at(alloc, value, field)?)),
        None => Ok(Optional::Absent),
    }
}

// A value that is there, if it was read, or one of another kind.
fn given_or_wrong<T: Drop>(read: Option<T>) -> Optional<T>
    ensures { result ≡ given_or_wrong read }
{
    match read {
        Some(value) => Optional::Given(value),
        None => Optional::Wrong,
    }
}
