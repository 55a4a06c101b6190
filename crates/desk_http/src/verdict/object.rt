//! The calls that the JSON objects of bodies make.
ghost use Rattle.std.specs.Prelude.{◌≡◌, IfOk};
ghost use Rattle.http_json.specs.View.{view};
ghost use Rattle.http_history.specs.Verdict.{submission_in, retry_in, company_verdict, company_with_digest, day_in, company_in, limits_in};
ghost use Rattle.desk_http.specs.Judged.{judged};

use ach_fields::Id;
use desk_history::Call;
use desk_rules::{CompanyDraft, Field};
use http_answers::MessageFault;
use http_json::{
    company_draft, day_draft, judged_draft, limits_draft, read_object, retry_draft, text_of,
};
use json::{Scratch, Value};
use sha2::{Digest, Sha256};
use std::alloc::{AllocError, Global};

pub(crate) fn submission_call(
    alloc: Global,
    scratch: &mut Scratch,
    id: Id,
    body: &[u8],
) -> Result<Result<Call, MessageFault>, AllocError>
    ensures { IfOk result (λ v. v ≡ company_verdict id (judged (submission_in body.now))) }
{
    match read_object(alloc, body, scratch)? {
        Some(object) => Ok(Ok(Call::Submit(id, judged_draft(alloc, &object)?))),
        None => Ok(Err(MessageFault::BadJson)),
    }
}

pub(crate) fn retry_call(
    alloc: Global,
    scratch: &mut Scratch,
    id: Id,
    body: &[u8],
) -> Result<Result<Call, MessageFault>, AllocError>
    ensures { IfOk result (λ v. v ≡ company_verdict id (judged (retry_in body.now))) }
{
    match read_object(alloc, body, scratch)? {
        Some(object) => Ok(Ok(Call::Retry(id, retry_draft(alloc, &object)?))),
        None => Ok(Err(MessageFault::BadJson)),
    }
}

pub(crate) fn day_call(
    alloc: Global,
    scratch: &mut Scratch,
    body: &[u8],
) -> Result<Result<Call, MessageFault>, AllocError>
    ensures { IfOk result (λ v. v ≡ day_in body.now) }
{
    match read_object(alloc, body, scratch)? {
        Some(object) => Ok(Ok(Call::SetDay(day_draft(alloc, &object)?))),
        None => Ok(Err(MessageFault::BadJson)),
    }
}

pub(crate) fn company_call(
    alloc: Global,
    scratch: &mut Scratch,
    body: &[u8],
) -> Result<Result<Call, MessageFault>, AllocError>
    ensures { IfOk result (λ v. v ≡ company_in body.now) }
{
    match read_object(alloc, body, scratch)? {
        Some(object) => Ok(Ok(Call::PutCompany(draft_with_digest(alloc, &object)?))),
        None => Ok(Err(MessageFault::BadJson)),
    }
}

// The company that an object is, with the digest of its key; of no bytes if it has none.
fn draft_with_digest(alloc: Global, object: &Value<'_>) -> Result<CompanyDraft, AllocError>
    ensures { IfOk result (λ draft. draft ≡ company_with_digest (view object.now)) }
{
    let digest = match text_of(object, Field::Key) {
        Some(key) => Sha256::digest(key.as_bytes()),
        None => Sha256::digest(b""),
    };
    company_draft(alloc, object, digest)
}

pub(crate) fn limits_call(
    alloc: Global,
    scratch: &mut Scratch,
    body: &[u8],
) -> Result<Result<Call, MessageFault>, AllocError>
    ensures { IfOk result (λ v. v ≡ limits_in body.now) }
{
    match read_object(alloc, body, scratch)? {
        Some(object) => Ok(Ok(Call::PutLimits(limits_draft(alloc, &object)?))),
        None => Ok(Err(MessageFault::BadJson)),
    }
}
