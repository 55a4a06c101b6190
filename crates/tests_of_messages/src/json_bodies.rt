//! Bodies that are read and written.
use ach_fields::Ref;
use desk_rules::{
    CompanyDraft, Draft, DraftText, Field, LimitsDraft, Optional, Refusal, RetryDraft, ReturnCode,
    check_company_fields, check_day_field, check_fields, check_limits_fields, check_retry_fields,
};
use http_json::{
    company_draft, day_draft, fault_text, judged_draft, limits_draft, put_acceptance, read_object,
    refusal_text, retry_draft, submission_draft,
};
use json::Scratch;
use std::alloc::Global;
use std::process::Abort;

fn is_written(rt: &(impl Abort + Alloc<A = Global>), refusal: Refusal, body: &[u8]) {
    let text = refusal_text(rt.alloc(), refusal).expect(rt, "memory");
    assert!(rt; text.as_slice() == body, "{refusal:?}");
}

const BAD_ROUTING: Refusal = Refusal::BadField {
    field: Field::Routing,
    index: 1,
};

#[test]
fn refusals_are_written(rt: HostRuntime) {
    is_written(&rt, Refusal::NoDay, b"{\"error\":\"NoDay\",\"number\":1}");
    let body = b"{\"error\":\"BadField\",\"field\":\"routing\",\"index\":1,\"number\":2}";
    is_written(&rt, BAD_ROUTING, body);
    let body = b"{\"error\":\"RefReused\",\"number\":3}";
    is_written(&rt, Refusal::RefReused, body);
    let code = ReturnCode::parse(b"R08").expect(&rt, "R08");
    let body = b"{\"code\":\"R08\",\"error\":\"NotRetryable\",\"number\":12}";
    is_written(&rt, Refusal::NotRetryable(code), body);
    let body = b"{\"error\":\"FileKeyReused\",\"number\":26}";
    is_written(&rt, Refusal::FileKeyReused, body);
}

#[test]
fn faults_are_written(rt: HostRuntime) {
    let text = fault_text(rt.alloc(), "Denied").expect(&rt, "memory");
    assert!(rt; text.as_slice() == b"{\"error\":\"Denied\"}".as_slice());
}

#[test]
fn acceptances_are_written_after_what_stands(rt: HostRuntime) {
    let reference = Ref::new(b"PAY-1").expect(&rt, "PAY-1");
    let mut text = Vec::with_capacity(rt.alloc(), 2_048).expect(&rt, "memory");
    text.extend_from_slice(b"..").expect(&rt, "memory");
    assert!(rt; text.capacity() - text.len() >= 1_024);
    put_acceptance(&mut text, &reference, 150_000, 1, 1);
    let body = b"..{\"cents\":150000,\"entries\":1,\"order\":1,\"ref\":\"PAY-1\"}";
    assert!(rt; text.as_slice() == body.as_slice());
}

fn day_in(rt: &(impl Abort + Alloc<A = Global>), body: &[u8]) -> Option<DraftText> {
    let mut scratch = Scratch::new(rt.alloc());
    let body = read_object(rt.alloc(), body, &mut scratch).expect(rt, "memory");
    day_draft(rt.alloc(), &body.expect(rt, "an object")).expect(rt, "memory")
}

fn retry_in(rt: &(impl Abort + Alloc<A = Global>), body: &[u8]) -> RetryDraft {
    let mut scratch = Scratch::new(rt.alloc());
    let body = read_object(rt.alloc(), body, &mut scratch).expect(rt, "memory");
    retry_draft(rt.alloc(), &body.expect(rt, "an object")).expect(rt, "memory")
}

fn limits_in(rt: &(impl Abort + Alloc<A = Global>), body: &[u8]) -> LimitsDraft {
    let mut scratch = Scratch::new(rt.alloc());
    let body = read_object(rt.alloc(), body, &mut scratch).expect(rt, "memory");
    limits_draft(rt.alloc(), &body.expect(rt, "an object")).expect(rt, "memory")
}

fn company_in(rt: &(impl Abort + Alloc<A = Global>), body: &[u8]) -> CompanyDraft {
    let mut scratch = Scratch::new(rt.alloc());
    let body = read_object(rt.alloc(), body, &mut scratch).expect(rt, "memory");
    company_draft(rt.alloc(), &body.expect(rt, "an object"), [7; 32]).expect(rt, "memory")
}

fn submission_in(rt: &(impl Abort + Alloc<A = Global>), body: &[u8]) -> Draft {
    let mut scratch = Scratch::new(rt.alloc());
    let body = read_object(rt.alloc(), body, &mut scratch).expect(rt, "memory");
    submission_draft(rt.alloc(), &body.expect(rt, "an object")).expect(rt, "memory")
}

#[test]
fn days_are_read(rt: HostRuntime) {
    let day = day_in(&rt, b"{\"day\":\"2025-01-08\",\"note\":null}");
    assert!(rt; check_day_field(&day).is_ok());
}

const RETRY: &[u8] =
    b"{\"ref\":\"RT-1\",\"of\":\"PAY-2\",\"index\":1,\"day\":\"2025-01-22\",\"authorized\":\"2025-01-14\"}";

#[test]
fn retries_are_read(rt: HostRuntime) {
    let retry = check_retry_fields(&retry_in(&rt, RETRY)).expect(&rt, "a retry");
    assert!(rt; retry.index == 1);
    assert!(rt; retry.authorized.is_some());
}

const COMPANY: &[u8] =
    b"{\"id\":\"MILL01\",\"name\":\"MILL STREET\",\"key\":\"mill-street-key\",\"entry_limit\":9999999999,\"credit_limit\":999999999999999,\"debit_limit\":0}";

#[test]
fn companies_and_their_limits_are_read(rt: HostRuntime) {
    let limits = check_limits_fields(&limits_in(&rt, COMPANY))
        .expect(&rt, "limits")
        .1;
    assert!(rt; limits.entry == 9_999_999_999);
    assert!(rt; limits.debit == 0);
    let company = check_company_fields(&company_in(&rt, COMPANY)).expect(&rt, "a company");
    assert!(rt; company.digest == [7; 32]);
}

const SUBMISSION: &[u8] =
    b"{\"ref\":5,\"ref\":\"P\",\"sec\":\"PPD\",\"direction\":\"credit\",\"description\":\"DUES\",\"day\":\"2025-01-10\",\"entries\":[7]}";

// The last member of a key counts, and an entry that is not an object is refused later.
#[test]
fn submissions_are_read(rt: HostRuntime) {
    let draft = submission_in(&rt, SUBMISSION);
    match &draft.reference {
        Some(text) => assert!(rt; text.bytes() == b"P".as_slice()),
        None => assert!(rt; false),
    }
    assert!(rt; check_fields(rt.alloc(), &draft).is_err());
}

fn judged_entries(rt: &(impl Abort + Alloc<A = Global>), body: &[u8]) -> usize {
    let mut scratch = Scratch::new(rt.alloc());
    let body = read_object(rt.alloc(), body, &mut scratch).expect(rt, "memory");
    let draft = judged_draft(rt.alloc(), &body.expect(rt, "an object")).expect(rt, "memory");
    match &draft.entries {
        Some(entries) => entries.as_slice().len(),
        None => 0,
    }
}

#[test]
fn a_judged_draft_ends_with_its_first_bad_entry(rt: HostRuntime) {
    assert!(rt;
        judged_entries(
            &rt,
            b"{\"entries\":[{\"routing\":\"1\"},0,{\"routing\":\"2\"}]}"
        ) == 2
    );
    assert!(rt;
        judged_entries(
            &rt,
            b"{\"entries\":[{\"routing\":\"1\"},{\"routing\":\"2\"}]}"
        ) == 2
    );
    assert!(rt; judged_entries(&rt, b"{\"entries\":[{},{\"routing\":\"2\"}]}") == 1);
    assert!(rt; judged_entries(&rt, b"{\"entries\":[]}") == 0);
}

#[test]
fn optional_keys(rt: HostRuntime) {
    let wrong = retry_in(&rt, b"{\"authorized\":5}").authorized;
    assert!(rt; matches!(&wrong, Optional::Wrong));
    let absent = retry_in(&rt, b"{}").authorized;
    assert!(rt; matches!(&absent, Optional::Absent));
    let mut scratch = Scratch::new(rt.alloc());
    let list = read_object(rt.alloc(), b"[]", &mut scratch).expect(&rt, "memory");
    assert!(rt; list.is_none());
}
