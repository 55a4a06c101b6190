//! Refused calls, and faults of messages.
use super::body_of;
use ach_files::{Fault, FileFault};
use bank_days::CalendarFault;
use desk_history::{Answer, CallRefusal};
use desk_rules::{Field, Refusal, ReturnCode};
use http_answers::{CallKind, MessageFault, message_fault_text, status_of};
use std::alloc::Global;
use std::process::Abort;

const BAD_ROUTING: Refusal = Refusal::BadField {
    field: Field::Routing,
    index: 1,
};

const BAD_HASH: Fault = Fault {
    kind: FileFault::BadHash,
    at: 5,
};

fn refuses(rt: &(impl Abort + Alloc<A = Global>), why: CallRefusal, status: u16, body: &[u8]) {
    let answer = Answer::Refused(why);
    assert!(rt;
        status_of(CallKind::Creates, &answer).as_u16() == status,
        "{why:?}"
    );
    assert!(rt; body_of(rt, answer).as_slice() == body, "{why:?}");
}

#[test]
fn refusals_by_rules_have_their_fields(rt: HostRuntime) {
    let body = b">{\"error\":\"NoDay\",\"number\":1}";
    refuses(&rt, CallRefusal::Rule(Refusal::NoDay), 409, body);
    let body = b">{\"error\":\"BadField\",\"field\":\"routing\",\"index\":1,\"number\":2}";
    refuses(&rt, CallRefusal::Rule(BAD_ROUTING), 422, body);
    let code = ReturnCode::parse(b"R08").expect(&rt, "R08");
    let why = CallRefusal::Rule(Refusal::NotRetryable(code));
    let body = b">{\"code\":\"R08\",\"error\":\"NotRetryable\",\"number\":12}";
    refuses(&rt, why, 409, body);
}

#[test]
fn a_bad_file_has_its_fault(rt: HostRuntime) {
    let body = b">{\"error\":\"BadFile\",\"fault\":\"BadHash\",\"number\":27,\"record\":5}";
    refuses(&rt, CallRefusal::BadFile(BAD_HASH), 422, body);
}

const CALENDARS: &[(CalendarFault, &[u8])] = &[
    (
        CalendarFault::BadRow(1),
        b">{\"error\":\"BadCalendar\",\"fault\":\"BadRow\",\"number\":28,\"row\":1}",
    ),
    (
        CalendarFault::NotAscending(2),
        b">{\"error\":\"BadCalendar\",\"fault\":\"NotAscending\",\"number\":28,\"row\":2}",
    ),
    (
        CalendarFault::TooMany,
        b">{\"error\":\"BadCalendar\",\"fault\":\"TooMany\",\"number\":28,\"row\":0}",
    ),
];

#[test]
fn bad_calendars_have_their_row(rt: HostRuntime) {
    for &(fault, body) in CALENDARS {
        refuses(&rt, CallRefusal::BadCalendar(fault), 422, body);
    }
}

const FAULTS: &[(MessageFault, u16, &[u8])] = &[
    (MessageFault::BadHead, 400, b"{\"error\":\"BadHead\"}"),
    (
        MessageFault::LengthRequired,
        411,
        b"{\"error\":\"LengthRequired\"}",
    ),
    (MessageFault::TooLarge, 413, b"{\"error\":\"TooLarge\"}"),
    (MessageFault::NotFound, 404, b"{\"error\":\"NotFound\"}"),
    (MessageFault::BadMethod, 405, b"{\"error\":\"BadMethod\"}"),
    (MessageFault::Denied, 403, b"{\"error\":\"Denied\"}"),
    (MessageFault::BadJson, 400, b"{\"error\":\"BadJson\"}"),
    (
        MessageFault::NoReference,
        404,
        b"{\"error\":\"NoReference\"}",
    ),
    (MessageFault::NoFile, 404, b"{\"error\":\"NoFile\"}"),
];

#[test]
fn faults_of_messages(rt: HostRuntime) {
    for &(fault, status, body) in FAULTS {
        let text = message_fault_text(rt.alloc(), fault).expect(&rt, "memory");
        assert!(rt; text.as_slice() == body, "{fault:?}");
        assert!(rt; fault.status().as_u16() == status, "{fault:?}");
    }
}
