//! The list of all companies, made of the answers to each company's own two reads.
use crate::exchanges::{add_request, run};
use desk_core::Store;
use desk_http::HttpDesk;
use std::alloc::Global;
use std::process::Abort;

// The companies in the order of the list: identification and name.
const COMPANIES: &[(&str, &str)] = &[("BAKE01", "BAKERY"), ("MILL01", "MILL STREET")];

fn add(rt: &impl Abort, out: &mut String, text: &str) {
    out.push_str(text).ok().expect(rt, "memory");
}

/// Returns the body of the answer to a message without a body.
pub(crate) fn body_of<S: Store>(
    rt: &(impl Abort + Alloc<A = Global>),
    desk: &mut HttpDesk<S>,
    asks: &str,
) -> String {
    let mut input = Vec::new(rt.alloc());
    add_request(rt, &mut input, asks, "");
    let answer = run(rt, desk, &input);
    let text = std::str::from_utf8(&answer).ok().expect(rt, "a text");
    let (_, body) = text.split_once("\r\n\r\n").expect(rt, "a body");
    let mut out = String::new(rt.alloc());
    add(rt, &mut out, body);
    out
}

// Returns the answer to a company's own read, with its own key.
fn own_body<S: Store>(
    rt: &(impl Abort + Alloc<A = Global>),
    desk: &mut HttpDesk<S>,
    id: &str,
    read: &str,
) -> String {
    let mut asks = String::new(rt.alloc());
    add(rt, &mut asks, id);
    add(rt, &mut asks, " GET /c/");
    add(rt, &mut asks, id);
    add(rt, &mut asks, read);
    body_of(rt, desk, &asks)
}

// Appends the members of an object other than the day, and no brace at its end.
fn add_without_day(rt: &impl Abort, out: &mut String, object: &str, day: &str) {
    let (before, after) = object.split_once(day).expect(rt, "a day");
    add(rt, out, before);
    add(rt, out, after.strip_suffix('}').expect(rt, "an object"));
}

// Appends a company's row: its exposure, its identification and name, and its rates.
fn add_row<S: Store>(
    rt: &(impl Abort + Alloc<A = Global>),
    desk: &mut HttpDesk<S>,
    out: &mut String,
    id: &str,
    name: &str,
    day: &str,
) {
    let exposure = own_body(rt, desk, id, "/exposure");
    let rates = own_body(rt, desk, id, "/rates");
    add_without_day(rt, out, &exposure, day);
    add(rt, out, r#","id":""#);
    add(rt, out, id);
    add(rt, out, r#"","name":""#);
    add(rt, out, name);
    add(rt, out, r#"","rates":"#);
    add_without_day(rt, out, &rates, day);
    add(rt, out, "}}");
}

/// Makes the list of all companies of the answers to their own reads on a day, `"day":"2025-01-08",` as
/// these have it.
pub(crate) fn own_list<S: Store>(
    rt: &(impl Abort + Alloc<A = Global>),
    desk: &mut HttpDesk<S>,
    day: &str,
) -> String {
    let mut out = String::new(rt.alloc());
    add(rt, &mut out, r#"{"companies":["#);
    let mut before = "";
    for (id, name) in COMPANIES {
        add(rt, &mut out, before);
        add_row(rt, desk, &mut out, id, name, day);
        before = ",";
    }
    add(rt, &mut out, "],");
    add(rt, &mut out, day.strip_suffix(',').expect(rt, "a day"));
    add(rt, &mut out, "}");
    out
}
