//! A company gets the same bytes whatever others do, and from a desk that serves no one else.
use crate::exchanges::{follow, http_desk};
use crate::samples::{
    BAKE, CUT_9, DAY_8, DAY_9, DAY_14, Exchange, HOLIDAYS, MILL, RETURN_1_TAKEN, SUBMIT_2, TAKEN,
    new_lists, new_tables,
};
use desk_core::Store;
use desk_http::HttpDesk;
use std::alloc::Global;
use std::process::Abort;

/// The return of the 41st entry that the desk sent.
const RETURN_41: &str = concat!(
    "101 121042882 0610001462501140930A094101OUR BANK               ACH OPERATOR                   \n",
    "5225MILL STREET                         MILL01    PPDDUES            2501140141091000010000001\n",
    "626121042882123456789        0000002500E2             BOB RAY                 1091000010000007\n",
    "799R01121042880000041      09100001                                            091000010000007\n",
    "82250000020012104288000000002500000000000000MILL01                             091000010000001\n",
    "9000001000001000000020012104288000000002500000000000000                                       \n",
    "9999999999999999999999999999999999999999999999999999999999999999999999999999999999999999999999\n",
    "9999999999999999999999999999999999999999999999999999999999999999999999999999999999999999999999\n",
    "9999999999999999999999999999999999999999999999999999999999999999999999999999999999999999999999\n",
    "9999999999999999999999999999999999999999999999999999999999999999999999999999999999999999999999\n",
);

/// The company's requests after its debit was returned, with the answers.
const AFTER: &[Exchange] = &[
    (
        "MILL01 GET /c/MILL01/returns",
        "",
        "200 OK",
        r#"{"returns":[{"code":"R01","day":"2025-01-14","index":1,"info":"","late":false,"ref":"PAY-2"}]}"#,
    ),
    (
        "MILL01 GET /c/MILL01/submissions/PAY-2",
        "",
        "200 OK",
        r#"{"cents":2500,"day":"2025-01-10","direction":"debit","entries":[{"cents":2500,"code":"R01","index":1,"late":false,"returned":"2025-01-14","settled":"2025-01-10","state":"returned"}],"order":1,"ref":"PAY-2","sec":"PPD"}"#,
    ),
    (
        "MILL01 GET /c/MILL01/statement",
        "",
        "200 OK",
        r#"{"balance":"0","day":"2025-01-14","lines":[{"cause":"cut","cents":2500,"day":"2025-01-10","index":0,"ref":"PAY-2"},{"cause":"return","cents":-2500,"day":"2025-01-14","index":1,"ref":"PAY-2"}]}"#,
    ),
    (
        "MILL01 GET /c/MILL01/rates",
        "",
        "200 OK",
        r#"{"administrative":{"d":1,"n":0,"over":false},"day":"2025-01-14","overall":{"d":1,"n":1,"over":true},"unauthorized":{"d":1,"n":0,"over":false}}"#,
    ),
    (
        "MILL01 GET /c/MILL01/exposure",
        "",
        "200 OK",
        r#"{"credit":"0","credit_limit":999999999999999,"day":"2025-01-14","debit":"0","debit_limit":999999999999999,"entry_limit":9999999999}"#,
    ),
    (
        "MILL01 GET /c/MILL01/changes",
        "",
        "200 OK",
        r#"{"changes":[]}"#,
    ),
];

fn add(rt: &impl Abort, text: &mut String, piece: &str) {
    text.push_str(piece).ok().expect(rt, "memory");
}

// A submission of this many debits.
fn debits(rt: &(impl Abort + Alloc<A = Global>), count: usize) -> String {
    let mut body = String::new(rt.alloc());
    add(
        rt,
        &mut body,
        r#"{"ref":"PAY-9","sec":"PPD","direction":"debit","description":"DUES","day":"2025-01-10","entries":["#,
    );
    for index in 0..count {
        if index > 0 {
            add(rt, &mut body, ",");
        }
        add(
            rt,
            &mut body,
            r#"{"routing":"091000019","account":"77","kind":"savings","cents":100,"id":"","name":"EVE"}"#,
        );
    }
    add(rt, &mut body, "]}");
    body
}

/// A company is served alone.
const ALONE: &[Exchange] = &[
    HOLIDAYS,
    MILL,
    DAY_8,
    SUBMIT_2,
    DAY_9,
    CUT_9,
    DAY_14,
    RETURN_1_TAKEN,
];

/// Another company is registered as well.
const BESIDE: &[Exchange] = &[HOLIDAYS, MILL, BAKE, DAY_8, SUBMIT_2];

/// The other company's entries are sent before.
const BEHIND: &[Exchange] = &[
    DAY_9,
    (
        "desk POST /ops/cut",
        "",
        "200 OK",
        r#"{"day":"2025-01-09","entries":41,"files":["A"],"lapsed":0}"#,
    ),
    DAY_14,
    ("desk POST /ops/returns", RETURN_41, "200 OK", TAKEN),
];

fn serve_alone<S: Store + Drop>(rt: &(impl Abort + Alloc<A = Global>), store: S) {
    let mut desk = http_desk(rt, store);
    follow(rt, &mut desk, "alone", ALONE);
    follow(rt, &mut desk, "told alone", AFTER);
}

// The other company sends forty debits.
fn serve_other<S: Store>(rt: &(impl Abort + Alloc<A = Global>), desk: &mut HttpDesk<S>) {
    let body = debits(rt, 40);
    let sent = (
        "BAKE01 POST /c/BAKE01/submissions",
        body.as_str(),
        "201 Created",
        r#"{"cents":4000,"entries":40,"order":1,"ref":"PAY-9"}"#,
    );
    follow(rt, desk, "forty debits", &[sent]);
}

fn serve_beside_another<S: Store + Drop>(rt: &(impl Abort + Alloc<A = Global>), store: S) {
    let mut desk = http_desk(rt, store);
    follow(rt, &mut desk, "beside another", BESIDE);
    serve_other(rt, &mut desk);
    follow(rt, &mut desk, "behind another", BEHIND);
    follow(rt, &mut desk, "told beside another", AFTER);
}

#[test]
fn what_others_send_changes_no_byte(rt: HostRuntime) {
    serve_alone(&rt, new_lists(&rt));
    serve_alone(&rt, new_tables(&rt));
    serve_beside_another(&rt, new_lists(&rt));
    serve_beside_another(&rt, new_tables(&rt));
}
