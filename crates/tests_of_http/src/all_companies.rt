//! The operator's list of all companies, over HTTP.
use crate::exchanges::{all_hold, follow, http_desk};
use crate::own_rows::{body_of, own_list};
use crate::samples::{
    BAKE, CUT_9, DAY_8, DAY_9, DAY_14, Exchange, HOLIDAYS, MILL, PAY_2, SUBMIT_1, Script, TAKEN,
    new_lists, new_tables,
};
use crate::settlements::RETURN_2;
use desk_core::Store;
use desk_http::HttpDesk;
use remembering_store::Remembering;
use std::alloc::Global;
use std::process::Abort;

/// A credit of 700 cents for the 15th.
const PAY_7: &str =
    r#"{"ref":"PAY-7","sec":"PPD","direction":"credit","description":"PAYROLL","day":"2025-01-15","entries":[{"routing":"091000019","account":"123456789","kind":"checking","cents":700,"id":"E7","name":"ANN LEE"}]}"#;

/// A company and then another are registered, and a credit of each is held.
const HELD: &[Exchange] = &[
    HOLIDAYS,
    MILL,
    (
        "desk GET /ops/companies",
        "",
        "409 Conflict",
        r#"{"error":"NoDay","number":1}"#,
    ),
    DAY_8,
    (
        "desk GET /ops/companies",
        "",
        "200 OK",
        r#"{"companies":[{"credit":"0","credit_limit":999999999999999,"debit":"0","debit_limit":999999999999999,"entry_limit":9999999999,"id":"MILL01","name":"MILL STREET","rates":{"administrative":{"d":0,"n":0,"over":false},"overall":{"d":0,"n":0,"over":false},"unauthorized":{"d":0,"n":0,"over":false}}}],"day":"2025-01-08"}"#,
    ),
    BAKE,
    SUBMIT_1,
    (
        "BAKE01 POST /c/BAKE01/submissions",
        PAY_7,
        "201 Created",
        r#"{"cents":700,"entries":1,"order":1,"ref":"PAY-7"}"#,
    ),
    (
        "desk GET /ops/companies",
        "",
        "200 OK",
        r#"{"companies":[{"credit":"700","credit_limit":999999999999999,"debit":"0","debit_limit":999999999999999,"entry_limit":9999999999,"id":"BAKE01","name":"BAKERY","rates":{"administrative":{"d":0,"n":0,"over":false},"overall":{"d":0,"n":0,"over":false},"unauthorized":{"d":0,"n":0,"over":false}}},{"credit":"150000","credit_limit":999999999999999,"debit":"0","debit_limit":999999999999999,"entry_limit":9999999999,"id":"MILL01","name":"MILL STREET","rates":{"administrative":{"d":0,"n":0,"over":false},"overall":{"d":0,"n":0,"over":false},"unauthorized":{"d":0,"n":0,"over":false}}}],"day":"2025-01-08"}"#,
    ),
];

/// The first company's two submissions are sent, and the other's, for the 15th, is still held. The other
/// company gets new limits, one of them below what is held.
const SENT: &[Exchange] = &[
    (
        "desk POST /ops/cut",
        "",
        "200 OK",
        r#"{"day":"2025-01-08","entries":1,"files":["A"],"lapsed":0}"#,
    ),
    (
        "MILL01 POST /c/MILL01/submissions",
        PAY_2,
        "201 Created",
        r#"{"cents":2500,"entries":1,"order":2,"ref":"PAY-2"}"#,
    ),
    DAY_9,
    CUT_9,
    (
        "desk POST /ops/limits",
        r#"{"id":"BAKE01","entry_limit":1,"credit_limit":20,"debit_limit":0}"#,
        "200 OK",
        r#"{"id":"BAKE01"}"#,
    ),
    (
        "desk GET /ops/companies?all",
        "",
        "200 OK",
        r#"{"companies":[{"credit":"700","credit_limit":20,"debit":"0","debit_limit":0,"entry_limit":1,"id":"BAKE01","name":"BAKERY","rates":{"administrative":{"d":0,"n":0,"over":false},"overall":{"d":0,"n":0,"over":false},"unauthorized":{"d":0,"n":0,"over":false}}},{"credit":"150000","credit_limit":999999999999999,"debit":"2500","debit_limit":999999999999999,"entry_limit":9999999999,"id":"MILL01","name":"MILL STREET","rates":{"administrative":{"d":0,"n":0,"over":false},"overall":{"d":0,"n":0,"over":false},"unauthorized":{"d":0,"n":0,"over":false}}}],"day":"2025-01-09"}"#,
    ),
];

// The list after the return.
const LIST_14: Exchange = (
    "desk GET /ops/companies",
    "",
    "200 OK",
    r#"{"companies":[{"credit":"700","credit_limit":20,"debit":"0","debit_limit":0,"entry_limit":1,"id":"BAKE01","name":"BAKERY","rates":{"administrative":{"d":0,"n":0,"over":false},"overall":{"d":0,"n":0,"over":false},"unauthorized":{"d":0,"n":0,"over":false}}},{"credit":"0","credit_limit":999999999999999,"debit":"0","debit_limit":999999999999999,"entry_limit":9999999999,"id":"MILL01","name":"MILL STREET","rates":{"administrative":{"d":1,"n":0,"over":false},"overall":{"d":1,"n":1,"over":true},"unauthorized":{"d":1,"n":0,"over":false}}}],"day":"2025-01-14"}"#,
);

/// What settled on the 10th is exposed through the 10th if it is a credit, and through the 14th or its
/// return if it is a debit.
const RETURNED: &[Exchange] = &[
    DAY_14,
    (
        "desk GET /ops/companies",
        "",
        "200 OK",
        r#"{"companies":[{"credit":"700","credit_limit":20,"debit":"0","debit_limit":0,"entry_limit":1,"id":"BAKE01","name":"BAKERY","rates":{"administrative":{"d":0,"n":0,"over":false},"overall":{"d":0,"n":0,"over":false},"unauthorized":{"d":0,"n":0,"over":false}}},{"credit":"0","credit_limit":999999999999999,"debit":"2500","debit_limit":999999999999999,"entry_limit":9999999999,"id":"MILL01","name":"MILL STREET","rates":{"administrative":{"d":1,"n":0,"over":false},"overall":{"d":1,"n":0,"over":false},"unauthorized":{"d":1,"n":0,"over":false}}}],"day":"2025-01-14"}"#,
    ),
    ("desk POST /ops/returns", RETURN_2, "200 OK", TAKEN),
    LIST_14,
    (
        "MILL01 GET /c/MILL01/exposure",
        "",
        "200 OK",
        r#"{"credit":"0","credit_limit":999999999999999,"day":"2025-01-14","debit":"0","debit_limit":999999999999999,"entry_limit":9999999999}"#,
    ),
    (
        "MILL01 GET /c/MILL01/rates",
        "",
        "200 OK",
        r#"{"administrative":{"d":1,"n":0,"over":false},"day":"2025-01-14","overall":{"d":1,"n":1,"over":true},"unauthorized":{"d":1,"n":0,"over":false}}"#,
    ),
];

/// The list is asked for once more.
const AGAIN: &[Exchange] = &[LIST_14];

// Each part, with its day as the answers have it.
const PARTS: &[Script] = &[
    (r#""day":"2025-01-08","#, HELD),
    (r#""day":"2025-01-09","#, SENT),
    (r#""day":"2025-01-14","#, RETURNED),
    (r#""day":"2025-01-14","#, AGAIN),
];

// Follows a part, and compares the list after it with the companies' own reads.
fn follow_part<S: Store>(
    rt: &(impl Abort + Alloc<A = Global>),
    desk: &mut HttpDesk<S>,
    day: &str,
    exchanges: &[Exchange],
) {
    follow(rt, desk, day, exchanges);
    let own = own_list(rt, desk, day);
    let list = body_of(rt, desk, "desk GET /ops/companies");
    assert!(rt; list.as_str() == own.as_str(), "{day}");
}

// Follows all parts.
fn follow_parts<S: Store + Drop>(rt: &(impl Abort + Alloc<A = Global>), store: S) {
    let mut desk = http_desk(rt, store);
    for (day, exchanges) in PARTS {
        follow_part(rt, &mut desk, day, exchanges);
    }
}

#[test]
fn the_operator_reads_all_companies(rt: HostRuntime) {
    follow_parts(&rt, new_lists(&rt));
    follow_parts(&rt, new_tables(&rt));
    follow_parts(&rt, Remembering::new(rt.alloc(), new_lists(&rt)));
    follow_parts(&rt, Remembering::new(rt.alloc(), new_tables(&rt)));
}

// Follows a part over a store that remembers nothing yet. Returns the store inside.
fn follow_anew<S: Store + Drop>(
    rt: &(impl Abort + Alloc<A = Global>),
    store: S,
    day: &str,
    exchanges: &[Exchange],
) -> S {
    let mut desk = http_desk(rt, Remembering::new(rt.alloc(), store));
    follow_part(rt, &mut desk, day, exchanges);
    desk.into_desk().into_store().into_inner()
}

// Follows all parts, with a restart before each.
fn follow_restarted<S: Store + Drop>(rt: &(impl Abort + Alloc<A = Global>), store: S) {
    let mut store = store;
    for (day, exchanges) in PARTS {
        store = follow_anew(rt, store, day, exchanges);
    }
}

#[test]
fn the_operator_reads_all_companies_after_restarts(rt: HostRuntime) {
    follow_restarted(&rt, new_lists(&rt));
    follow_restarted(&rt, new_tables(&rt));
}

const DENIED: &str = r#"{"error":"Denied"}"#;

const SCRIPTS: &[Script] = &[
    (
        "a desk without companies has no rows",
        &[
            DAY_8,
            (
                "desk GET /ops/companies",
                "",
                "200 OK",
                r#"{"companies":[],"day":"2025-01-08"}"#,
            ),
        ],
    ),
    (
        "the operator alone reads all companies, and only by GET",
        &[
            MILL,
            DAY_8,
            ("MILL01 GET /ops/companies", "", "403 Forbidden", DENIED),
            ("wrong-key GET /ops/companies", "", "403 Forbidden", DENIED),
            (
                "desk PUT /ops/companies",
                "",
                "405 Method Not Allowed",
                r#"{"error":"BadMethod"}"#,
            ),
        ],
    ),
];

#[test]
fn only_the_operator_reads_all_companies(rt: HostRuntime) {
    all_hold(&rt, SCRIPTS);
}
