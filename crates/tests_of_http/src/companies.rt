//! Requests of companies, and their answers.
use crate::exchanges::all_hold;
use crate::samples::{
    BAKE, CUT_9, DAY_8, DAY_9, DAY_14, HOLIDAYS, MILL, PAY_1, PAY_1_ACCEPTED, RETURN_1_TAKEN,
    SUBMIT_1, SUBMIT_2, Script,
};

const PAY_1_OF_150001: &str =
    r#"{"ref":"PAY-1","sec":"PPD","direction":"credit","description":"PAYROLL","day":"2025-01-10","entries":[{"routing":"091000019","account":"123456789","kind":"checking","cents":150001,"id":"E1","name":"ANN LEE"}]}"#;

/// Scripts by what they try.
const SCRIPTS: &[Script] = &[
    (
        "a submission is accepted and found",
        &[
            HOLIDAYS,
            MILL,
            DAY_8,
            SUBMIT_1,
            (
                "MILL01 GET /c/MILL01/submissions/PAY-1",
                "",
                "200 OK",
                r#"{"cents":150000,"day":"2025-01-10","direction":"credit","entries":[{"cents":150000,"index":1,"state":"held"}],"order":1,"ref":"PAY-1","sec":"PPD"}"#,
            ),
        ],
    ),
    (
        "a submission that comes again is answered as before",
        &[
            HOLIDAYS,
            MILL,
            DAY_8,
            SUBMIT_1,
            SUBMIT_1,
            (
                "MILL01 POST /c/MILL01/submissions",
                PAY_1_OF_150001,
                "409 Conflict",
                r#"{"error":"RefReused","number":3}"#,
            ),
            (
                "MILL01 GET /c/MILL01/exposure",
                "",
                "200 OK",
                r#"{"credit":"150000","credit_limit":999999999999999,"day":"2025-01-08","debit":"0","debit_limit":999999999999999,"entry_limit":9999999999}"#,
            ),
        ],
    ),
    (
        "each company has its own references",
        &[
            HOLIDAYS,
            MILL,
            BAKE,
            DAY_8,
            SUBMIT_1,
            (
                "BAKE01 POST /c/BAKE01/submissions",
                PAY_1_OF_150001,
                "201 Created",
                r#"{"cents":150001,"entries":1,"order":1,"ref":"PAY-1"}"#,
            ),
            (
                "BAKE01 GET /c/BAKE01/submissions/PAY-1",
                "",
                "200 OK",
                r#"{"cents":150001,"day":"2025-01-10","direction":"credit","entries":[{"cents":150001,"index":1,"state":"held"}],"order":1,"ref":"PAY-1","sec":"PPD"}"#,
            ),
            (
                "MILL01 POST /c/MILL01/submissions",
                PAY_1,
                "201 Created",
                PAY_1_ACCEPTED,
            ),
        ],
    ),
    (
        "a return is told once",
        &[
            HOLIDAYS,
            MILL,
            DAY_8,
            SUBMIT_2,
            DAY_9,
            CUT_9,
            DAY_14,
            RETURN_1_TAKEN,
            RETURN_1_TAKEN,
            (
                "MILL01 GET /c/MILL01/returns",
                "",
                "200 OK",
                r#"{"returns":[{"code":"R01","day":"2025-01-14","index":1,"info":"","late":false,"ref":"PAY-2"}]}"#,
            ),
            (
                "MILL01 GET /c/MILL01/submissions/PAY-2",
                "",
                "200 OK",
                r#"{"cents":2500,"day":"2025-01-10","direction":"debit","entries":[{"cents":2500,"code":"R01","index":1,"late":false,"returned":"2025-01-14","settled":"2025-01-10","state":"returned"}],"order":1,"ref":"PAY-2","sec":"PPD"}"#,
            ),
            (
                "MILL01 GET /c/MILL01/changes",
                "",
                "200 OK",
                r#"{"changes":[]}"#,
            ),
            (
                "MILL01 GET /c/MILL01/rates",
                "",
                "200 OK",
                r#"{"administrative":{"d":1,"n":0,"over":false},"day":"2025-01-14","overall":{"d":1,"n":1,"over":true},"unauthorized":{"d":1,"n":0,"over":false}}"#,
            ),
            ("desk GET /ops/suspense", "", "200 OK", r#"{"items":[]}"#),
        ],
    ),
];

#[test]
fn what_companies_are_told(rt: HostRuntime) {
    all_hold(&rt, SCRIPTS);
}
