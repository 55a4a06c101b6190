//! Messages that make no call, and the order of their faults.
use crate::exchanges::{LENGTH_REQUIRED, all_hold, http_desk, run};
use crate::samples::{DAY_8, HOLIDAYS, MILL, PAY_1, PAY_1_ACCEPTED, Script, new_lists};

const DENIED: &str = r#"{"error":"Denied"}"#;

/// An object with 130 lists, each inside the one before.
const NESTED: &str = concat!(
    r#"{"x":"#,
    "[[[[[[[[[[[[[[[[[[[[[[[[[[[[[[[[[[[[[[[[[[[[[[[[[[[[[[[[[[[[[[[[[",
    "[[[[[[[[[[[[[[[[[[[[[[[[[[[[[[[[[[[[[[[[[[[[[[[[[[[[[[[[[[[[[[[[[",
    "]]]]]]]]]]]]]]]]]]]]]]]]]]]]]]]]]]]]]]]]]]]]]]]]]]]]]]]]]]]]]]]]]",
    "]]]]]]]]]]]]]]]]]]]]]]]]]]]]]]]]]]]]]]]]]]]]]]]]]]]]]]]]]]]]]]]]]",
    "}",
);

/// Scripts by what they try.
const SCRIPTS: &[Script] = &[
    (
        "a wrong key and an unknown company are denied alike",
        &[
            MILL,
            ("wrong-key GET /c/MILL01/rates", "", "403 Forbidden", DENIED),
            ("BAKE01 GET /c/BAKE01/rates", "", "403 Forbidden", DENIED),
            (
                "mill-street-ke GET /c/MILL01/rates",
                "",
                "403 Forbidden",
                DENIED,
            ),
            ("MILL01 GET /c/mill01/rates", "", "403 Forbidden", DENIED),
            ("MILL01 GET /c/NO%20ID/rates", "", "403 Forbidden", DENIED),
            ("MILL01 POST /ops/cut", "", "403 Forbidden", DENIED),
            ("desk GET /c/MILL01/rates", "", "403 Forbidden", DENIED),
        ],
    ),
    (
        "the path is told before the method and that before the key",
        &[
            (
                "wrong-key GET /nowhere",
                "",
                "404 Not Found",
                r#"{"error":"NotFound"}"#,
            ),
            (
                "wrong-key PUT /ops/day",
                "",
                "405 Method Not Allowed",
                r#"{"error":"BadMethod"}"#,
            ),
            ("wrong-key POST /ops/day", "[]", "403 Forbidden", DENIED),
            (
                "desk POST /ops/day",
                "[]",
                "400 Bad Request",
                r#"{"error":"BadJson"}"#,
            ),
            (
                "desk POST /ops/day",
                "{",
                "400 Bad Request",
                r#"{"error":"BadJson"}"#,
            ),
            (
                "desk POST /ops/day",
                NESTED,
                "400 Bad Request",
                r#"{"error":"BadJson"}"#,
            ),
            (
                "desk POST /ops/day",
                "{}",
                "422 Unprocessable Entity",
                r#"{"error":"BadField","field":"day","index":0,"number":2}"#,
            ),
        ],
    ),
    (
        "what is not there is not found",
        &[
            MILL,
            (
                "MILL01 GET /c/MILL01/submissions/PAY-1",
                "",
                "404 Not Found",
                r#"{"error":"NoReference"}"#,
            ),
            (
                "MILL01 GET /c/MILL01/submissions/PAY$1",
                "",
                "404 Not Found",
                r#"{"error":"NoReference"}"#,
            ),
            (
                "desk GET /ops/files/2025-01-08/A",
                "",
                "404 Not Found",
                r#"{"error":"NoFile"}"#,
            ),
            (
                "desk GET /ops/files/2025-01-32/A",
                "",
                "404 Not Found",
                r#"{"error":"NoFile"}"#,
            ),
            (
                "desk GET /ops/files/2025-01-08/AB",
                "",
                "404 Not Found",
                r#"{"error":"NoFile"}"#,
            ),
            (
                "MILL01 GET /c/MILL01/exposure",
                "",
                "409 Conflict",
                r#"{"error":"NoDay","number":1}"#,
            ),
        ],
    ),
    (
        "a company that was refused may come again",
        &[
            HOLIDAYS,
            (
                "MILL01 POST /c/MILL01/submissions",
                PAY_1,
                "403 Forbidden",
                DENIED,
            ),
            MILL,
            (
                "MILL01 POST /c/MILL01/submissions",
                PAY_1,
                "409 Conflict",
                r#"{"error":"NoDay","number":1}"#,
            ),
            DAY_8,
            (
                "MILL01 POST /c/MILL01/submissions",
                PAY_1,
                "201 Created",
                PAY_1_ACCEPTED,
            ),
        ],
    ),
];

#[test]
fn messages_that_make_no_call(rt: HostRuntime) {
    all_hold(&rt, SCRIPTS);
}

/// Bytes that a session with a new desk reads, and what it writes before it ends.
const HEADS: &[(&str, &[u8], &[u8])] = &[
    (
        "no length: nothing behind it is read",
        b"POST /ops/day HTTP/1.1\r\nX-Desk-Key: operator-key\r\n\r\nGET /nowhere HTTP/1.1\r\n\r\n",
        LENGTH_REQUIRED,
    ),
    (
        "a length that is too large",
        b"POST /ops/returns HTTP/1.1\r\nContent-Length: 4194305\r\n\r\n",
        b"HTTP/1.1 413 Payload Too Large\r\nContent-Type: application/json\r\nContent-Length: 20\r\nConnection: close\r\n\r\n{\"error\":\"TooLarge\"}",
    ),
    (
        "a length that is no number",
        b"GET /nowhere HTTP/1.1\r\nContent-Length: +0\r\n\r\n",
        b"HTTP/1.1 400 Bad Request\r\nContent-Type: application/json\r\nContent-Length: 19\r\nConnection: close\r\n\r\n{\"error\":\"BadHead\"}",
    ),
    (
        "no key",
        b"GET /ops/suspense HTTP/1.1\r\nConnection: Close\r\n\r\n",
        b"HTTP/1.1 403 Forbidden\r\nContent-Type: application/json\r\nContent-Length: 18\r\nConnection: close\r\n\r\n{\"error\":\"Denied\"}",
    ),
    (
        "no key for what the operator alone reads",
        b"GET /ops/companies HTTP/1.1\r\nConnection: close\r\n\r\n",
        b"HTTP/1.1 403 Forbidden\r\nContent-Type: application/json\r\nContent-Length: 18\r\nConnection: close\r\n\r\n{\"error\":\"Denied\"}",
    ),
    (
        "the first of two keys, whose name has no case",
        b"GET /ops/suspense?all HTTP/1.0\r\nx-desk-KEY:  operator-key \r\nX-Desk-Key: other-key\r\n\r\n",
        b"HTTP/1.1 200 OK\r\nContent-Type: application/json\r\nContent-Length: 12\r\nConnection: close\r\n\r\n{\"items\":[]}",
    ),
];

#[test]
fn heads_that_end_the_session(rt: HostRuntime) {
    for (name, input, wanted) in HEADS {
        let out = run(&rt, &mut http_desk(&rt, new_lists(&rt)), input);
        assert!(rt; out.as_slice() == *wanted, "{name}");
    }
}
