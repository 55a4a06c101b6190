//! The messages of some days, with their answers.

/// The status and the body of an answer.
pub(crate) type Answer = (&'static str, &'static str);

/// A message with its answer.
#[derive(Clone, Copy)]
pub(crate) struct Exchange {
    pub key: &'static str,
    /// The method and the path.
    pub asks: &'static str,
    pub body: &'static str,
    pub answer: Answer,
    /// The answer where it was done already, and comes again before any other message.
    pub again: Answer,
}

/// Messages that are sent one after another.
#[derive(Clone, Copy)]
pub(crate) struct Script {
    pub messages: &'static [Exchange],
    /// The messages that submit something that is accepted; they get their first answer whenever
    /// they are repeated.
    pub accepted: &'static [Exchange],
    /// The number of messages that change a table.
    pub changes: usize,
}

const DESK: &str = "operator-key";

const MILL: &str = "mill-street-key";

const PAY_1: &str =
    r#"{"ref":"PAY-1","sec":"PPD","direction":"credit","description":"PAYROLL","day":"2025-01-10","entries":[{"routing":"091000019","account":"123456789","kind":"checking","cents":150000,"id":"E1","name":"ANN LEE"}]}"#;

const PAY_2: &str =
    r#"{"ref":"PAY-2","sec":"PPD","direction":"debit","description":"DUES","day":"2025-01-10","entries":[{"routing":"091000019","account":"123456789","kind":"checking","cents":2500,"id":"E2","name":"BOB RAY"}]}"#;

/// The debit that was sent second is returned for lack of funds.
const RETURN_2: &str = concat!(
    "101 121042882 0610001462501140930A094101OUR BANK               ACH OPERATOR                   \n",
    "5225MILL STREET                         MILL01    PPDDUES            2501140141091000010000001\n",
    "626121042882123456789        0000002500E2             BOB RAY                 1091000010000007\n",
    "799R01121042880000002      09100001                                            091000010000007\n",
    "82250000020012104288000000002500000000000000MILL01                             091000010000001\n",
    "9000001000001000000020012104288000000002500000000000000                                       \n",
    "9999999999999999999999999999999999999999999999999999999999999999999999999999999999999999999999\n",
    "9999999999999999999999999999999999999999999999999999999999999999999999999999999999999999999999\n",
    "9999999999999999999999999999999999999999999999999999999999999999999999999999999999999999999999\n",
    "9999999999999999999999999999999999999999999999999999999999999999999999999999999999999999999999\n",
);

/// The debit that was sent first is returned because its payment was stopped.
const STOPPED_1: &str = concat!(
    "101 121042882 0610001462501140930A094101OUR BANK               ACH OPERATOR                   \n",
    "5225MILL STREET                         MILL01    PPDDUES            2501140141091000010000001\n",
    "626121042882123456789        0000002500E2             BOB RAY                 1091000010000007\n",
    "799R08121042880000001      09100001                                            091000010000007\n",
    "82250000020012104288000000002500000000000000MILL01                             091000010000001\n",
    "9000001000001000000020012104288000000002500000000000000                                       \n",
    "9999999999999999999999999999999999999999999999999999999999999999999999999999999999999999999999\n",
    "9999999999999999999999999999999999999999999999999999999999999999999999999999999999999999999999\n",
    "9999999999999999999999999999999999999999999999999999999999999999999999999999999999999999999999\n",
    "9999999999999999999999999999999999999999999999999999999999999999999999999999999999999999999999\n",
);

const TAKEN: &str = r#"{"changes":0,"day":"2025-01-14","late":0,"returns":1,"suspense":0}"#;

const DAY_NOT_LATER: &str = r#"{"error":"DayNotLater","number":20}"#;

const NOT_RETRYABLE: &str = r#"{"code":"R08","error":"NotRetryable","number":12}"#;

const HOLIDAYS: Exchange = Exchange {
    key: DESK,
    asks: "POST /ops/holidays",
    body: "2025-01-20\n",
    answer: ("200 OK", r#"{"holidays":1}"#),
    again: ("200 OK", r#"{"holidays":1}"#),
};

const COMPANY: Exchange = Exchange {
    key: DESK,
    asks: "POST /ops/companies",
    body: r#"{"id":"MILL01","name":"MILL STREET","key":"mill-street-key","entry_limit":9999999999,"credit_limit":999999999999999,"debit_limit":999999999999999}"#,
    answer: ("201 Created", r#"{"id":"MILL01"}"#),
    again: ("409 Conflict", r#"{"error":"CompanyExists","number":22}"#),
};

const DAY_8: Exchange = Exchange {
    key: DESK,
    asks: "POST /ops/day",
    body: r#"{"day":"2025-01-08"}"#,
    answer: ("200 OK", r#"{"day":"2025-01-08"}"#),
    again: ("409 Conflict", DAY_NOT_LATER),
};

const DAY_9: Exchange = Exchange {
    key: DESK,
    asks: "POST /ops/day",
    body: r#"{"day":"2025-01-09"}"#,
    answer: ("200 OK", r#"{"day":"2025-01-09"}"#),
    again: ("409 Conflict", DAY_NOT_LATER),
};

const DAY_14: Exchange = Exchange {
    key: DESK,
    asks: "POST /ops/day",
    body: r#"{"day":"2025-01-14"}"#,
    answer: ("200 OK", r#"{"day":"2025-01-14"}"#),
    again: ("409 Conflict", DAY_NOT_LATER),
};

const DAY_15: Exchange = Exchange {
    key: DESK,
    asks: "POST /ops/day",
    body: r#"{"day":"2025-01-15"}"#,
    answer: ("200 OK", r#"{"day":"2025-01-15"}"#),
    again: ("409 Conflict", DAY_NOT_LATER),
};

const CUT_8: Exchange = Exchange {
    key: DESK,
    asks: "POST /ops/cut",
    body: "",
    answer: (
        "200 OK",
        r#"{"day":"2025-01-08","entries":1,"files":["A"],"lapsed":0}"#,
    ),
    again: (
        "200 OK",
        r#"{"day":"2025-01-08","entries":0,"files":[],"lapsed":0}"#,
    ),
};

const CUT_9: Exchange = Exchange {
    key: DESK,
    asks: "POST /ops/cut",
    body: "",
    answer: (
        "200 OK",
        r#"{"day":"2025-01-09","entries":1,"files":["A"],"lapsed":0}"#,
    ),
    again: (
        "200 OK",
        r#"{"day":"2025-01-09","entries":0,"files":[],"lapsed":0}"#,
    ),
};

const CREDIT: Exchange = Exchange {
    key: MILL,
    asks: "POST /c/MILL01/submissions",
    body: PAY_1,
    answer: (
        "201 Created",
        r#"{"cents":150000,"entries":1,"order":1,"ref":"PAY-1"}"#,
    ),
    again: (
        "201 Created",
        r#"{"cents":150000,"entries":1,"order":1,"ref":"PAY-1"}"#,
    ),
};

const SECOND_DEBIT: Exchange = Exchange {
    key: MILL,
    asks: "POST /c/MILL01/submissions",
    body: PAY_2,
    answer: (
        "201 Created",
        r#"{"cents":2500,"entries":1,"order":2,"ref":"PAY-2"}"#,
    ),
    again: (
        "201 Created",
        r#"{"cents":2500,"entries":1,"order":2,"ref":"PAY-2"}"#,
    ),
};

const FIRST_DEBIT: Exchange = Exchange {
    key: MILL,
    asks: "POST /c/MILL01/submissions",
    body: PAY_2,
    answer: (
        "201 Created",
        r#"{"cents":2500,"entries":1,"order":1,"ref":"PAY-2"}"#,
    ),
    again: (
        "201 Created",
        r#"{"cents":2500,"entries":1,"order":1,"ref":"PAY-2"}"#,
    ),
};

const SECOND_RETURNED: Exchange = Exchange {
    key: DESK,
    asks: "POST /ops/returns",
    body: RETURN_2,
    answer: ("200 OK", TAKEN),
    again: ("200 OK", TAKEN),
};

const FIRST_STOPPED: Exchange = Exchange {
    key: DESK,
    asks: "POST /ops/returns",
    body: STOPPED_1,
    answer: ("200 OK", TAKEN),
    again: ("200 OK", TAKEN),
};

const STATEMENT: Exchange = Exchange {
    key: MILL,
    asks: "GET /c/MILL01/statement",
    body: "",
    answer: (
        "200 OK",
        r#"{"balance":"-150000","day":"2025-01-14","lines":[{"cause":"cut","cents":-150000,"day":"2025-01-10","index":0,"ref":"PAY-1"},{"cause":"cut","cents":2500,"day":"2025-01-10","index":0,"ref":"PAY-2"},{"cause":"return","cents":-2500,"day":"2025-01-14","index":1,"ref":"PAY-2"}]}"#,
    ),
    again: (
        "200 OK",
        r#"{"balance":"-150000","day":"2025-01-14","lines":[{"cause":"cut","cents":-150000,"day":"2025-01-10","index":0,"ref":"PAY-1"},{"cause":"cut","cents":2500,"day":"2025-01-10","index":0,"ref":"PAY-2"},{"cause":"return","cents":-2500,"day":"2025-01-14","index":1,"ref":"PAY-2"}]}"#,
    ),
};

const SETTLEMENT: Exchange = Exchange {
    key: DESK,
    asks: "GET /ops/settlement",
    body: "",
    answer: (
        "200 OK",
        r#"{"balance":"150000","day":"2025-01-14","days":[{"cents":"147500","day":"2025-01-10"},{"cents":"2500","day":"2025-01-14"}]}"#,
    ),
    again: (
        "200 OK",
        r#"{"balance":"150000","day":"2025-01-14","days":[{"cents":"147500","day":"2025-01-10"},{"cents":"2500","day":"2025-01-14"}]}"#,
    ),
};

/// It was not authorized.
const RETRY_UNAUTHORIZED: Exchange = Exchange {
    key: MILL,
    asks: "POST /c/MILL01/retries",
    body: r#"{"ref":"RT-1","of":"PAY-2","index":1,"day":"2025-01-22"}"#,
    answer: ("409 Conflict", NOT_RETRYABLE),
    again: ("409 Conflict", NOT_RETRYABLE),
};

/// It was authorized before the debit was returned.
const RETRY_AUTHORIZED_BEFORE: Exchange = Exchange {
    key: MILL,
    asks: "POST /c/MILL01/retries",
    body: r#"{"ref":"RT-1","of":"PAY-2","index":1,"day":"2025-01-22","authorized":"2025-01-13"}"#,
    answer: ("409 Conflict", NOT_RETRYABLE),
    again: ("409 Conflict", NOT_RETRYABLE),
};

/// It was authorized on a day to come.
const RETRY_AUTHORIZED_LATER: Exchange = Exchange {
    key: MILL,
    asks: "POST /c/MILL01/retries",
    body: r#"{"ref":"RT-1","of":"PAY-2","index":1,"day":"2025-01-22","authorized":"2025-01-16"}"#,
    answer: ("409 Conflict", NOT_RETRYABLE),
    again: ("409 Conflict", NOT_RETRYABLE),
};

const RETRY: Exchange = Exchange {
    key: MILL,
    asks: "POST /c/MILL01/retries",
    body: r#"{"ref":"RT-1","of":"PAY-2","index":1,"day":"2025-01-22","authorized":"2025-01-14"}"#,
    answer: (
        "201 Created",
        r#"{"cents":2500,"entries":1,"order":2,"ref":"RT-1"}"#,
    ),
    again: (
        "201 Created",
        r#"{"cents":2500,"entries":1,"order":2,"ref":"RT-1"}"#,
    ),
};

/// It was authorized on another day.
const RETRY_REUSED: Exchange = Exchange {
    key: MILL,
    asks: "POST /c/MILL01/retries",
    body: r#"{"ref":"RT-1","of":"PAY-2","index":1,"day":"2025-01-22","authorized":"2025-01-15"}"#,
    answer: ("409 Conflict", r#"{"error":"RefReused","number":3}"#),
    again: ("409 Conflict", r#"{"error":"RefReused","number":3}"#),
};

/// A credit and a debit are sent, the debit is returned, and the accounts are read.
pub(crate) const DAYS: Script = Script {
    messages: &[
        HOLIDAYS,
        COMPANY,
        DAY_8,
        CREDIT,
        CUT_8,
        SECOND_DEBIT,
        DAY_9,
        CUT_9,
        DAY_14,
        SECOND_RETURNED,
        STATEMENT,
        SETTLEMENT,
    ],
    accepted: &[CREDIT, SECOND_DEBIT, SECOND_RETURNED],
    changes: 10,
};

/// A debit is returned because its payment was stopped, and is retried once that was authorized.
pub(super) const RETRIES: Script = Script {
    messages: &[
        HOLIDAYS,
        COMPANY,
        DAY_8,
        FIRST_DEBIT,
        DAY_9,
        CUT_9,
        DAY_14,
        FIRST_STOPPED,
        DAY_15,
        RETRY_UNAUTHORIZED,
        RETRY_AUTHORIZED_BEFORE,
        RETRY_AUTHORIZED_LATER,
        RETRY,
        RETRY_REUSED,
    ],
    accepted: &[FIRST_DEBIT, FIRST_STOPPED, RETRY],
    changes: 10,
};
