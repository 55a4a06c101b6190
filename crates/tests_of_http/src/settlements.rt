//! A bank's days: cuts, returns, and the accounts.
use crate::exchanges::holds;
use crate::samples::{
    CUT_9, DAY_8, DAY_9, DAY_14, Exchange, HOLIDAYS, MILL, PAY_2, SUBMIT_1, TAKEN,
};

/// The return of the second entry that the desk sent.
pub(crate) const RETURN_2: &str = concat!(
    "101 121042882 0610001462501140930A094101OUR BANK               ACH OPERATOR                   \n",
    "5225MILL STREET                         MILL01    PPDDUES            2501140141091000010000001\n",
    "626121042882123456789        0000002500E2             BOB RAY                 1091000010000007\n",
    "799R01121042880000002      09100001                                            091000010000007\n",
    "82250000020012104288000000002500000000000000MILL01                             091000010000001\n",
    "9000001000001000000020012104288000000002500000000000000                                       \n",
    "9999999999999999999999999999999999999999999999999999999999999999999999999999999999999999999999\n",
    "9999999999999999999999999999999999999999999999999999999999999999999999999999999999999999999999\n",
    "9999999999999999999999999999999999999999999999999999999999999999999999999999999999999999999999\n",
    "9999999999999999999999999999999999999999999999999999999999999999999999999999999999999999999999\n",
);

/// The file of the first cut.
const FILE_A: &str = concat!(
    "101 061000146 121042882250108    A094101ACH OPERATOR           OUR BANK                       \n",
    "5220MILL STREET                         MILL01    PPDPAYROLL         250110   1121042880000001\n",
    "622091000019123456789        0000150000E1             ANN LEE                 0121042880000001\n",
    "82200000010009100001000000000000000000150000MILL01                             121042880000001\n",
    "9000001000001000000010009100001000000000000000000150000                                       \n",
    "9999999999999999999999999999999999999999999999999999999999999999999999999999999999999999999999\n",
    "9999999999999999999999999999999999999999999999999999999999999999999999999999999999999999999999\n",
    "9999999999999999999999999999999999999999999999999999999999999999999999999999999999999999999999\n",
    "9999999999999999999999999999999999999999999999999999999999999999999999999999999999999999999999\n",
    "9999999999999999999999999999999999999999999999999999999999999999999999999999999999999999999999\n",
);

/// A credit and a debit are sent, and the debit is returned.
pub(crate) const DAYS: &[Exchange] = &[
    HOLIDAYS,
    MILL,
    DAY_8,
    SUBMIT_1,
    (
        "desk POST /ops/cut",
        "",
        "200 OK",
        r#"{"day":"2025-01-08","entries":1,"files":["A"],"lapsed":0}"#,
    ),
    ("desk GET /ops/files/2025-01-08/A", "", "200 OK", FILE_A),
    (
        "MILL01 POST /c/MILL01/submissions",
        PAY_2,
        "201 Created",
        r#"{"cents":2500,"entries":1,"order":2,"ref":"PAY-2"}"#,
    ),
    DAY_9,
    CUT_9,
    DAY_14,
    ("desk POST /ops/returns", RETURN_2, "200 OK", TAKEN),
    (
        "MILL01 GET /c/MILL01/statement",
        "",
        "200 OK",
        r#"{"balance":"-150000","day":"2025-01-14","lines":[{"cause":"cut","cents":-150000,"day":"2025-01-10","index":0,"ref":"PAY-1"},{"cause":"cut","cents":2500,"day":"2025-01-10","index":0,"ref":"PAY-2"},{"cause":"return","cents":-2500,"day":"2025-01-14","index":1,"ref":"PAY-2"}]}"#,
    ),
    (
        "desk GET /ops/settlement",
        "",
        "200 OK",
        r#"{"balance":"150000","day":"2025-01-14","days":[{"cents":"147500","day":"2025-01-10"},{"cents":"2500","day":"2025-01-14"}]}"#,
    ),
    (
        "desk GET /ops/companies",
        "",
        "200 OK",
        r#"{"companies":[{"credit":"0","credit_limit":999999999999999,"debit":"0","debit_limit":999999999999999,"entry_limit":9999999999,"id":"MILL01","name":"MILL STREET","rates":{"administrative":{"d":1,"n":0,"over":false},"overall":{"d":1,"n":1,"over":true},"unauthorized":{"d":1,"n":0,"over":false}}}],"day":"2025-01-14"}"#,
    ),
];

#[test]
fn what_was_sent_and_came_back_is_in_the_accounts(rt: HostRuntime) {
    holds(&rt, "days", DAYS);
}
