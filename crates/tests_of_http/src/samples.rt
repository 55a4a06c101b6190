//! The sample bank, its companies, their submissions, and files of returns.
use ach_fields::Routing;
use desk_core::{Identity, ListStore, PartyName};
use sha2::{Digest, Sha256};
use sql_store::SqlStore;
use sqlite::MemStore;
use std::alloc::Global;
use std::process::Abort;

/// A message with its answer: who asks, with which method and path; the body; the status; the answer's
/// body.
pub(crate) type Exchange = (&'static str, &'static str, &'static str, &'static str);

/// A script has a name, and exchanges that follow one another.
pub(crate) type Script = (&'static str, &'static [Exchange]);

pub(crate) const PAY_1: &str =
    r#"{"ref":"PAY-1","sec":"PPD","direction":"credit","description":"PAYROLL","day":"2025-01-10","entries":[{"routing":"091000019","account":"123456789","kind":"checking","cents":150000,"id":"E1","name":"ANN LEE"}]}"#;

pub(crate) const PAY_2: &str =
    r#"{"ref":"PAY-2","sec":"PPD","direction":"debit","description":"DUES","day":"2025-01-10","entries":[{"routing":"091000019","account":"123456789","kind":"checking","cents":2500,"id":"E2","name":"BOB RAY"}]}"#;

pub(crate) const PAY_1_ACCEPTED: &str = r#"{"cents":150000,"entries":1,"order":1,"ref":"PAY-1"}"#;

pub(crate) const HOLIDAYS: Exchange = (
    "desk POST /ops/holidays",
    "2025-01-20\n",
    "200 OK",
    r#"{"holidays":1}"#,
);

pub(crate) const MILL: Exchange = (
    "desk POST /ops/companies",
    r#"{"id":"MILL01","name":"MILL STREET","key":"mill-street-key","entry_limit":9999999999,"credit_limit":999999999999999,"debit_limit":999999999999999}"#,
    "201 Created",
    r#"{"id":"MILL01"}"#,
);

pub(crate) const BAKE: Exchange = (
    "desk POST /ops/companies",
    r#"{"id":"BAKE01","name":"BAKERY","key":"bakery-key","entry_limit":9999999999,"credit_limit":999999999999999,"debit_limit":999999999999999}"#,
    "201 Created",
    r#"{"id":"BAKE01"}"#,
);

pub(crate) const DAY_8: Exchange = (
    "desk POST /ops/day",
    r#"{"day":"2025-01-08"}"#,
    "200 OK",
    r#"{"day":"2025-01-08"}"#,
);

pub(crate) const DAY_9: Exchange = (
    "desk POST /ops/day",
    r#"{"day":"2025-01-09"}"#,
    "200 OK",
    r#"{"day":"2025-01-09"}"#,
);

pub(crate) const DAY_14: Exchange = (
    "desk POST /ops/day",
    r#"{"day":"2025-01-14"}"#,
    "200 OK",
    r#"{"day":"2025-01-14"}"#,
);

pub(crate) const SUBMIT_1: Exchange = (
    "MILL01 POST /c/MILL01/submissions",
    PAY_1,
    "201 Created",
    PAY_1_ACCEPTED,
);

/// The first submission of a desk.
pub(crate) const SUBMIT_2: Exchange = (
    "MILL01 POST /c/MILL01/submissions",
    PAY_2,
    "201 Created",
    r#"{"cents":2500,"entries":1,"order":1,"ref":"PAY-2"}"#,
);

/// The one return that a file has, of a debit that was sent with the first sequence.
pub(crate) const RETURN_1: &str = concat!(
    "101 121042882 0610001462501140930A094101OUR BANK               ACH OPERATOR                   \n",
    "5225MILL STREET                         MILL01    PPDDUES            2501140141091000010000001\n",
    "626121042882123456789        0000002500E2             BOB RAY                 1091000010000007\n",
    "799R01121042880000001      09100001                                            091000010000007\n",
    "82250000020012104288000000002500000000000000MILL01                             091000010000001\n",
    "9000001000001000000020012104288000000002500000000000000                                       \n",
    "9999999999999999999999999999999999999999999999999999999999999999999999999999999999999999999999\n",
    "9999999999999999999999999999999999999999999999999999999999999999999999999999999999999999999999\n",
    "9999999999999999999999999999999999999999999999999999999999999999999999999999999999999999999999\n",
    "9999999999999999999999999999999999999999999999999999999999999999999999999999999999999999999999\n",
);

pub(crate) const TAKEN: &str =
    r#"{"changes":0,"day":"2025-01-14","late":0,"returns":1,"suspense":0}"#;

pub(crate) const RETURN_1_TAKEN: Exchange = ("desk POST /ops/returns", RETURN_1, "200 OK", TAKEN);

/// One entry is sent on that day.
pub(crate) const CUT_9: Exchange = (
    "desk POST /ops/cut",
    "",
    "200 OK",
    r#"{"day":"2025-01-09","entries":1,"files":["A"],"lapsed":0}"#,
);

fn name(rt: &impl Abort, text: &[u8]) -> PartyName {
    PartyName::new(text).ok().expect(rt, "a name")
}

fn routing(rt: &impl Abort, text: &[u8]) -> Routing {
    Routing::parse(text).ok().expect(rt, "a routing number")
}

fn identity(rt: &impl Abort) -> Identity {
    Identity {
        odfi: routing(rt, b"121042882"),
        odfi_name: name(rt, b"OUR BANK"),
        destination: routing(rt, b"061000146"),
        destination_name: name(rt, b"ACH OPERATOR"),
    }
}

/// Makes a new store of the sample bank in lists, whose operator has the key `operator-key`.
pub(crate) fn new_lists(rt: &(impl Abort + Alloc<A = Global>)) -> ListStore {
    ListStore::new(rt.alloc(), identity(rt), Sha256::digest(b"operator-key"))
}

/// Makes the same store in tables.
pub(crate) fn new_tables(rt: &(impl Abort + Alloc<A = Global>)) -> SqlStore<MemStore> {
    SqlStore::in_memory(rt.alloc(), identity(rt), Sha256::digest(b"operator-key"))
        .ok()
        .expect(rt, "tables")
}
