//! These scripts try what the operator reads of all companies: their limits, exposures and return
//! rates. Each row is also compared with the company's own reads.
use super::own_reads::follow_with_own_reads;
use super::restarts::holds_restarted;
use super::script::{HOLIDAYS, Script, holds, holds_remembering, new_lists, new_tables};
use desk_core::Desk;
use std::alloc::Global;
use std::process::Abort;

const MILL: (&str, &str) = ("desk company MILL01 5000 20000 30000", "MILL01");

const BAKE: (&str, &str) = ("desk company BAKE01 6000 7000 8000", "BAKE01");

const ABLE: (&str, &str) = ("desk company ABLE01 100 200 300", "ABLE01");

// Submissions of the companies.
const D: (&str, &str) = (
    "MILL01 submit D debit 2025-01-17 091000019 2500 100 40",
    "D order 1 entries 3 cents 2640",
);

const C: (&str, &str) = (
    "MILL01 submit C credit 2025-01-17 091000019 700",
    "C order 2 entries 1 cents 700",
);

const E: (&str, &str) = (
    "BAKE01 submit E debit 2025-01-21 091000019 300 50",
    "E order 1 entries 2 cents 350",
);

const F: (&str, &str) = (
    "ABLE01 submit F debit 2025-01-17 091000019 11 13",
    "F order 1 entries 2 cents 24",
);

const SIXTEENTH: (&str, &str) = ("desk day 2025-01-16", "2025-01-16");

const SEVENTEENTH: (&str, &str) = ("desk day 2025-01-17", "2025-01-17");

const TWENTY_FIRST: (&str, &str) = ("desk day 2025-01-21", "2025-01-21");

const TWENTY_SECOND: (&str, &str) = ("desk day 2025-01-22", "2025-01-22");

const TWENTY_THIRD: (&str, &str) = ("desk day 2025-01-23", "2025-01-23");

// Another holiday, so that debits which settled on the 17th are exposed through the 23rd.
const MORE_HOLIDAYS: (&str, &str) = ("desk holidays 2025-01-20\n2025-01-22", "holidays 2");

// Runs a script over each store, with each call refused, and with a restart before each line.
fn holds_always(rt: &(impl Abort + Alloc<A = Global>), script: Script) {
    holds(rt, script);
    holds_remembering(rt, script);
    follow_with_own_reads(rt, &mut Desk::new(new_tables(rt)), script);
    follow_with_own_reads(rt, &mut Desk::new(new_lists(rt)), script);
    holds_restarted(rt, script);
}

// Two companies; the desk was asked about one of them. Sent entries settle on the 17th, and count in no
// rate before.
const HELD_AND_SENT: Script = &[
    ("desk companies", "NoDay"),
    HOLIDAYS,
    MILL,
    BAKE,
    ("desk companies", "NoDay"),
    SIXTEENTH,
    ("MILL01 exposure", "credit 0 of 20000, debit 0 of 30000"),
    (
        "desk companies",
        "2025-01-16; BAKE01 BAKERY, entry 6000, credit 0 of 7000, debit 0 of 8000, unauthorized 0 of 0, administrative 0 of 0, overall 0 of 0; MILL01 MILL STREET, entry 5000, credit 0 of 20000, debit 0 of 30000, unauthorized 0 of 0, administrative 0 of 0, overall 0 of 0",
    ),
    D,
    C,
    E,
    (
        "desk companies",
        "2025-01-16; BAKE01 BAKERY, entry 6000, credit 0 of 7000, debit 350 of 8000, unauthorized 0 of 0, administrative 0 of 0, overall 0 of 0; MILL01 MILL STREET, entry 5000, credit 700 of 20000, debit 2640 of 30000, unauthorized 0 of 0, administrative 0 of 0, overall 0 of 0",
    ),
    ("desk limits MILL01 4000 25000 2700", "MILL01"),
    (
        "desk companies",
        "2025-01-16; BAKE01 BAKERY, entry 6000, credit 0 of 7000, debit 350 of 8000, unauthorized 0 of 0, administrative 0 of 0, overall 0 of 0; MILL01 MILL STREET, entry 4000, credit 700 of 25000, debit 2640 of 2700, unauthorized 0 of 0, administrative 0 of 0, overall 0 of 0",
    ),
    ("desk cut", "2025-01-16 sent 4 in [A], lapsed 0"),
    (
        "desk companies",
        "2025-01-16; BAKE01 BAKERY, entry 6000, credit 0 of 7000, debit 350 of 8000, unauthorized 0 of 0, administrative 0 of 0, overall 0 of 0; MILL01 MILL STREET, entry 4000, credit 700 of 25000, debit 2640 of 2700, unauthorized 0 of 0, administrative 0 of 0, overall 0 of 0",
    ),
    SEVENTEENTH,
    (
        "desk companies",
        "2025-01-17; BAKE01 BAKERY, entry 6000, credit 0 of 7000, debit 350 of 8000, unauthorized 0 of 0, administrative 0 of 0, overall 0 of 0; MILL01 MILL STREET, entry 4000, credit 700 of 25000, debit 2640 of 2700, unauthorized 0 of 3, administrative 0 of 3, overall 0 of 3",
    ),
];

#[test]
fn all_companies_with_what_is_sent(rt: HostRuntime) {
    holds_always(&rt, HELD_AND_SENT);
}

// A returned credit counts in no rate. A credit that settled on the 17th is exposed through the 17th, and
// a debit through the 22nd, or the 23rd if the 22nd is a holiday too.
const RETURNED: Script = &[
    HOLIDAYS,
    MILL,
    BAKE,
    SIXTEENTH,
    D,
    C,
    ("desk cut", "2025-01-16 sent 4 in [A], lapsed 0"),
    SEVENTEENTH,
    E,
    ("desk cut", "2025-01-17 sent 2 in [A], lapsed 0"),
    TWENTY_FIRST,
    (
        "desk items A PPD R05/1/2500/26 R02/2/100/26 R01/4/700/21",
        "2025-01-21 returns 3 late 0 changes 0 suspense 0",
    ),
    (
        "desk companies",
        "2025-01-21; BAKE01 BAKERY, entry 6000, credit 0 of 7000, debit 350 of 8000, unauthorized 0 of 2, administrative 0 of 2, overall 0 of 2; MILL01 MILL STREET, entry 5000, credit 0 of 20000, debit 40 of 30000, unauthorized 1 of 3 over, administrative 1 of 3 over, overall 2 of 3 over",
    ),
    (
        "desk companies",
        "2025-01-21; BAKE01 BAKERY, entry 6000, credit 0 of 7000, debit 350 of 8000, unauthorized 0 of 2, administrative 0 of 2, overall 0 of 2; MILL01 MILL STREET, entry 5000, credit 0 of 20000, debit 40 of 30000, unauthorized 1 of 3 over, administrative 1 of 3 over, overall 2 of 3 over",
    ),
    // A third company, about which the desk was never asked.
    ("desk company ABLE01 1 2 3", "ABLE01"),
    TWENTY_SECOND,
    (
        "desk items B PPD R01/5/300/26",
        "2025-01-22 returns 1 late 0 changes 0 suspense 0",
    ),
    (
        "desk companies",
        "2025-01-22; ABLE01 ABLE TOOLS, entry 1, credit 0 of 2, debit 0 of 3, unauthorized 0 of 0, administrative 0 of 0, overall 0 of 0; BAKE01 BAKERY, entry 6000, credit 0 of 7000, debit 50 of 8000, unauthorized 0 of 2, administrative 0 of 2, overall 1 of 2 over; MILL01 MILL STREET, entry 5000, credit 0 of 20000, debit 40 of 30000, unauthorized 1 of 3 over, administrative 1 of 3 over, overall 2 of 3 over",
    ),
    TWENTY_THIRD,
    (
        "desk companies",
        "2025-01-23; ABLE01 ABLE TOOLS, entry 1, credit 0 of 2, debit 0 of 3, unauthorized 0 of 0, administrative 0 of 0, overall 0 of 0; BAKE01 BAKERY, entry 6000, credit 0 of 7000, debit 50 of 8000, unauthorized 0 of 2, administrative 0 of 2, overall 1 of 2 over; MILL01 MILL STREET, entry 5000, credit 0 of 20000, debit 0 of 30000, unauthorized 1 of 3 over, administrative 1 of 3 over, overall 2 of 3 over",
    ),
    MORE_HOLIDAYS,
    (
        "desk companies",
        "2025-01-23; ABLE01 ABLE TOOLS, entry 1, credit 0 of 2, debit 0 of 3, unauthorized 0 of 0, administrative 0 of 0, overall 0 of 0; BAKE01 BAKERY, entry 6000, credit 0 of 7000, debit 50 of 8000, unauthorized 0 of 2, administrative 0 of 2, overall 1 of 2 over; MILL01 MILL STREET, entry 5000, credit 0 of 20000, debit 40 of 30000, unauthorized 1 of 3 over, administrative 1 of 3 over, overall 2 of 3 over",
    ),
];

#[test]
fn all_companies_with_what_came_back(rt: HostRuntime) {
    holds_always(&rt, RETURNED);
}

// A retry that the cut of July 18 sent would settle on the 21st, 181 days after its original. It is
// exposed until that cut. A store that remembers reads both companies again on July 18, which is more
// than 30 days after it read them.
const LAPSED: Script = &[
    HOLIDAYS,
    MILL,
    BAKE,
    SEVENTEENTH,
    E,
    ("desk cut", "2025-01-17 sent 2 in [A], lapsed 0"),
    TWENTY_SECOND,
    (
        "desk items A PPD R01/1/300/26",
        "2025-01-22 returns 1 late 0 changes 0 suspense 0",
    ),
    (
        "BAKE01 retry RT E 1 2025-01-23",
        "RT order 2 entries 1 cents 300",
    ),
    (
        "desk companies",
        "2025-01-22; BAKE01 BAKERY, entry 6000, credit 0 of 7000, debit 350 of 8000, unauthorized 0 of 2, administrative 0 of 2, overall 1 of 2 over; MILL01 MILL STREET, entry 5000, credit 0 of 20000, debit 0 of 30000, unauthorized 0 of 0, administrative 0 of 0, overall 0 of 0",
    ),
    ("desk day 2025-07-18", "2025-07-18"),
    (
        "MILL01 submit V credit 2025-07-21 091000019 45",
        "V order 1 entries 1 cents 45",
    ),
    (
        "desk companies",
        "2025-07-18; BAKE01 BAKERY, entry 6000, credit 0 of 7000, debit 300 of 8000, unauthorized 0 of 0, administrative 0 of 0, overall 0 of 0; MILL01 MILL STREET, entry 5000, credit 45 of 20000, debit 0 of 30000, unauthorized 0 of 0, administrative 0 of 0, overall 0 of 0",
    ),
    ("desk cut", "2025-07-18 sent 1 in [A], lapsed 1"),
    (
        "desk companies",
        "2025-07-18; BAKE01 BAKERY, entry 6000, credit 0 of 7000, debit 0 of 8000, unauthorized 0 of 0, administrative 0 of 0, overall 0 of 0; MILL01 MILL STREET, entry 5000, credit 45 of 20000, debit 0 of 30000, unauthorized 0 of 0, administrative 0 of 0, overall 0 of 0",
    ),
];

#[test]
fn all_companies_after_a_retry_lapsed(rt: HostRuntime) {
    holds_always(&rt, LAPSED);
}

// The 60 days that end on March 13 begin on January 13, and those that end on March 14 on the 14th:
// entries that settled or were returned on the 13th no longer count then.
const WINDOW: Script = &[
    MILL,
    BAKE,
    HOLIDAYS,
    ("desk day 2025-01-09", "2025-01-09"),
    (
        "BAKE01 submit P debit 2025-01-10 091000019 100 200",
        "P order 1 entries 2 cents 300",
    ),
    (
        "MILL01 submit Q debit 2025-01-10 091000019 300 400 500",
        "Q order 1 entries 3 cents 1200",
    ),
    ("desk cut", "2025-01-09 sent 5 in [A], lapsed 0"),
    ("desk day 2025-01-10", "2025-01-10"),
    (
        "BAKE01 submit S debit 2025-01-13 091000019 700",
        "S order 2 entries 1 cents 700",
    ),
    (
        "MILL01 submit R debit 2025-01-13 091000019 600",
        "R order 2 entries 1 cents 600",
    ),
    ("desk cut", "2025-01-10 sent 2 in [A], lapsed 0"),
    ("desk day 2025-01-13", "2025-01-13"),
    (
        "MILL01 submit T debit 2025-01-14 091000019 800",
        "T order 3 entries 1 cents 800",
    ),
    ("desk cut", "2025-01-13 sent 1 in [A], lapsed 0"),
    (
        "desk items A PPD R05/1/100/26 R02/3/300/26",
        "2025-01-13 returns 2 late 0 changes 0 suspense 0",
    ),
    ("desk day 2025-01-14", "2025-01-14"),
    (
        "desk items B PPD R05/2/200/26 R02/4/400/26 R01/7/600/26",
        "2025-01-14 returns 3 late 0 changes 0 suspense 0",
    ),
    (
        "desk companies",
        "2025-01-14; BAKE01 BAKERY, entry 6000, credit 0 of 7000, debit 700 of 8000, unauthorized 2 of 3 over, administrative 0 of 3, overall 2 of 3 over; MILL01 MILL STREET, entry 5000, credit 0 of 20000, debit 1300 of 30000, unauthorized 0 of 5, administrative 2 of 5 over, overall 3 of 5 over",
    ),
    ("desk day 2025-03-13", "2025-03-13"),
    (
        "desk companies",
        "2025-03-13; BAKE01 BAKERY, entry 6000, credit 0 of 7000, debit 0 of 8000, unauthorized 2 of 1 over, administrative 0 of 1, overall 2 of 1 over; MILL01 MILL STREET, entry 5000, credit 0 of 20000, debit 0 of 30000, unauthorized 0 of 2, administrative 2 of 2 over, overall 3 of 2 over",
    ),
    ("desk day 2025-03-14", "2025-03-14"),
    (
        "desk companies",
        "2025-03-14; BAKE01 BAKERY, entry 6000, credit 0 of 7000, debit 0 of 8000, unauthorized 1 of 0 over, administrative 0 of 0, overall 1 of 0 over; MILL01 MILL STREET, entry 5000, credit 0 of 20000, debit 0 of 30000, unauthorized 0 of 1, administrative 1 of 1 over, overall 2 of 1 over",
    ),
    ("desk day 2025-03-17", "2025-03-17"),
    (
        "desk companies",
        "2025-03-17; BAKE01 BAKERY, entry 6000, credit 0 of 7000, debit 0 of 8000, unauthorized 0 of 0, administrative 0 of 0, overall 0 of 0; MILL01 MILL STREET, entry 5000, credit 0 of 20000, debit 0 of 30000, unauthorized 0 of 0, administrative 0 of 0, overall 0 of 0",
    ),
];

#[test]
fn all_companies_over_sixty_days(rt: HostRuntime) {
    holds_always(&rt, WINDOW);
}

// The cut of the 16th numbers F 1 and 2, D 3 to 5 and C 6, and that of the 17th numbers E 7 and 8. Of
// what is sent, F, D and C settle on the 17th, E on the 21st and G on the 23rd.
//
// After a restart on the 21st, only MILL01 is remembered when a file returns entries of it and of BAKE01.
// After one on the 22nd, only BAKE01 is, when a file returns entries of the other two. ABLE01 never asks
// for its own exposure. A store that is restarted on the 23rd does not remember what settled on the 17th,
// which the new holiday opens again.
const ONE_ASKED: Script = &[
    HOLIDAYS,
    MILL,
    BAKE,
    ABLE,
    SIXTEENTH,
    F,
    D,
    C,
    ("desk cut", "2025-01-16 sent 6 in [A], lapsed 0"),
    SEVENTEENTH,
    E,
    (
        "BAKE01 submit G credit 2025-01-23 091000019 60",
        "G order 2 entries 1 cents 60",
    ),
    ("desk cut", "2025-01-17 sent 2 in [A], lapsed 0"),
    TWENTY_FIRST,
    // D is open through the 22nd, and C was open through the 17th.
    ("MILL01 exposure", "credit 0 of 20000, debit 2640 of 30000"),
    (
        "MILL01 rates",
        "unauthorized 0 of 3, administrative 0 of 3, overall 0 of 3",
    ),
    (
        "desk items A PPD R02/4/100/26 R01/7/300/26",
        "2025-01-21 returns 2 late 0 changes 0 suspense 0",
    ),
    // F is 11 + 13. G is held. Of E 350 - 300 are left, and of D 2640 - 100.
    (
        "desk companies",
        "2025-01-21; ABLE01 ABLE TOOLS, entry 100, credit 0 of 200, debit 24 of 300, unauthorized 0 of 2, administrative 0 of 2, overall 0 of 2; BAKE01 BAKERY, entry 6000, credit 60 of 7000, debit 50 of 8000, unauthorized 0 of 2, administrative 0 of 2, overall 1 of 2 over; MILL01 MILL STREET, entry 5000, credit 0 of 20000, debit 2540 of 30000, unauthorized 0 of 3, administrative 1 of 3 over, overall 1 of 3 over",
    ),
    ("desk cut", "2025-01-21 sent 1 in [A], lapsed 0"),
    TWENTY_SECOND,
    ("BAKE01 exposure", "credit 60 of 7000, debit 50 of 8000"),
    (
        "desk items B PPD R05/1/11/26 R01/6/700/21",
        "2025-01-22 returns 2 late 0 changes 0 suspense 0",
    ),
    // Of F 24 - 11 are left. The returned credit C counts in no rate.
    (
        "desk companies",
        "2025-01-22; ABLE01 ABLE TOOLS, entry 100, credit 0 of 200, debit 13 of 300, unauthorized 1 of 2 over, administrative 0 of 2, overall 1 of 2 over; BAKE01 BAKERY, entry 6000, credit 60 of 7000, debit 50 of 8000, unauthorized 0 of 2, administrative 0 of 2, overall 1 of 2 over; MILL01 MILL STREET, entry 5000, credit 0 of 20000, debit 2540 of 30000, unauthorized 0 of 3, administrative 1 of 3 over, overall 1 of 3 over",
    ),
    (
        "ABLE01 submit H debit 2025-03-04 091000019 17",
        "H order 2 entries 1 cents 17",
    ),
    TWENTY_THIRD,
    // H is held. F and D are no longer open. E is open through this day, and G settles on it.
    (
        "desk companies",
        "2025-01-23; ABLE01 ABLE TOOLS, entry 100, credit 0 of 200, debit 17 of 300, unauthorized 1 of 2 over, administrative 0 of 2, overall 1 of 2 over; BAKE01 BAKERY, entry 6000, credit 60 of 7000, debit 50 of 8000, unauthorized 0 of 2, administrative 0 of 2, overall 1 of 2 over; MILL01 MILL STREET, entry 5000, credit 0 of 20000, debit 0 of 30000, unauthorized 0 of 3, administrative 1 of 3 over, overall 1 of 3 over",
    ),
    MORE_HOLIDAYS,
    // H and what is left of F are 17 + 13.
    (
        "desk companies",
        "2025-01-23; ABLE01 ABLE TOOLS, entry 100, credit 0 of 200, debit 30 of 300, unauthorized 1 of 2 over, administrative 0 of 2, overall 1 of 2 over; BAKE01 BAKERY, entry 6000, credit 60 of 7000, debit 50 of 8000, unauthorized 0 of 2, administrative 0 of 2, overall 1 of 2 over; MILL01 MILL STREET, entry 5000, credit 0 of 20000, debit 2540 of 30000, unauthorized 0 of 3, administrative 1 of 3 over, overall 1 of 3 over",
    ),
    ("desk day 2025-03-03", "2025-03-03"),
    // A store that remembers reads all companies again. The sixty days began on January 3.
    (
        "desk companies",
        "2025-03-03; ABLE01 ABLE TOOLS, entry 100, credit 0 of 200, debit 17 of 300, unauthorized 1 of 2 over, administrative 0 of 2, overall 1 of 2 over; BAKE01 BAKERY, entry 6000, credit 0 of 7000, debit 0 of 8000, unauthorized 0 of 2, administrative 0 of 2, overall 1 of 2 over; MILL01 MILL STREET, entry 5000, credit 0 of 20000, debit 0 of 30000, unauthorized 0 of 3, administrative 1 of 3 over, overall 1 of 3 over",
    ),
];

#[test]
fn all_companies_after_one_was_asked_about(rt: HostRuntime) {
    holds_always(&rt, ONE_ASKED);
}
