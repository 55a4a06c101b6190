//! The bodies of answers to the operator.
use super::{cents, day, list, says};
use ach_fields::{Id, ShortText};
use desk_history::{
    CompanyRisk, CompanyStatus, DayRates, DaySum, DeskCompanies, DeskStatus, DueDay, Exposure,
    ListOf, Outcome, Settlement, SuspenseReason, SuspenseRow, Tallies, Tally,
};
use desk_rules::{Limits, Rate, Rates};
use std::alloc::Global;
use std::process::Abort;

#[test]
fn a_settlement(rt: HostRuntime) {
    let tenth = DaySum {
        cents: 147_500,
        day: day(&rt, b"2025-01-10"),
    };
    let fourteenth = DaySum {
        cents: 2_500,
        day: day(&rt, b"2025-01-14"),
    };
    let settlement = Settlement {
        balance: 150_000,
        day: fourteenth.day,
        days: list(&rt, &[tenth, fourteenth]),
    };
    let body =
        b">{\"balance\":\"150000\",\"day\":\"2025-01-14\",\"days\":[{\"cents\":\"147500\",\"day\":\"2025-01-10\"},{\"cents\":\"2500\",\"day\":\"2025-01-14\"}]}";
    says(&rt, Outcome::Settlement(settlement), body);
}

/// An item in suspense of a file that was taken on the 14th, with its reason.
fn item(
    rt: &impl Abort,
    item: u64,
    amount: u64,
    code: &[u8; 3],
    trace: &[u8; 15],
    why: SuspenseReason,
) -> SuspenseRow {
    SuspenseRow {
        cents: cents(rt, amount),
        code: *code,
        day: day(rt, b"2025-01-14"),
        file: *b" 0610001462501141000B",
        item,
        trace: *trace,
        why,
    }
}

// An unknown trace, another amount, a code above R29 and a second return, each of 25.00 or 26.00.
#[test]
fn suspense(rt: HostRuntime) {
    let (three, two) = (b"121042880000003", b"121042880000002");
    let no_trace = SuspenseReason::NoTrace;
    let items = [
        item(&rt, 1, 2_500, b"R01", b"121042880009999", no_trace),
        item(&rt, 2, 2_600, b"R01", three, SuspenseReason::Differs),
        item(&rt, 3, 2_500, b"R31", three, SuspenseReason::CodeOutside),
        item(&rt, 4, 2_500, b"R01", two, SuspenseReason::AlreadyReturned),
    ];
    let body =
        b">{\"items\":[{\"cents\":2500,\"code\":\"R01\",\"day\":\"2025-01-14\",\"file\":\" 0610001462501141000B\",\"item\":1,\"trace\":\"121042880009999\",\"why\":\"NoTrace\"},{\"cents\":2600,\"code\":\"R01\",\"day\":\"2025-01-14\",\"file\":\" 0610001462501141000B\",\"item\":2,\"trace\":\"121042880000003\",\"why\":\"Differs\"},{\"cents\":2500,\"code\":\"R31\",\"day\":\"2025-01-14\",\"file\":\" 0610001462501141000B\",\"item\":3,\"trace\":\"121042880000003\",\"why\":\"CodeOutside\"},{\"cents\":2500,\"code\":\"R01\",\"day\":\"2025-01-14\",\"file\":\" 0610001462501141000B\",\"item\":4,\"trace\":\"121042880000002\",\"why\":\"AlreadyReturned\"}]}";
    says(&rt, Outcome::Suspense(list(&rt, &items)), body);
}

/// One credit of 1,500.00.
const ONE_CREDIT: Tallies = Tallies {
    credits: Tally {
        cents: 150_000,
        submissions: 1,
    },
    debits: Tally {
        cents: 0,
        submissions: 0,
    },
};

/// A company whose one credit is due.
fn mill(rt: &(impl Abort + Alloc<A = Global>)) -> CompanyStatus {
    let due = DueDay {
        day: day(rt, b"2025-01-09"),
        sums: ONE_CREDIT,
    };
    CompanyStatus {
        due: list(rt, &[due]),
        held: ONE_CREDIT,
        id: Id::new(b"MILL01").expect(rt, "MILL01"),
        lapsing: 0,
        name: ShortText::new(b"MILL").expect(rt, "MILL"),
    }
}

#[test]
fn how_the_desk_stands(rt: HostRuntime) {
    let mut companies = Vec::new(rt.alloc());
    companies.push(mill(&rt)).expect(&rt, "memory");
    let status = DeskStatus {
        companies: ListOf::new(companies),
        day: Some(day(&rt, b"2025-01-08")),
        due_files: 37,
        due_records: 1887,
        files: list(&rt, b"AB"),
        held_records: u64::MAX,
        holidays: 11,
        sent: 3,
        suspense: 2,
    };
    let body =
        b">{\"companies\":[{\"due\":[{\"credits\":{\"cents\":\"150000\",\"submissions\":1},\"day\":\"2025-01-09\",\"debits\":{\"cents\":\"0\",\"submissions\":0}}],\"held\":{\"credits\":{\"cents\":\"150000\",\"submissions\":1},\"debits\":{\"cents\":\"0\",\"submissions\":0}},\"id\":\"MILL01\",\"lapsing\":0,\"name\":\"MILL\"}],\"day\":\"2025-01-08\",\"due_files\":37,\"due_records\":1887,\"files\":[\"A\",\"B\"],\"held_records\":18446744073709551615,\"holidays\":11,\"sent\":3,\"suspense\":2}";
    says(&rt, Outcome::Status(status), body);
}

#[test]
fn how_a_new_desk_stands(rt: HostRuntime) {
    let status = DeskStatus {
        companies: ListOf::new(Vec::new(rt.alloc())),
        day: None,
        due_files: 0,
        due_records: 0,
        files: list(&rt, b""),
        held_records: 0,
        holidays: 0,
        sent: 0,
        suspense: 0,
    };
    let body =
        b">{\"companies\":[],\"day\":null,\"due_files\":0,\"due_records\":0,\"files\":[],\"held_records\":0,\"holidays\":0,\"sent\":0,\"suspense\":0}";
    says(&rt, Outcome::Status(status), body);
}

const NONE: Rate = Rate {
    n: 0,
    d: 0,
    over: false,
};

/// A company whose values are all different.
fn lake(rt: &impl Abort) -> CompanyRisk {
    let today = day(rt, b"2025-01-14");
    CompanyRisk {
        exposure: Exposure {
            credit: u128::MAX,
            debit: 2,
            day: today,
            limits: Limits {
                entry: 9_999_999_999,
                credit: 3,
                debit: 999_999_999_999_999,
            },
        },
        id: Id::new(b"LAKE07").expect(rt, "LAKE07"),
        name: ShortText::new(b"LAKE \"7\"").expect(rt, "LAKE"),
        rates: DayRates {
            day: today,
            rates: Rates {
                unauthorized: Rate {
                    n: 2,
                    d: 399,
                    over: true,
                },
                administrative: Rate {
                    n: 4,
                    d: 398,
                    over: false,
                },
                overall: Rate {
                    n: u64::MAX,
                    d: 397,
                    over: true,
                },
            },
        },
    }
}

/// A company with nothing.
fn acre(rt: &impl Abort) -> CompanyRisk {
    let today = day(rt, b"2025-01-14");
    CompanyRisk {
        exposure: Exposure {
            credit: 0,
            debit: 0,
            day: today,
            limits: Limits {
                entry: 0,
                credit: 0,
                debit: 0,
            },
        },
        id: Id::new(b"A").expect(rt, "A"),
        name: ShortText::new(b"ACRE").expect(rt, "ACRE"),
        rates: DayRates {
            day: today,
            rates: Rates {
                unauthorized: NONE,
                administrative: NONE,
                overall: NONE,
            },
        },
    }
}

// The exposures are texts, and the limits numbers. A quote in a name is written as \".
#[test]
fn all_companies(rt: HostRuntime) {
    let all = DeskCompanies {
        companies: list(&rt, &[acre(&rt), lake(&rt)]),
        day: day(&rt, b"2025-01-14"),
    };
    let body =
        b">{\"companies\":[{\"credit\":\"0\",\"credit_limit\":0,\"debit\":\"0\",\"debit_limit\":0,\"entry_limit\":0,\"id\":\"A\",\"name\":\"ACRE\",\"rates\":{\"administrative\":{\"d\":0,\"n\":0,\"over\":false},\"overall\":{\"d\":0,\"n\":0,\"over\":false},\"unauthorized\":{\"d\":0,\"n\":0,\"over\":false}}},{\"credit\":\"340282366920938463463374607431768211455\",\"credit_limit\":3,\"debit\":\"2\",\"debit_limit\":999999999999999,\"entry_limit\":9999999999,\"id\":\"LAKE07\",\"name\":\"LAKE \\\"7\\\"\",\"rates\":{\"administrative\":{\"d\":398,\"n\":4,\"over\":false},\"overall\":{\"d\":397,\"n\":18446744073709551615,\"over\":true},\"unauthorized\":{\"d\":399,\"n\":2,\"over\":true}}}],\"day\":\"2025-01-14\"}";
    says(&rt, Outcome::Companies(all), body);
}

#[test]
fn no_companies(rt: HostRuntime) {
    let all = DeskCompanies {
        companies: list(&rt, &[]),
        day: day(&rt, b"2000-01-01"),
    };
    let body = b">{\"companies\":[],\"day\":\"2000-01-01\"}";
    says(&rt, Outcome::Companies(all), body);
}
