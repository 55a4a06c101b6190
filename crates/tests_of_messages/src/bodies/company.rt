//! The bodies of answers to a company.
use super::{cents, day, list, reference, says};
use desk_accounts::Cause;
use desk_history::{
    ChangeRow, DayRates, Exposure, Outcome, ReportedEntry, RetriedEntry, ReturnRow, Statement,
    StatementLine, SubmissionReport,
};
use desk_rules::{Direction, EntryState, Limits, Rate, Rates, ReturnCode, RuleDay, SecCode};
use std::process::Abort;

const CREDIT: &[u8] =
    b">{\"cents\":150000,\"day\":\"2025-01-10\",\"direction\":\"credit\",\"entries\":[{\"cents\":150000,\"index\":1,\"state\":\"held\"}],\"order\":1,\"ref\":\"PAY-1\",\"sec\":\"PPD\"}";

#[test]
fn a_submission_that_waits(rt: HostRuntime) {
    let entry = ReportedEntry {
        cents: cents(&rt, 150_000),
        index: 1,
        state: EntryState::Held,
    };
    let report = SubmissionReport {
        cents: cents(&rt, 150_000),
        day: day(&rt, b"2025-01-10"),
        direction: Direction::Credit,
        entries: list(&rt, &[entry]),
        retried: None,
        order: 1,
        reference: reference(&rt, b"PAY-1"),
        sec: SecCode::Ppd,
    };
    says(&rt, Outcome::Found(Some(report)), CREDIT);
    assert!(rt; CREDIT.len() == 147);
}

fn code(rt: &impl Abort, text: &[u8; 3]) -> ReturnCode {
    ReturnCode::parse(text).expect(rt, "a return code")
}

fn settled(rt: &impl Abort) -> RuleDay {
    RuleDay::read(b"2025-01-10").expect(rt, "a day")
}

fn returned(rt: &impl Abort) -> EntryState {
    EntryState::Returned {
        settled: settled(rt),
        code: code(rt, b"R01"),
        day: day(rt, b"2025-01-14"),
        late: false,
    }
}

/// A debit of 25.00 in a state.
fn debit(rt: &impl Abort, index: u64, state: EntryState) -> ReportedEntry {
    ReportedEntry {
        cents: cents(rt, 2_500),
        index,
        state,
    }
}

const RETRY: &[u8] =
    b">{\"cents\":10000,\"day\":\"2025-01-16\",\"direction\":\"debit\",\"entries\":[{\"cents\":2500,\"code\":\"R01\",\"index\":1,\"late\":false,\"returned\":\"2025-01-14\",\"settled\":\"2025-01-10\",\"state\":\"returned\"},{\"cents\":2500,\"index\":2,\"settled\":\"2025-01-10\",\"state\":\"sent\"},{\"cents\":2500,\"index\":3,\"state\":\"lapsed\"},{\"cents\":2500,\"index\":4,\"state\":\"held\"}],\"of\":\"PAY-2\",\"of_index\":1,\"order\":2,\"ref\":\"RT-1\",\"sec\":\"CCD\"}";

#[test]
fn a_retry_with_entries_in_each_state(rt: HostRuntime) {
    let settled = settled(&rt);
    let entries = [
        debit(&rt, 1, returned(&rt)),
        debit(&rt, 2, EntryState::Sent { settled }),
        debit(&rt, 3, EntryState::Lapsed),
        debit(&rt, 4, EntryState::Held),
    ];
    let retried = RetriedEntry {
        of: reference(&rt, b"PAY-2"),
        index: 1,
    };
    let report = SubmissionReport {
        cents: cents(&rt, 10_000),
        day: day(&rt, b"2025-01-16"),
        direction: Direction::Debit,
        entries: list(&rt, &entries),
        retried: Some(retried),
        order: 2,
        reference: reference(&rt, b"RT-1"),
        sec: SecCode::Ccd,
    };
    says(&rt, Outcome::Found(Some(report)), RETRY);
}

#[test]
fn an_unknown_reference(rt: HostRuntime) {
    says(&rt, Outcome::Found(None), b">{\"error\":\"NoReference\"}");
}

/// A return of an entry, with this information, filled up with blanks.
fn return_row(rt: &impl Abort, index: u64, info: &[u8; 44], late: bool) -> ReturnRow {
    ReturnRow {
        code: code(rt, b"R08"),
        day: day(rt, b"2025-01-14"),
        index,
        info: *info,
        late,
        reference: reference(rt, b"PAY-2"),
    }
}

const STOPPED: &[u8; 44] = b"STOPPED BY \"ANN\"                            ";

const NO_INFO: &[u8; 44] = b"                                            ";

// Blanks inside the information stay, and those at its end go.
#[test]
fn returns(rt: HostRuntime) {
    let rows = [
        return_row(&rt, 1, STOPPED, false),
        return_row(&rt, 2, NO_INFO, true),
    ];
    let body =
        b">{\"returns\":[{\"code\":\"R08\",\"day\":\"2025-01-14\",\"index\":1,\"info\":\"STOPPED BY \\\"ANN\\\"\",\"late\":false,\"ref\":\"PAY-2\"},{\"code\":\"R08\",\"day\":\"2025-01-14\",\"index\":2,\"info\":\"\",\"late\":true,\"ref\":\"PAY-2\"}]}";
    says(&rt, Outcome::Returns(list(&rt, &rows)), body);
    says(&rt, Outcome::Returns(list(&rt, &[])), b">{\"returns\":[]}");
}

#[test]
fn changes_have_all_characters(rt: HostRuntime) {
    let row = ChangeRow {
        code: *b"C01",
        day: day(&rt, b"2025-01-14"),
        index: 1,
        reference: reference(&rt, b"PAY-2"),
        text: *b"987654321                    ",
    };
    let body =
        b">{\"changes\":[{\"code\":\"C01\",\"day\":\"2025-01-14\",\"index\":1,\"ref\":\"PAY-2\",\"text\":\"987654321                    \"}]}";
    says(&rt, Outcome::Changes(list(&rt, &[row])), body);
    says(&rt, Outcome::Changes(list(&rt, &[])), b">{\"changes\":[]}");
}

fn line(rt: &impl Abort, cause: Cause, cents: i64, date: &[u8], of: (u64, &[u8])) -> StatementLine {
    StatementLine {
        cause,
        cents,
        day: day(rt, date),
        index: of.0,
        reference: reference(rt, of.1),
    }
}

// A credit of 1500.00, and a returned debit of 25.00.
#[test]
fn a_statement(rt: HostRuntime) {
    let lines = [
        line(&rt, Cause::Cut, -150_000, b"2025-01-10", (0, b"PAY-1")),
        line(&rt, Cause::Cut, 2_500, b"2025-01-10", (0, b"PAY-2")),
        line(&rt, Cause::Return, -2_500, b"2025-01-14", (1, b"PAY-2")),
    ];
    let statement = Statement {
        balance: -150_000,
        day: day(&rt, b"2025-01-14"),
        lines: list(&rt, &lines),
    };
    let body =
        b">{\"balance\":\"-150000\",\"day\":\"2025-01-14\",\"lines\":[{\"cause\":\"cut\",\"cents\":-150000,\"day\":\"2025-01-10\",\"index\":0,\"ref\":\"PAY-1\"},{\"cause\":\"cut\",\"cents\":2500,\"day\":\"2025-01-10\",\"index\":0,\"ref\":\"PAY-2\"},{\"cause\":\"return\",\"cents\":-2500,\"day\":\"2025-01-14\",\"index\":1,\"ref\":\"PAY-2\"}]}";
    says(&rt, Outcome::Statement(statement), body);
}

#[test]
fn a_statement_without_lines(rt: HostRuntime) {
    let statement = Statement {
        balance: i128::MIN,
        day: day(&rt, b"2000-01-01"),
        lines: list(&rt, &[]),
    };
    let body =
        b">{\"balance\":\"-170141183460469231731687303715884105728\",\"day\":\"2000-01-01\",\"lines\":[]}";
    says(&rt, Outcome::Statement(statement), body);
}

/// 2 of 399 debits are over 0.5 percent, and are under the other thresholds.
const RATES: Rates = Rates {
    unauthorized: Rate {
        n: 2,
        d: 399,
        over: true,
    },
    administrative: Rate {
        n: 0,
        d: 399,
        over: false,
    },
    overall: Rate {
        n: 5,
        d: 399,
        over: false,
    },
};

#[test]
fn rates(rt: HostRuntime) {
    let rates = DayRates {
        day: day(&rt, b"2025-01-14"),
        rates: RATES,
    };
    let body =
        b">{\"administrative\":{\"d\":399,\"n\":0,\"over\":false},\"day\":\"2025-01-14\",\"overall\":{\"d\":399,\"n\":5,\"over\":false},\"unauthorized\":{\"d\":399,\"n\":2,\"over\":true}}";
    says(&rt, Outcome::Rates(rates), body);
}

const LIMITS: Limits = Limits {
    entry: 9_999_999_999,
    credit: 999_999_999_999_999,
    debit: 0,
};

// The exposures are texts, and the limits numbers.
#[test]
fn an_exposure(rt: HostRuntime) {
    let exposure = Exposure {
        credit: u128::MAX,
        debit: 0,
        day: day(&rt, b"2025-01-08"),
        limits: LIMITS,
    };
    let body =
        b">{\"credit\":\"340282366920938463463374607431768211455\",\"credit_limit\":999999999999999,\"day\":\"2025-01-08\",\"debit\":\"0\",\"debit_limit\":0,\"entry_limit\":9999999999}";
    says(&rt, Outcome::Exposure(exposure), body);
}
