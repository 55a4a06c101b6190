//! Two companies' submissions, a credit and a debit, for Friday 2025-01-10 are cut here on
//! Thursday.
use crate::samples::{day, identity, routing, rule_day, short_text};
use ach_fields::{Id, Ref};
use bank_days::{Calendar, Day};
use desk_accounts::Account;
use desk_book::{HeldSubmission, Row};
use desk_cut::{CutFault, CutPlan, number_cut, plan_cut};
use desk_history::ListOf;
use desk_rules::{
    AccountKind, Company, Direction, Entries, Entry, EntryCents, Limits, RuleDay, SecCode,
    SizedSubmission, Submission,
};
use std::alloc::Global;
use std::process::Abort;
use std::test::Fail;

// Behind this sequence there is one more.
const LAST: u32 = 9_999_998;

// The file of a credit of 25.00 and two debits of 25.00, by the Nacha layout.
const TEXT: &[u8] =
    b"101 061000146 121042882250109    A094101ACH OPERATOR           OUR BANK                       \n\
5220BAKER ROW                           BAKE01    PPDDUES            250110   1121042880000001\n\
622091000019123456789        0000002500E1             ANN LEE                 0121042889999999\n\
82200000010009100001000000000000000000002500BAKE01                             121042880000001\n\
5225BAKER ROW                           MILL01    PPDDUES            250110   1121042880000002\n\
627091000019123456789        0000002500E1             ANN LEE                 0121042880000001\n\
627091000019123456789        0000002500E1             ANN LEE                 0121042880000002\n\
82250000020018200002000000005000000000000000MILL01                             121042880000002\n\
9000002000001000000030027300003000000005000000000002500                                       \n\
9999999999999999999999999999999999999999999999999999999999999999999999999999999999999999999999\n";

// The file of a debit of one cent with payment information and of a prenote, in fields of full width.
const COMPANIES: &[u8] =
    b"101 061000146 121042882250109    A094101ACH OPERATOR           OUR BANK                       \n\
5225RIVER MILLS & CO                    MILL012345CCDINVOICES 1      250110   1121042880000001\n\
637091000019123456789012345670000000001INVOICE-2025-01NORTH SHORE MILLS NO 2  1121042880000001\n\
705RMR*IV*0123456789**1.00\\                                                        00010000001\n\
628091000019123456789012345670000000000               NORTH SHORE MILLS NO 2  0121042880000002\n\
82250000030018200002000000000001000000000000MILL012345                         121042880000001\n\
9000001000001000000030018200002000000000001000000000000                                       \n\
9999999999999999999999999999999999999999999999999999999999999999999999999999999999999999999999\n\
9999999999999999999999999999999999999999999999999999999999999999999999999999999999999999999999\n\
9999999999999999999999999999999999999999999999999999999999999999999999999999999999999999999999\n";

// The controls of 1,000 debits with addenda, whose total is 999,999,999,999.
const BATCH_CONTROL: &[u8] =
    b"82250020009100001000999999999999000000000000MILL012345                         121042880000001\n";

const FILE_CONTROL: &[u8] =
    b"9000001000201000020009100001000999999999999000000000000                                       \n";

fn company(rt: &impl Abort, name: &[u8]) -> Company {
    Company {
        id: Id::new(name).ok().expect(rt, "an identification"),
        name: short_text(rt, b"BAKER ROW"),
        digest: [1; 32],
        limits: Limits {
            entry: 1,
            credit: 2,
            debit: 3,
        },
    }
}

// An entry of 25.00.
fn entry(rt: &impl Abort) -> Entry {
    Entry {
        routing: routing(rt, b"091000019"),
        account: short_text(rt, b"123456789"),
        kind: AccountKind::Checking,
        prenote: false,
        cents: EntryCents::new(2500).expect(rt, "an amount"),
        id: short_text(rt, b"E1"),
        name: short_text(rt, b"ANN LEE"),
        info: None,
    }
}

// Returns this many of them.
fn entries(rt: &(impl Abort + Alloc<A = Global>), count: u32) -> Result<Entries, Fail> {
    let mut entries = Entries::new(rt.alloc(), entry(rt))?;
    for _ in 1..count {
        entries.push(entry(rt))?;
    }
    Ok(entries)
}

fn waits(
    rt: &(impl Abort + Alloc<A = Global>),
    name: &[u8],
    direction: Direction,
    count: u32,
) -> Result<HeldSubmission, Fail> {
    let submission = Submission {
        reference: Ref::new(b"PAY-1").ok().expect(rt, "a reference"),
        sec: SecCode::Ppd,
        direction,
        description: short_text(rt, b"DUES"),
        day: rule_day(rt, b"2025-01-10"),
        entries: entries(rt, count)?,
    };
    Ok(HeldSubmission {
        company: company(rt, name),
        row: Row {
            order: 1,
            content: SizedSubmission::new(submission).ok().expect(rt, "a size"),
            retry: None,
            settled: None,
            lapsed: false,
            states: ListOf::new(Vec::new(rt.alloc())),
        },
        original_settled: None,
    })
}

// A credit of one entry and a debit of two.
fn two(rt: &(impl Abort + Alloc<A = Global>)) -> Result<Vec<HeldSubmission>, Fail> {
    let mut waiting = Vec::new(rt.alloc());
    waiting.push(waits(rt, b"BAKE01", Direction::Credit, 1)?)?;
    waiting.push(waits(rt, b"MILL01", Direction::Debit, 2)?)?;
    Ok(waiting)
}

// The plan after the last sequence but one.
fn plan_on(
    rt: &(impl Abort + Alloc<A = Global>),
    today: RuleDay,
    made: u64,
    latest: &[Option<Day>],
    waiting: &[HeldSubmission],
) -> Result<CutPlan, CutFault> {
    let holidays = Calendar::empty(rt.alloc());
    let numbered = number_cut(rt.alloc(), today, &holidays, LAST, waiting)?;
    plan_cut(rt.alloc(), &identity(rt), numbered, made, latest)
}

fn plan(
    rt: &(impl Abort + Alloc<A = Global>),
    made: u64,
    latest: &[Option<Day>],
    waiting: &[HeldSubmission],
) -> Result<CutPlan, CutFault> {
    plan_on(rt, rule_day(rt, b"2025-01-09"), made, latest, waiting)
}

// The same of the credit and the debit.
fn plan_of_two(
    rt: &(impl Abort + Alloc<A = Global>),
    made: u64,
    latest: &[Option<Day>],
) -> Result<Result<CutPlan, CutFault>, Fail> {
    Ok(plan(rt, made, latest, &two(rt)?))
}

fn fault_of_two(
    rt: &(impl Abort + Alloc<A = Global>),
    made: u64,
    latest: &[Option<Day>],
) -> Result<Option<CutFault>, Fail> {
    Ok(plan_of_two(rt, made, latest)?.err())
}

// The plan of a submission alone.
fn plan_of(
    rt: &(impl Abort + Alloc<A = Global>),
    latest: &[Option<Day>],
    held: HeldSubmission,
) -> Result<CutPlan, Fail> {
    let mut waiting = Vec::new(rt.alloc());
    waiting.push(held)?;
    Ok(plan(rt, 0, latest, &waiting).ok().expect(rt, "a plan"))
}

// The sequences of both, cut on this day.
fn ranges_of_two(
    rt: &(impl Abort + Alloc<A = Global>),
    today: RuleDay,
) -> Result<Result<Vec<(u32, u32)>, CutFault>, Fail> {
    let holidays = Calendar::empty(rt.alloc());
    let waiting = two(rt)?;
    let numbered = match number_cut(rt.alloc(), today, &holidays, LAST, &waiting) {
        Ok(numbered) => numbered,
        Err(fault) => return Ok(Err(fault)),
    };
    let mut ranges = Vec::new(rt.alloc());
    ranges.extend_from_slice(numbered.ranges())?;
    Ok(Ok(ranges))
}

#[test]
fn a_batch_that_would_pass_the_last_sequence_begins_at_1(rt: HostRuntime) -> Result<(), Fail> {
    let ranges = ranges_of_two(&rt, rule_day(&rt, b"2025-01-09"))?;
    let ranges = ranges.ok().expect(&rt, "ranges");
    assert!(rt; ranges.as_slice() == [(9_999_999, 9_999_999), (1, 2)].as_slice());
    Ok(())
}

fn sends_both_batches(rt: &impl Abort, plan: &CutPlan) {
    let friday = day(rt, b"2025-01-10");
    for (row, batch) in plan.sent.iter().zip([1, 2]) {
        assert!(rt; row.settled.day() == friday);
        assert!(rt; row.printed.modifier == b'A');
        assert!(rt; row.printed.batch == batch);
    }
    assert!(rt; plan.sent.len() == 2);
}

fn numbers_the_entries(rt: &impl Abort, plan: &CutPlan) {
    let numbers = [(9_999_999, 1, false), (1, 1, true), (2, 2, true)];
    for (entry, (sequence, index, debit)) in plan.entries.iter().zip(numbers) {
        assert!(rt; entry.sequence == sequence);
        assert!(rt; entry.index == index);
        assert!(rt; entry.debit == debit);
    }
    assert!(rt; plan.entries.len() == 3);
}

fn posts_both_totals(rt: &impl Abort, plan: &CutPlan) {
    let friday = day(rt, b"2025-01-10");
    for (line, cents) in plan.postings.iter().zip([-2500, 2500, 5000, -5000]) {
        assert!(rt; line.cents == cents);
        assert!(rt; line.value_day == friday);
    }
    assert!(rt; plan.postings.len() == 4);
    let bakery = plan.postings.first().expect(rt, "a line");
    let id = Id::new(b"BAKE01").ok().expect(rt, "an identification");
    assert!(rt; bakery.account == Account::Company(id));
}

// Checks the plan's counts and its first file.
fn ends_in(rt: &impl Abort, plan: &CutPlan, entries: u64, lapsed: u64, text: &[u8]) {
    assert!(rt; plan.done.entries == entries);
    assert!(rt; plan.done.lapsed == lapsed);
    assert!(rt; plan.done.files.as_slice() == b"A".as_slice());
    let file = plan.files.first().expect(rt, "a file");
    assert!(rt; file.text.as_slice() == text);
}

#[test]
fn all_rows_of_a_plan(rt: HostRuntime) -> Result<(), Fail> {
    let plan = plan_of_two(&rt, 0, &[None, None])?;
    let plan = plan.ok().expect(&rt, "a plan");
    sends_both_batches(&rt, &plan);
    assert!(rt; plan.lapsed.is_empty());
    numbers_the_entries(&rt, &plan);
    posts_both_totals(&rt, &plan);
    ends_in(&rt, &plan, 3, 0, TEXT);
    Ok(())
}

// 365 and 366 days before the cut.
#[test]
fn sequences_are_used_again_after_366_days(rt: HostRuntime) -> Result<(), Fail> {
    let late = fault_of_two(&rt, 0, &[None, Some(day(&rt, b"2024-01-10"))])?;
    assert!(rt; late == Some(CutFault::TracesSpent));
    let early = fault_of_two(&rt, 0, &[None, Some(day(&rt, b"2024-01-09"))])?;
    assert!(rt; early.is_none());
    Ok(())
}

fn has_the_last_modifier(rt: &impl Abort, plan: &CutPlan) {
    assert!(rt; plan.done.files.as_slice() == b"9".as_slice());
}

#[test]
fn a_day_has_36_files(rt: HostRuntime) -> Result<(), Fail> {
    let last = plan_of_two(&rt, 35, &[None, None])?;
    has_the_last_modifier(&rt, &last.ok().expect(&rt, "a plan"));
    let spent = fault_of_two(&rt, 36, &[None, None])?;
    assert!(rt; spent == Some(CutFault::ModifiersSpent));
    // With nothing to send it needs none.
    assert!(rt; plan(&rt, 36, &[], &[]).is_ok());
    Ok(())
}

// Returns the sent, printed and lapsed counts for a retry whose original settled on this day.
fn counts_of_retry(
    rt: &(impl Abort + Alloc<A = Global>),
    original: &[u8],
    latest: &[Option<Day>],
) -> Result<(usize, usize, usize, u64), Fail> {
    let mut retry = waits(rt, b"MILL01", Direction::Debit, 1)?;
    retry.original_settled = Some(rule_day(rt, original));
    let plan = plan_of(rt, latest, retry)?;
    Ok((
        plan.sent.len(),
        plan.files.len(),
        plan.lapsed.len(),
        plan.done.lapsed,
    ))
}

// It would settle 181 days after its original, or 180.
#[test]
fn a_late_retry_lapses(rt: HostRuntime) -> Result<(), Fail> {
    assert!(rt; counts_of_retry(&rt, b"2024-07-13", &[])? == (0, 0, 1, 1));
    assert!(rt; counts_of_retry(&rt, b"2024-07-14", &[None])? == (1, 1, 0, 0));
    Ok(())
}

// A company's entry of one cent for a savings account, with payment information, and a prenote.
fn company_entries(rt: &(impl Abort + Alloc<A = Global>)) -> Result<Entries, Fail> {
    let invoice = Entry {
        routing: routing(rt, b"091000019"),
        account: short_text(rt, b"12345678901234567"),
        kind: AccountKind::Savings,
        prenote: false,
        cents: EntryCents::new(1).expect(rt, "an amount"),
        id: short_text(rt, b"INVOICE-2025-01"),
        name: short_text(rt, b"NORTH SHORE MILLS NO 2"),
        info: Some(short_text(rt, b"RMR*IV*0123456789**1.00\\")),
    };
    let prenote = Entry {
        routing: routing(rt, b"091000019"),
        account: short_text(rt, b"12345678901234567"),
        kind: AccountKind::Checking,
        prenote: true,
        cents: EntryCents::new(0).expect(rt, "an amount"),
        id: short_text(rt, b""),
        name: short_text(rt, b"NORTH SHORE MILLS NO 2"),
        info: None,
    };
    let mut entries = Entries::new(rt.alloc(), invoice)?;
    entries.push(prenote)?;
    Ok(entries)
}

// A debit of MILL012345 with these entries.
fn debit(
    rt: &(impl Abort + Alloc<A = Global>),
    sec: SecCode,
    description: &[u8],
    entries: Entries,
) -> Result<HeldSubmission, Fail> {
    let submission = Submission {
        reference: Ref::new(b"PAY-1").ok().expect(rt, "a reference"),
        sec,
        direction: Direction::Debit,
        description: short_text(rt, description),
        day: rule_day(rt, b"2025-01-10"),
        entries,
    };
    let mut held = waits(rt, b"MILL012345", Direction::Debit, 1)?;
    held.company.name = short_text(rt, b"RIVER MILLS & CO");
    held.row.content = SizedSubmission::new(submission).ok().expect(rt, "a size");
    Ok(held)
}

#[test]
fn entries_of_companies_are_printed(rt: HostRuntime) -> Result<(), Fail> {
    let held = debit(&rt, SecCode::Ccd, b"INVOICES 1", company_entries(&rt)?)?;
    ends_in(&rt, &plan_of(&rt, &[None], held)?, 2, 0, COMPANIES);
    Ok(())
}

// An entry whose texts have all their characters.
fn widest(rt: &impl Abort, cents: u64) -> Entry {
    Entry {
        routing: routing(rt, b"091000019"),
        account: short_text(rt, &[b'~'; 17]),
        kind: AccountKind::Savings,
        prenote: false,
        cents: EntryCents::new(cents).expect(rt, "an amount"),
        id: short_text(rt, &[b'~'; 15]),
        name: short_text(rt, &[b'~'; 22]),
        info: Some(short_text(rt, &[b'~'; 80])),
    }
}

// A thousand debits, each with payment information: 99 of 9,999,999,999 cents, one of 9,999,999,198
// and 900 of one cent are 999,999,999,999.
fn largest(rt: &(impl Abort + Alloc<A = Global>)) -> Result<Entries, Fail> {
    let mut entries = Entries::new(rt.alloc(), widest(rt, 9_999_999_999))?;
    for index in 1..1_000 {
        let cents = if index < 99 {
            9_999_999_999
        } else if index == 99 {
            9_999_999_198
        } else {
            1
        };
        entries.push(widest(rt, cents))?;
    }
    Ok(entries)
}

fn has_record(rt: &impl Abort, text: &[u8], at: usize, record: &[u8]) {
    let given = text.chunks(95).nth(at).expect(rt, "a record");
    assert!(rt; given == record);
}

// 1,000 entries, each with an addenda, are 2,004 records with those of the batch and the file: 201
// blocks of ten records, each of 95 bytes with its LF.
fn is_the_largest(rt: &impl Abort, text: &[u8]) {
    assert!(rt; text.len() == 201 * 10 * 95);
    for line in text.split(|byte| *byte == b'\n').take(2_010) {
        assert!(rt; line.len() == 94);
    }
    has_record(rt, text, 2_002, BATCH_CONTROL);
    has_record(rt, text, 2_003, FILE_CONTROL);
}

#[test]
fn the_largest_submission_is_printed(rt: HostRuntime) -> Result<(), Fail> {
    let held = debit(&rt, SecCode::Ppd, b"~~~~~~~~~~", largest(&rt)?)?;
    let plan = plan_of(&rt, &[None], held)?;
    assert!(rt; plan.done.entries == 1_000);
    is_the_largest(
        &rt,
        &plan.files.first().expect(&rt, "a file").text.as_slice(),
    );
    Ok(())
}

// On the last day that rules count from, 2100-01-31, the next day that a submission could settle is
// behind it.
fn fault_on_the_last_day(
    rt: &(impl Abort + Alloc<A = Global>),
    made: u64,
    latest: &[Option<Day>],
) -> Result<Option<CutFault>, Fail> {
    let last = Day::from_number(47_512).expect(rt, "a day");
    let last = RuleDay::new(last).expect(rt, "a day");
    Ok(plan_on(rt, last, made, latest, &two(rt)?).err())
}

// A cut that is refused for another reason is refused for that one.
#[test]
fn no_submission_settles_after_january_2100(rt: HostRuntime) -> Result<(), Fail> {
    let recent = Day::from_number(47_512 - 365).expect(&rt, "a day");
    let used = fault_on_the_last_day(&rt, 36, &[None, Some(recent)])?;
    assert!(rt; used == Some(CutFault::TracesSpent));
    let full = fault_on_the_last_day(&rt, 36, &[None, None])?;
    assert!(rt; full == Some(CutFault::ModifiersSpent));
    let far = fault_on_the_last_day(&rt, 0, &[None, None])?;
    assert!(rt; far == Some(CutFault::DaysSpent));
    Ok(())
}
