//! These files are printed.
use super::samples::{lines, only_item, read, return_file};
use crate::formats::worked::{
    SENT, SENT_BATCH, returned_batch, returned_header, sent_batch, sent_header,
};
use ach_fields::{Cents, Trace};
use ach_files::{
    Addenda, Outgoing, OutgoingBatch, OutgoingEntry, PrintFault, Printer, ReturnOrChange,
    print_file,
};
use ach_records::{Change98Text, FileHeaderText, Return99Text};
use std::alloc::AllocError;
use std::process::Abort;
use std::test::Fail;

/// A printed file, or its fault.
type Printed = Result<Vec<u8>, PrintFault>;

/// A fault that no test expects: something went wrong before a file was printed, or two ways of
/// printing one differ.
const UNWANTED: PrintFault = PrintFault::NoMemory;

/// The largest amount of an entry has ten digits.
const LARGEST: u64 = 9_999_999_999;

fn cents_and_trace(cents: u64, dfi: u32, sequence: u32) -> Result<(Cents, Trace), PrintFault> {
    match (Cents::new(cents), Trace::new(dfi, sequence)) {
        (Some(cents), Ok(trace)) => Ok((cents, trace)),
        _ => Err(UNWANTED),
    }
}

fn sent_entry(name: &[u8], cents: Cents, trace: Trace) -> OutgoingEntry<'_> {
    OutgoingEntry {
        transaction: 22,
        dfi: 9_100_001,
        check_digit: 9,
        account: b"123456789",
        cents,
        identification: b"E1",
        name,
        trace,
        addenda: Addenda::Absent,
    }
}

// The return of a debit to a DFI.
fn return_of(
    name: &[u8],
    dfi: u32,
    check_digit: u8,
    cents: Cents,
    trace: Trace,
) -> OutgoingEntry<'_> {
    OutgoingEntry {
        transaction: 26,
        dfi,
        check_digit,
        account: b"123456789",
        cents,
        identification: b"E2",
        name,
        trace,
        addenda: Addenda::Return(Return99Text {
            code: b"R01",
            original_trace: b"121042880000001",
            date_of_death: b"",
            original_dfi: b"09100001",
            information: b"",
            trace,
        }),
    }
}

// Returns these entries, repeated this many times.
fn repeated<'a>(
    rt: &HostRuntime,
    entries: &[OutgoingEntry<'a>],
    count: usize,
) -> Result<Vec<OutgoingEntry<'a>>, AllocError> {
    let mut all = Vec::new(rt.alloc());
    for _ in 0..count {
        all.extend_from_slice(entries)?;
    }
    Ok(all)
}

// Returns this many entries of the largest amount.
fn largest_entries<'a>(
    rt: &HostRuntime,
    name: &'a [u8],
    count: usize,
) -> Result<Vec<OutgoingEntry<'a>>, PrintFault> {
    let (cents, trace) = cents_and_trace(LARGEST, 12_104_288, 1)?;
    Ok(repeated(rt, &[sent_entry(name, cents, trace)], count)?)
}

fn print_batches(rt: &HostRuntime, file: &Outgoing) -> Printed {
    let mut printer = Printer::new(rt.alloc(), &file.header)?;
    for batch in file.batches {
        printer.put(batch)?;
    }
    printer.finish()
}

fn are_same(whole: &Printed, batches: &Printed) -> bool {
    match (whole, batches) {
        (Ok(whole), Ok(batches)) => whole.as_slice() == batches.as_slice(),
        (Err(whole), Err(batches)) => whole == batches,
        _ => false,
    }
}

// A file printed whole and batch by batch.
fn print_both_ways(rt: &HostRuntime, file: &Outgoing) -> Printed {
    let whole = print_file(rt.alloc(), file);
    if are_same(&whole, &print_batches(rt, file)) {
        whole
    } else {
        Err(UNWANTED)
    }
}

// A file of one batch that is sent.
fn print_sent(rt: &HostRuntime, entries: &[OutgoingEntry]) -> Printed {
    match (sent_header(), sent_batch(1)) {
        (Ok(header), Ok(first)) => {
            let batches = [OutgoingBatch {
                header: first,
                entries,
            }];
            let file = Outgoing {
                header,
                batches: &batches,
            };
            print_both_ways(rt, &file)
        }
        _ => Err(UNWANTED),
    }
}

// A file that comes in, with these batches.
fn print_incoming(rt: &HostRuntime, batches: &[OutgoingBatch]) -> Printed {
    match returned_header() {
        Ok(header) => print_both_ways(rt, &Outgoing { header, batches }),
        Err(_) => Err(UNWANTED),
    }
}

// A file of one batch that comes in.
fn print_returns(rt: &HostRuntime, entries: &[OutgoingEntry]) -> Printed {
    match returned_batch() {
        Ok(header) => {
            let batches = [OutgoingBatch { header, entries }];
            print_incoming(rt, &batches)
        }
        Err(_) => Err(UNWANTED),
    }
}

/// The bytes of a record from 1, from an offset from 0.
type Part<'a> = (usize, usize, &'a [u8]);

fn stands(text: &[u8], (record, offset, bytes): Part) -> bool {
    match text.chunks(95).nth(record.saturating_sub(1)) {
        Some(line) => line.get(offset..offset.saturating_add(bytes.len())) == Some(bytes),
        None => false,
    }
}

fn assert_parts<R: Abort>(rt: &R, text: &[u8], parts: &[Part]) {
    for &(record, offset, bytes) in parts {
        assert!(*rt;
            stands(text, (record, offset, bytes)),
            "record {record}, from {offset}"
        );
    }
}

#[test]
fn sent_file(rt: HostRuntime) -> Result<(), Fail> {
    let (cents, trace) = cents_and_trace(150_000, 12_104_288, 1)?;
    let text = print_sent(&rt, &[sent_entry(b"ANN LEE", cents, trace)])?;
    assert!(rt; text.as_slice() == lines(&rt, &SENT, 5, b"\n")?.as_slice());
    Ok(())
}

#[test]
fn returned_file(rt: HostRuntime) -> Result<(), Fail> {
    let (cents, trace) = cents_and_trace(2_500, 9_100_001, 7)?;
    let text = print_returns(&rt, &[return_of(b"BOB RAY", 12_104_288, 2, cents, trace)])?;
    assert!(rt; text.as_slice() == return_file().as_slice());
    Ok(())
}

const HASHES: &[Part] = &[(7, 10, b"0011200003"), (8, 21, b"0011200003")];

#[test]
fn hashes(rt: HostRuntime) -> Result<(), Fail> {
    let (cents, trace) = cents_and_trace(2_500, 9_100_001, 7)?;
    let two = [
        return_of(b"BOB RAY", 9_100_001, 9, cents, trace),
        return_of(b"BOB RAY", 2_100_002, 1, cents, trace),
    ];
    let text = print_returns(&rt, &two)?;
    assert_parts(&rt, &text, HASHES);
    assert!(rt; read(&rt, &text) == Ok(2));
    Ok(())
}

/// The low ten digits of a sum of eleven.
const LONG_HASHES: &[Part] = &[(2_003, 10, b"2104288000"), (2_004, 21, b"2104288000")];

fn print_many_returns(rt: &HostRuntime) -> Printed {
    let (cents, trace) = cents_and_trace(2_500, 9_100_001, 7)?;
    let one = [return_of(b"BOB RAY", 12_104_288, 2, cents, trace)];
    print_returns(rt, &repeated(rt, &one, 1_000)?)
}

#[test]
fn long_hashes(rt: HostRuntime) -> Result<(), Fail> {
    let text = print_many_returns(&rt)?;
    assert_parts(&rt, &text, LONG_HASHES);
    assert!(rt; read(&rt, &text) == Ok(1_000));
    Ok(())
}

/// How many entries there are, how long their file is, and how many blocks its control says.
const BLOCKS: &[(usize, usize, Part)] = &[
    (1, 10 * 95, (5, 7, b"000001")),
    (6, 10 * 95, (10, 7, b"000001")),
    (7, 20 * 95, (11, 7, b"000002")),
];

fn print_largest(rt: &HostRuntime, count: usize) -> Printed {
    print_sent(rt, &largest_entries(rt, b"ANN LEE", count)?)
}

#[test]
fn blocks(rt: HostRuntime) -> Result<(), Fail> {
    for &(count, length, blocks) in BLOCKS {
        let text = print_largest(&rt, count)?;
        assert!(rt; text.len() == length, "of {count} entries");
        assert!(rt; stands(&text, blocks), "of {count} entries");
    }
    Ok(())
}

/// The addenda indicator, and the addenda of a payment.
const PAYMENT: &[Part] = &[
    (3, 78, b"1"),
    (4, 0, b"705INVOICE 7 "),
    (4, 83, b"00010000001"),
];

#[test]
fn payment(rt: HostRuntime) -> Result<(), Fail> {
    let (cents, trace) = cents_and_trace(150_000, 12_104_288, 1)?;
    let paid = OutgoingEntry {
        addenda: Addenda::Payment(b"INVOICE 7"),
        ..sent_entry(b"ANN LEE", cents, trace)
    };
    let text = print_sent(&rt, &[paid])?;
    assert!(rt; text.len() == 950);
    assert_parts(&rt, &text, PAYMENT);
    Ok(())
}

fn print_change(rt: &HostRuntime) -> Printed {
    let (cents, trace) = cents_and_trace(0, 9_100_001, 8)?;
    let entry = OutgoingEntry {
        addenda: Addenda::Change(Change98Text {
            code: b"C01",
            original_trace: b"121042880000001",
            original_dfi: b"09100001",
            corrected: b"987654321",
            trace,
        }),
        ..return_of(b"BOB RAY", 12_104_288, 2, cents, trace)
    };
    print_returns(rt, &[entry])
}

#[test]
fn change(rt: HostRuntime) -> Result<(), Fail> {
    let facts = only_item(&rt, &print_change(&rt)?)?;
    assert!(rt; &facts.code == b"C01");
    assert!(rt; facts.cents.get() == 0);
    assert!(rt;
        facts.return_or_change == ReturnOrChange::Change(*b"987654321                    ")
    );
    Ok(())
}

// Returns the length of the text, or its fault.
fn length(text: &Printed) -> Result<usize, PrintFault> {
    match text {
        Ok(text) => Ok(text.len()),
        Err(fault) => Err(*fault),
    }
}

/// The amount of an entry after 100 of the largest one, the name of all, and the outcome.
const TOTALS: &[(u64, &[u8], Result<usize, PrintFault>)] = &[
    (99, b"ANN LEE", Ok(110 * 95)),
    (100, b"ANN LEE", Err(PrintFault::TotalTooLarge)),
    // An invalid field is reported first, wherever it is.
    (100, b"TAB\t", Err(PrintFault::BadField)),
    // This amount has eleven digits.
    (10_000_000_000, b"ANN LEE", Err(PrintFault::BadField)),
];

fn with_last(rt: &HostRuntime, cents: u64, name: &[u8]) -> Result<usize, PrintFault> {
    let (cents, trace) = cents_and_trace(cents, 12_104_288, 1)?;
    let mut entries = largest_entries(rt, name, 100)?;
    entries.extend_from_slice(&[sent_entry(name, cents, trace)])?;
    length(&print_sent(rt, &entries))
}

#[test]
fn totals(rt: HostRuntime) {
    for (row, &(cents, name, outcome)) in TOTALS.iter().enumerate() {
        assert!(rt; with_last(&rt, cents, name) == outcome, "row {row}");
    }
}

const FAULTS: &[(PrintFault, u8)] = &[
    (PrintFault::BadField, 1),
    (PrintFault::TotalTooLarge, 2),
    (PrintFault::TooManyRecords, 3),
    (PrintFault::NoMemory, 4),
];

#[test]
fn numbers(rt: HostRuntime) {
    for &(fault, number) in FAULTS {
        assert!(rt; fault.number() == number);
    }
}

fn is_refused(printer: &mut Printer, batch: &OutgoingBatch) -> bool {
    printer.put(batch) == Err(PrintFault::BadField)
}

// A file of one batch, before and after which another one is refused for a bad field.
fn print_around_refused(
    rt: &HostRuntime,
    header: &FileHeaderText,
    good: &OutgoingBatch,
    bad: &OutgoingBatch,
) -> Printed {
    let mut printer = Printer::new(rt.alloc(), header)?;
    if is_refused(&mut printer, bad) && printer.put(good).is_ok() && is_refused(&mut printer, bad) {
        printer.finish()
    } else {
        Err(UNWANTED)
    }
}

// Prints a file of one batch of one entry of the largest amount, between refused batches.
fn print_beside_refused(rt: &HostRuntime) -> Printed {
    let (cents, trace) = cents_and_trace(LARGEST, 12_104_288, 1)?;
    let entries = [sent_entry(b"ANN LEE", cents, trace)];
    let refused = [sent_entry(b"ANN\tLEE", cents, trace)];
    match (sent_header(), sent_batch(1), sent_batch(2)) {
        (Ok(header), Ok(first), Ok(second)) => {
            let good = OutgoingBatch {
                header: first,
                entries: &entries,
            };
            let bad = OutgoingBatch {
                header: second,
                entries: &refused,
            };
            print_around_refused(rt, &header, &good, &bad)
        }
        _ => Err(UNWANTED),
    }
}

/// The header of the batch, and the control of the file.
const BESIDE_REFUSED: &[Part] = &[
    (2, 0, SENT_BATCH),
    (2, 94, b"\n"),
    (
        5,
        0,
        b"9000001000001000000010009100001000000000000009999999999",
    ),
];

#[test]
fn refused_batch(rt: HostRuntime) -> Result<(), Fail> {
    let text = print_beside_refused(&rt)?;
    assert!(rt; text.len() == 950);
    assert_parts(&rt, &text, BESIDE_REFUSED);
    Ok(())
}

#[test]
fn no_batch(rt: HostRuntime) -> Result<(), Fail> {
    let text = print_incoming(&rt, &[])?;
    assert!(rt; text.len() == 950);
    assert!(rt; read(&rt, &text) == Ok(0));
    Ok(())
}

/// How many entries of the largest amount two batches have each, and the outcome.
const TWO_BATCHES: &[(usize, Result<usize, PrintFault>)] = &[
    (1, Ok(10 * 95)),
    (50, Ok(110 * 95)),
    // Each batch is small enough, and the file is not.
    (51, Err(PrintFault::TotalTooLarge)),
];

fn print_twice(rt: &HostRuntime, entries: &[OutgoingEntry]) -> Printed {
    match (sent_batch(1), sent_batch(2)) {
        (Ok(first), Ok(second)) => {
            let batches = [
                OutgoingBatch {
                    header: first,
                    entries,
                },
                OutgoingBatch {
                    header: second,
                    entries,
                },
            ];
            print_incoming(rt, &batches)
        }
        _ => Err(UNWANTED),
    }
}

fn print_two(rt: &HostRuntime, count: usize) -> Result<usize, PrintFault> {
    let entries = largest_entries(rt, b"ANN LEE", count)?;
    length(&print_twice(rt, &entries))
}

#[test]
fn two_batches(rt: HostRuntime) {
    for &(count, outcome) in TWO_BATCHES {
        assert!(rt; print_two(&rt, count) == outcome, "of {count} entries each");
    }
}
