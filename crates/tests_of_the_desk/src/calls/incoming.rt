//! Files that come in are made from words here: each item by its code, the sequence of the entry
//! that it answers, its cents, its transaction code, and the receiving bank where it is another.
use ach_fields::{Cents, Routing, Trace, Ymd};
use ach_files::{Addenda, Outgoing, OutgoingBatch, OutgoingEntry, print_file};
use ach_records::{BatchHeaderText, Change98Text, FileHeaderText, Return99Text};
use std::alloc::Global;
use std::process::Abort;

/// This is the returning bank.
const RECEIVER: u32 = 9_100_001;

/// This is the originating bank of the sample.
const ODFI: u32 = 12_104_288;

fn part(word: &str, number: usize) -> &str {
    word.split('/').nth(number).unwrap_or("")
}

fn sequence(rt: &impl Abort, item: &str) -> u32 {
    part(item, 1).parse::<u32>().ok().expect(rt, "a sequence")
}

fn cents(rt: &impl Abort, item: &str) -> Cents {
    let cents = part(item, 2).parse::<u64>().ok().expect(rt, "a number");
    Cents::new(cents).expect(rt, "an amount")
}

fn transaction(rt: &impl Abort, item: &str) -> u8 {
    part(item, 3)
        .parse::<u8>()
        .ok()
        .expect(rt, "a transaction code")
}

// The receiving bank of the entry that is answered.
fn original_dfi(item: &str) -> &[u8] {
    match part(item, 4) {
        "" => b"09100001",
        dfi => dfi.as_bytes(),
    }
}

fn routing(rt: &impl Abort, text: &[u8]) -> Routing {
    Routing::parse(text).ok().expect(rt, "a routing number")
}

fn date(rt: &impl Abort) -> Ymd {
    Ymd::new(25, 1, 14).ok().expect(rt, "a date")
}

fn trace(rt: &impl Abort, dfi: u32, sequence: u32) -> Trace {
    Trace::new(dfi, sequence).ok().expect(rt, "a trace")
}

fn addenda<'a>(item: &'a str, answered: &'a [u8; 15], own: Trace) -> Addenda<'a> {
    let code = part(item, 0);
    if code.starts_with('C') {
        Addenda::Change(Change98Text {
            code: code.as_bytes(),
            original_trace: answered.as_slice(),
            original_dfi: original_dfi(item),
            corrected: b"987654321",
            trace: own,
        })
    } else {
        Addenda::Return(Return99Text {
            code: code.as_bytes(),
            original_trace: answered.as_slice(),
            date_of_death: b"",
            original_dfi: original_dfi(item),
            information: b"",
            trace: own,
        })
    }
}

fn entry<'a>(rt: &impl Abort, item: &'a str, answered: &'a [u8; 15]) -> OutgoingEntry<'a> {
    let own = trace(rt, RECEIVER, 7);
    OutgoingEntry {
        transaction: transaction(rt, item),
        dfi: ODFI,
        check_digit: 2,
        account: b"123456789",
        cents: cents(rt, item),
        identification: b"E1",
        name: b"ANN LEE",
        trace: own,
        addenda: addenda(item, answered, own),
    }
}

fn traces(rt: &(impl Abort + Alloc<A = Global>), line: &str) -> Vec<[u8; 15]> {
    let mut traces = Vec::new(rt.alloc());
    for item in line.split(' ').skip(4) {
        let answered = trace(rt, ODFI, sequence(rt, item));
        traces.push(answered.text()).ok().expect(rt, "memory");
    }
    traces
}

fn entries<'a>(
    rt: &(impl Abort + Alloc<A = Global>),
    line: &'a str,
    traces: &'a [[u8; 15]],
) -> Vec<OutgoingEntry<'a>> {
    let mut entries = Vec::new(rt.alloc());
    for (item, answered) in line.split(' ').skip(4).zip(traces) {
        let one = [entry(rt, item, answered)];
        entries.extend_from_slice(&one).ok().expect(rt, "memory");
    }
    entries
}

fn print(
    rt: &(impl Abort + Alloc<A = Global>),
    modifier: &str,
    sec: &str,
    entries: &[OutgoingEntry],
) -> Vec<u8> {
    let batches = [OutgoingBatch {
        header: BatchHeaderText {
            service_class: 200,
            company_name: b"MILL STREET",
            company: b"MILL01",
            sec: sec.as_bytes(),
            description: b"DUES",
            effective: date(rt),
            settlement: Some(14),
            odfi: RECEIVER,
            number: 1,
        },
        entries,
    }];
    let file = Outgoing {
        header: FileHeaderText {
            destination: routing(rt, b"121042882"),
            origin: routing(rt, b"061000146"),
            date: date(rt),
            time: Some(930),
            modifier: modifier.as_bytes(),
            destination_name: b"OUR BANK",
            origin_name: b"ACH OPERATOR",
        },
        batches: &batches,
    };
    print_file(rt.alloc(), &file).ok().expect(rt, "a file")
}

/// Makes the file of `desk items MODIFIER SEC CODE/SEQUENCE/CENTS/TRANSACTION[/DFI] ..`.
pub(super) fn incoming(rt: &(impl Abort + Alloc<A = Global>), line: &str) -> Vec<u8> {
    let traces = traces(rt, line);
    let entries = entries(rt, line, &traces);
    let modifier = line.split(' ').nth(2).unwrap_or("A");
    let sec = line.split(' ').nth(3).unwrap_or("PPD");
    print(rt, modifier, sec, &entries)
}
