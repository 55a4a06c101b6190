//! The fields of views of records from outside.
use super::{CHANGE, INFORMATION};
use crate::formats::worked::{
    ADDENDA, BATCH, BATCH_CONTROL, HEADER, SENT_CONTROL, SENT_ENTRY, SENT_HEADER,
};
use ach_records::{Kind, Record, has_digits, header_key, kind_of, view};

const NO_TEXTS: [&[u8]; 3] = [b"", b"", b""];

fn texts_of<'a>(record: &Record<'a>) -> [&'a [u8]; 3] {
    match record {
        Record::FileHeader(h) => [h.immediate_origin(), h.creation_time(), h.origin_name()],
        Record::BatchHeader(h) => [h.sec_code(), h.settlement_date(), h.originating_dfi()],
        Record::Entry(e) => [e.account(), e.trace(), b""],
        Record::Change98(c) => [c.change_code(), c.corrected_data(), c.trace()],
        Record::Return99(r) => [
            r.return_code(),
            r.original_trace(),
            r.original_receiving_dfi(),
        ],
        Record::BatchControl(c) => [c.company_identification(), b"", b""],
        _ => NO_TEXTS,
    }
}

fn numbers_of(record: &Record) -> [u64; 3] {
    match record {
        Record::Entry(e) => [
            e.transaction_code() as u64,
            e.receiving_dfi() as u64,
            e.cents().get(),
        ],
        Record::Addenda05(a) => [a.sequence() as u64, a.entry_sequence() as u64, 0],
        Record::BatchControl(c) => [c.count() as u64, c.entry_hash(), c.total_debits().get()],
        Record::FileControl(c) => {
            [
                c.block_count() as u64,
                c.entry_hash(),
                c.total_credits().get(),
            ]
        }
        _ => [0; 3],
    }
}

/// Records, each with texts and with numbers that its view says. No other view says the same.
const RECORDS: &[(&[u8; 94], [&[u8]; 3], [u64; 3])] = &[
    (
        HEADER,
        [b" 061000146", b"0930", b"ACH OPERATOR           "],
        [0; 3],
    ),
    (BATCH, [b"PPD", b"014", b"09100001"], [0; 3]),
    (
        SENT_ENTRY,
        [b"123456789        ", b"121042880000001", b""],
        [22, 9_100_001, 150_000],
    ),
    (INFORMATION, NO_TEXTS, [1, 1, 0]),
    (
        CHANGE,
        [b"C01", b"987654321                    ", b"091000010000007"],
        [0; 3],
    ),
    (ADDENDA, [b"R01", b"121042880000001", b"09100001"], [0; 3]),
    (
        BATCH_CONTROL,
        [b"MILL01    ", b"", b""],
        [2, 12_104_288, 2_500],
    ),
    (SENT_CONTROL, NO_TEXTS, [1, 9_100_001, 150_000]),
];

#[test]
fn records(rt: HostRuntime) {
    for (row, &(text, texts, numbers)) in RECORDS.iter().enumerate() {
        let is_right = match view(text) {
            Ok(record) => texts_of(&record) == texts && numbers_of(&record) == numbers,
            Err(_) => false,
        };
        assert!(rt; is_right, "row {row}");
    }
}

#[test]
fn nines_are_a_filler(rt: HostRuntime) {
    let mut text = [b'9'; 94];
    assert!(rt; matches!(view(&text), Ok(Record::Filler(_))));
    assert!(rt; kind_of(&text) == Kind::Filler);
    text[93] = b' ';
    assert!(rt; matches!(view(&text), Ok(Record::FileControl(_))));
}

#[test]
fn fields_by_place(rt: HostRuntime) {
    assert!(rt; header_key(HEADER) == *b" 0610001462501140930A");
    assert!(rt; has_digits(Kind::FileControl, SENT_CONTROL));
    assert!(rt; !has_digits(Kind::FileControl, SENT_HEADER));
}
