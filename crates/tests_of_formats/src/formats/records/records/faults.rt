//! The first fault of records that were changed, and of fields that have no text.
use super::INFORMATION;
use crate::formats::worked::{
    ADDENDA, SENT_BATCH_CONTROL, SENT_CONTROL, SENT_ENTRY, SENT_HEADER, sent_batch,
};
use ach_fields::{FieldFault, Ymd};
use ach_records::{BatchHeaderText, RecordFault, print_batch_header, view};

/// Records, the bytes put at offsets from 0, and the first fault.
const CHANGES: &[(&[u8; 94], &[(usize, u8)], Option<RecordFault>)] = &[
    (SENT_ENTRY, &[(0, b'2')], Some(RecordFault::BadType)),
    (SENT_ENTRY, &[(0, b'7')], Some(RecordFault::BadAddendaType)),
    (SENT_ENTRY, &[(1, b' ')], Some(RecordFault::BadNumber(2))),
    (SENT_ENTRY, &[(10, b'X')], Some(RecordFault::BadNumber(11))),
    (SENT_ENTRY, &[(11, b'X')], None),
    (SENT_ENTRY, &[(28, b'X')], None),
    (SENT_ENTRY, &[(29, b' ')], Some(RecordFault::BadNumber(30))),
    (SENT_ENTRY, &[(38, b'-')], Some(RecordFault::BadNumber(39))),
    (SENT_ENTRY, &[(93, 0x7f)], Some(RecordFault::BadByte(94))),
    (ADDENDA, &[(2, b'7')], Some(RecordFault::BadAddendaType)),
    (INFORMATION, &[(93, b' ')], Some(RecordFault::BadNumber(94))),
    (
        SENT_BATCH_CONTROL,
        &[(43, b' ')],
        Some(RecordFault::BadNumber(44)),
    ),
    (
        SENT_CONTROL,
        &[(54, b' ')],
        Some(RecordFault::BadNumber(55)),
    ),
    (SENT_CONTROL, &[(55, b'X')], None),
    // Of several faults the first is reported.
    (
        SENT_ENTRY,
        &[(38, b'-'), (3, b'-')],
        Some(RecordFault::BadNumber(4)),
    ),
    (
        SENT_ENTRY,
        &[(38, b'-'), (3, b'-'), (0, b'2')],
        Some(RecordFault::BadType),
    ),
    (
        SENT_ENTRY,
        &[(38, b'-'), (3, b'-'), (0, b'2'), (93, 0x80), (40, b'\n')],
        Some(RecordFault::BadByte(41)),
    ),
];

fn changed(record: &[u8; 94], changes: &[(usize, u8)]) -> [u8; 94] {
    let mut text = *record;
    for &(at, byte) in changes {
        if let Some(place) = text.get_mut(at) {
            *place = byte;
        }
    }
    text
}

#[test]
fn first_faults(rt: HostRuntime) {
    for (row, &(record, changes, fault)) in CHANGES.iter().enumerate() {
        assert!(rt; view(&changed(record, changes)).err() == fault, "row {row}");
    }
}

/// Names of a company before a company identification with an LF, and the first fault.
const NAMES: &[(&[u8], FieldFault)] = &[
    (b"A NAME OF SEVENTEEN", FieldFault::TooLong),
    (b"MILL STREET", FieldFault::NotText),
];

fn print_onto(record: &mut [u8; 94], company_name: &[u8]) -> Result<(), FieldFault> {
    let header = BatchHeaderText {
        service_class: 220,
        company_name,
        company: b"MILL01\n",
        sec: b"PPD",
        description: b"PAYROLL",
        effective: Ymd::parse(b"250110")?,
        settlement: None,
        odfi: 12_104_288,
        number: 1,
    };
    print_batch_header(&header, record)
}

#[test]
fn a_refusal_leaves_the_record(rt: HostRuntime) {
    let mut record = *SENT_HEADER;
    for &(name, fault) in NAMES {
        assert!(rt; print_onto(&mut record, name) == Err(fault));
        assert!(rt; &record == SENT_HEADER);
    }
}

const FAULTS: &[(RecordFault, u8)] = &[
    (RecordFault::BadType, 1),
    (RecordFault::BadAddendaType, 2),
    (RecordFault::BadNumber(5), 3),
    (RecordFault::BadByte(5), 4),
];

#[test]
fn fault_numbers(rt: HostRuntime) {
    for &(fault, number) in FAULTS {
        assert!(rt; fault.number() == number);
    }
}
