//! Printed records, compared with records from outside.
use super::{CHANGE, INFORMATION};
use crate::formats::worked::{
    ADDENDA, BATCH, BATCH_CONTROL, CONTROL, ENTRY, HEADER, SENT_BATCH, SENT_BATCH_CONTROL,
    SENT_CONTROL, SENT_ENTRY, SENT_HEADER, returned_batch, returned_header, sent_batch,
    sent_header,
};
use ach_fields::{Cents, FieldFault, Trace};
use ach_records::{
    Addenda05Text, BatchControlText, BatchHeaderText, Change98Text, EntryText, FileControlText,
    FileHeaderText, Return99Text, print_addenda05, print_batch_control, print_batch_header,
    print_change98, print_entry, print_file_control, print_file_header, print_filler,
    print_return99,
};

/// A record, or its fault.
type Printed = Result<[u8; 94], FieldFault>;

fn cents_of(amount: u64) -> Result<Cents, FieldFault> {
    Cents::new(amount).ok_or(FieldFault::TooLong)
}

fn file_header(header: &Result<FileHeaderText, FieldFault>) -> Printed {
    let mut record = [0; 94];
    match header {
        Ok(header) => print_file_header(header, &mut record)?,
        Err(fault) => return Err(*fault),
    }
    Ok(record)
}

fn batch_header(header: &Result<BatchHeaderText, FieldFault>) -> Printed {
    let mut record = [0; 94];
    match header {
        Ok(header) => print_batch_header(header, &mut record)?,
        Err(fault) => return Err(*fault),
    }
    Ok(record)
}

#[test]
fn headers(rt: HostRuntime) {
    assert!(rt; file_header(&sent_header()) == Ok(*SENT_HEADER));
    assert!(rt; file_header(&returned_header()) == Ok(*HEADER));
    assert!(rt; batch_header(&sent_batch(1)) == Ok(*SENT_BATCH));
    assert!(rt; batch_header(&returned_batch()) == Ok(*BATCH));
}

fn sent_entry() -> Result<EntryText<'static>, FieldFault> {
    Ok(EntryText {
        transaction: 22,
        dfi: 9_100_001,
        check_digit: 9,
        account: b"123456789",
        cents: cents_of(150_000)?,
        identification: b"E1",
        name: b"ANN LEE",
        has_addenda: false,
        trace: Trace::new(12_104_288, 1)?,
    })
}

fn returned_entry() -> Result<EntryText<'static>, FieldFault> {
    Ok(EntryText {
        transaction: 26,
        dfi: 12_104_288,
        check_digit: 2,
        account: b"123456789",
        cents: cents_of(2_500)?,
        identification: b"E2",
        name: b"BOB RAY",
        has_addenda: true,
        trace: Trace::new(9_100_001, 7)?,
    })
}

fn entry(entry: &Result<EntryText, FieldFault>) -> Printed {
    let mut record = [0; 94];
    match entry {
        Ok(entry) => print_entry(entry, &mut record)?,
        Err(fault) => return Err(*fault),
    }
    Ok(record)
}

#[test]
fn entries(rt: HostRuntime) {
    assert!(rt; entry(&sent_entry()) == Ok(*SENT_ENTRY));
    assert!(rt; entry(&returned_entry()) == Ok(*ENTRY));
}

fn a_return() -> Printed {
    let addenda = Return99Text {
        code: b"R01",
        original_trace: b"121042880000001",
        date_of_death: b"",
        original_dfi: b"09100001",
        information: b"",
        trace: Trace::new(9_100_001, 7)?,
    };
    let mut record = [0; 94];
    print_return99(&addenda, &mut record)?;
    Ok(record)
}

fn change() -> Printed {
    let addenda = Change98Text {
        code: b"C01",
        original_trace: b"121042880000001",
        original_dfi: b"09100001",
        corrected: b"987654321",
        trace: Trace::new(9_100_001, 7)?,
    };
    let mut record = [0; 94];
    print_change98(&addenda, &mut record)?;
    Ok(record)
}

fn information() -> Printed {
    let addenda = Addenda05Text {
        information: b"INVOICE 7 AND 8",
        trace: Trace::new(12_104_288, 1)?,
    };
    let mut record = [0; 94];
    print_addenda05(&addenda, &mut record)?;
    Ok(record)
}

#[test]
fn addenda(rt: HostRuntime) {
    assert!(rt; a_return() == Ok(*ADDENDA));
    assert!(rt; change() == Ok(*CHANGE));
    assert!(rt; information() == Ok(*INFORMATION));
}

fn batch_control(
    service_class: u16,
    count: u64,
    hash: u64,
    [debits, credits]: [u64; 2],
    odfi: u32,
) -> Printed {
    let control = BatchControlText {
        service_class,
        count,
        hash,
        debits: cents_of(debits)?,
        credits: cents_of(credits)?,
        company: b"MILL01",
        odfi,
        number: 1,
    };
    let mut record = [0; 94];
    print_batch_control(&control, &mut record)?;
    Ok(record)
}

fn file_control(count: u64, hash: u64, [debits, credits]: [u64; 2]) -> Printed {
    let control = FileControlText {
        batches: 1,
        blocks: 1,
        count,
        hash,
        debits: cents_of(debits)?,
        credits: cents_of(credits)?,
    };
    let mut record = [0; 94];
    print_file_control(&control, &mut record)?;
    Ok(record)
}

#[test]
fn controls(rt: HostRuntime) {
    let sent = batch_control(220, 1, 9_100_001, [0, 150_000], 12_104_288);
    assert!(rt; sent == Ok(*SENT_BATCH_CONTROL));
    let returned = batch_control(225, 2, 12_104_288, [2_500, 0], 9_100_001);
    assert!(rt; returned == Ok(*BATCH_CONTROL));
    assert!(rt; file_control(1, 9_100_001, [0, 150_000]) == Ok(*SENT_CONTROL));
    assert!(rt; file_control(2, 12_104_288, [2_500, 0]) == Ok(*CONTROL));
}

#[test]
fn fillers(rt: HostRuntime) {
    let mut record = [0; 94];
    print_filler(&mut record);
    assert!(rt; record == [b'9'; 94]);
}
