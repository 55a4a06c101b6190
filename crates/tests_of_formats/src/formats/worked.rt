//! Banks exchange two files: one has entries, and the other a return that answers one. Their
//! records are as the layouts prescribe, and their headers have these values.
use ach_fields::{FieldFault, Routing, Ymd};
use ach_records::{BatchHeaderText, FileHeaderText};

pub const SENT_HEADER: &[u8; 94] =
    b"101 061000146 121042882250108    A094101ACH OPERATOR           OUR BANK                       ";

pub const SENT_BATCH: &[u8; 94] =
    b"5220MILL STREET                         MILL01    PPDPAYROLL         250110   1121042880000001";

pub const SENT_ENTRY: &[u8; 94] =
    b"622091000019123456789        0000150000E1             ANN LEE                 0121042880000001";

pub const SENT_BATCH_CONTROL: &[u8; 94] =
    b"82200000010009100001000000000000000000150000MILL01                             121042880000001";

pub const SENT_CONTROL: &[u8; 94] =
    b"9000001000001000000010009100001000000000000000000150000                                       ";

/// This file is sent, with one payment to an employee. Fillers follow.
pub const SENT: [&[u8; 94]; 5] = [
    SENT_HEADER,
    SENT_BATCH,
    SENT_ENTRY,
    SENT_BATCH_CONTROL,
    SENT_CONTROL,
];

pub const HEADER: &[u8; 94] =
    b"101 121042882 0610001462501140930A094101OUR BANK               ACH OPERATOR                   ";

pub const BATCH: &[u8; 94] =
    b"5225MILL STREET                         MILL01    PPDDUES            2501140141091000010000001";

pub const ENTRY: &[u8; 94] =
    b"626121042882123456789        0000002500E2             BOB RAY                 1091000010000007";

pub const ADDENDA: &[u8; 94] =
    b"799R01121042880000001      09100001                                            091000010000007";

pub const BATCH_CONTROL: &[u8; 94] =
    b"82250000020012104288000000002500000000000000MILL01                             091000010000001";

pub const CONTROL: &[u8; 94] =
    b"9000001000001000000020012104288000000002500000000000000                                       ";

/// This file comes in, with a debit that the bank of the payer returns. Fillers follow.
pub const RETURNED: [&[u8; 94]; 6] = [HEADER, BATCH, ENTRY, ADDENDA, BATCH_CONTROL, CONTROL];

/// One such record fills a line of the last block.
pub const FILLER: &[u8; 94] = &[b'9'; 94];

// A bank that files come from or go to.
struct Bank {
    routing: &'static [u8],
    name: &'static [u8],
}

const OPERATOR: Bank = Bank {
    routing: b"061000146",
    name: b"ACH OPERATOR",
};

const OUR_BANK: Bank = Bank {
    routing: b"121042882",
    name: b"OUR BANK",
};

fn file_header(
    destination: &Bank,
    origin: &Bank,
    day: u8,
    time: Option<u16>,
) -> Result<FileHeaderText<'static>, FieldFault> {
    Ok(FileHeaderText {
        destination: Routing::parse(destination.routing)?,
        origin: Routing::parse(origin.routing)?,
        date: Ymd::new(25, 1, day)?,
        time,
        modifier: b"A",
        destination_name: destination.name,
        origin_name: origin.name,
    })
}

/// Gives what the header of the file that is sent says.
pub fn sent_header() -> Result<FileHeaderText<'static>, FieldFault> {
    file_header(&OPERATOR, &OUR_BANK, 8, None)
}

/// Gives what the header of the file that comes in says.
pub fn returned_header() -> Result<FileHeaderText<'static>, FieldFault> {
    file_header(&OUR_BANK, &OPERATOR, 14, Some(930))
}

/// Gives what the header of the batch that is sent says, with this number.
pub fn sent_batch(number: u32) -> Result<BatchHeaderText<'static>, FieldFault> {
    Ok(BatchHeaderText {
        service_class: 220,
        company_name: b"MILL STREET",
        company: b"MILL01",
        sec: b"PPD",
        description: b"PAYROLL",
        effective: Ymd::new(25, 1, 10)?,
        settlement: None,
        odfi: 12_104_288,
        number,
    })
}

/// Gives what the header of the batch that comes in says.
pub fn returned_batch() -> Result<BatchHeaderText<'static>, FieldFault> {
    Ok(BatchHeaderText {
        service_class: 225,
        company_name: b"MILL STREET",
        company: b"MILL01",
        sec: b"PPD",
        description: b"DUES",
        effective: Ymd::new(25, 1, 14)?,
        settlement: Some(14),
        odfi: 9_100_001,
        number: 1,
    })
}
