//! The library in use, as docs/integrate/library.md shows it.
use ach_fields::{FieldFault, Id, Routing};
use desk_core::{Answer, Call, Desk, Identity, ListStore, Outcome, PartyName, StoreFault};
use http_json::{company_draft, day_draft, read_object, submission_draft};
use json::{Scratch, Value};
use std::alloc::{AllocError, Global};
use std::io;

const OPERATOR_DIGEST: [u8; 32] = [7; 32];

const COMPANY_DIGEST: [u8; 32] = [1; 32];

const COMPANY: &[u8] =
    b"{\"id\":\"MILL01\",\"name\":\"MILL STREET\",\"key\":\"mill-street-key\",\"entry_limit\":9999999999,\"credit_limit\":999999999999999,\"debit_limit\":999999999999999}";

const DAY: &[u8] = b"{\"day\":\"2025-01-08\"}";

/// What the desk is asked: JSON objects, which borrow their texts.
#[derive(Drop)]
struct Bodies<'a> {
    company: Value<'a>,
    day: Value<'a>,
    pay: Value<'a>,
}

/// The memory for the texts of three bodies that have escapes.
#[derive(Drop)]
struct Scratches {
    company: Scratch,
    day: Scratch,
    pay: Scratch,
}

/// Prints what the cut sent that comes after the pay run with this body.
pub(crate) fn show(rt: &HostRuntime, pay: &[u8]) -> io::Result<()> {
    let (Ok(identity), Ok(mill)) = (sample_identity(), Id::new(b"MILL01")) else {
        return println!(rt; "the sample has no identity");
    };
    let mut scratches = Scratches {
        company: Scratch::new(rt.alloc()),
        day: Scratch::new(rt.alloc()),
        pay: Scratch::new(rt.alloc()),
    };
    let Some(bodies) = bodies_with(rt.alloc(), pay, &mut scratches)? else {
        return println!(rt; "a body is no object");
    };
    match send_pay_run(rt.alloc(), identity, mill, &bodies) {
        Ok(Answer::Done(Outcome::Cut(cut))) => println!(rt; "entries sent: {}", cut.entries),
        Ok(_) => println!(rt; "nothing was sent"),
        Err(StoreFault::Unavailable) => println!(rt; "unavailable"),
    }
}

fn bodies_with<'a>(
    alloc: Global,
    pay: &'a [u8],
    scratches: &'a mut Scratches,
) -> Result<Option<Bodies<'a>>, AllocError> {
    let company = read_object(alloc, COMPANY, &mut scratches.company)?;
    let day = read_object(alloc, DAY, &mut scratches.day)?;
    let pay = read_object(alloc, pay, &mut scratches.pay)?;
    match (company, day, pay) {
        (Some(company), Some(day), Some(pay)) => Ok(Some(Bodies { company, day, pay })),
        _ => Ok(None),
    }
}

fn sample_identity() -> Result<Identity, FieldFault> {
    Ok(Identity {
        odfi: Routing::parse(b"121042882")?,
        odfi_name: PartyName::new(b"OUR BANK")?,
        destination: Routing::parse(b"061000146")?,
        destination_name: PartyName::new(b"ACH OPERATOR")?,
    })
}

// A desk, a company and its pay run: the answer to it where it is refused, else to the cut that sends it.
fn send_pay_run(
    alloc: Global,
    identity: Identity,
    mill: Id,
    bodies: &Bodies<'_>,
) -> Result<Answer, StoreFault> {
    let store = ListStore::new(alloc, identity, OPERATOR_DIGEST);
    let mut desk = Desk::new(store);
    let day = day_draft(alloc, &bodies.day)?;
    desk.apply(alloc, Call::SetDay(day))?;
    let company = company_draft(alloc, &bodies.company, COMPANY_DIGEST)?;
    desk.apply(alloc, Call::PutCompany(company))?;
    let pay = submission_draft(alloc, &bodies.pay)?;
    match desk.apply(alloc, Call::Submit(mill, pay))? {
        Answer::Done(_) => desk.apply(alloc, Call::Cut),
        Answer::Refused(refusal) => Ok(Answer::Refused(refusal)),
    }
}
