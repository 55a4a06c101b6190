//! Several tests read these of texts and numbers, which are right.
use ach_fields::{Cents, Id, Ref, Routing, ShortText};
use bank_days::Day;
use desk_history::{Identity, PartyName};
use desk_rules::RuleDay;
use std::process::Abort;

pub(crate) fn day(rt: &impl Abort, text: &[u8]) -> Day {
    Day::read(text).expect(rt, "a day")
}

pub(crate) fn rule_day(rt: &impl Abort, text: &[u8]) -> RuleDay {
    RuleDay::read(text).expect(rt, "a day")
}

pub(crate) fn cents(rt: &impl Abort, amount: u64) -> Cents {
    Cents::new(amount).expect(rt, "an amount")
}

pub(crate) fn id(rt: &impl Abort, text: &[u8]) -> Id {
    Id::new(text).ok().expect(rt, "an identification")
}

pub(crate) fn reference(rt: &impl Abort, text: &[u8]) -> Ref {
    Ref::new(text).ok().expect(rt, "a reference")
}

pub(crate) fn routing(rt: &impl Abort, text: &[u8]) -> Routing {
    Routing::parse(text).ok().expect(rt, "a routing number")
}

pub(crate) fn short_text<const N: usize>(rt: &impl Abort, text: &[u8]) -> ShortText<N> {
    ShortText::new(text).ok().expect(rt, "a text")
}

fn party_name(rt: &impl Abort, text: &[u8]) -> PartyName {
    PartyName::new(text).ok().expect(rt, "a name")
}

pub(crate) fn mill(rt: &impl Abort) -> Id {
    Id::new(b"MILL01").ok().expect(rt, "an identification")
}

pub(crate) fn identity(rt: &impl Abort) -> Identity {
    Identity {
        odfi: routing(rt, b"121042882"),
        odfi_name: party_name(rt, b"OUR BANK"),
        destination: routing(rt, b"061000146"),
        destination_name: party_name(rt, b"ACH OPERATOR"),
    }
}
