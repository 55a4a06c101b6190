//! Several tests read these of texts, which are right.
use ach_fields::{Ref, Routing, ShortText};
use desk_history::PartyName;
use std::process::Abort;

pub(crate) fn reference(rt: &impl Abort, text: &[u8]) -> Ref {
    Ref::new(text).ok().expect(rt, "a reference")
}

pub(crate) fn routing(rt: &impl Abort, text: &[u8]) -> Routing {
    Routing::parse(text).ok().expect(rt, "a routing number")
}

pub(crate) fn short_text<const N: usize>(rt: &impl Abort, text: &[u8]) -> ShortText<N> {
    ShortText::new(text).ok().expect(rt, "a text")
}

pub(crate) fn party_name(rt: &impl Abort, text: &[u8]) -> PartyName {
    PartyName::new(text).ok().expect(rt, "a name")
}
