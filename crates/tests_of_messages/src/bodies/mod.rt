//! Several tests compare bodies, and take these days, references and lists.
mod commands;
mod company;
mod files;
mod operator;
mod refusals;

use ach_fields::{Cents, Ref};
use bank_days::Day;
use desk_history::{Answer, ListOf, Outcome};
use http_answers::{BODY_ROOM, write_answer};
use std::alloc::Global;
use std::process::Abort;

/// Returns the body of an answer, after one byte that was already there.
fn body_of(rt: &(impl Abort + Alloc<A = Global>), answer: Answer) -> Vec<u8> {
    let mut text = Vec::with_capacity(rt.alloc(), 1 + BODY_ROOM).expect(rt, "memory");
    text.push(b'>').expect(rt, "memory");
    assert!(rt; text.capacity() - text.len() >= BODY_ROOM);
    write_answer(rt.alloc(), &mut text, answer).expect(rt, "memory");
    text
}

/// Checks the body of an outcome.
fn says(rt: &(impl Abort + Alloc<A = Global>), outcome: Outcome, body: &[u8]) {
    let text = body_of(rt, Answer::Done(outcome));
    assert!(rt; text.as_slice() == body);
}

fn day(rt: &impl Abort, text: &[u8]) -> Day {
    Day::read(text).expect(rt, "a day")
}

fn reference(rt: &impl Abort, text: &[u8]) -> Ref {
    Ref::new(text).expect(rt, "a reference")
}

fn cents(rt: &impl Abort, cents: u64) -> Cents {
    Cents::new(cents).expect(rt, "cents")
}

fn list<T: Copy>(rt: &(impl Abort + Alloc<A = Global>), items: &[T]) -> ListOf<T> {
    ListOf::new(Vec::from_slice(rt.alloc(), items).expect(rt, "memory"))
}
