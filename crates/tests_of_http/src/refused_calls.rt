//! The days again, with each call of the store refused in turn.
use crate::exchanges::{UNAVAILABLE, add_request, add_response, http_desk, run};
use crate::samples::{Exchange, new_lists};
use crate::settlements::DAYS;
use desk_core::{FaultyStore, Store};
use desk_http::HttpDesk;
use std::alloc::Global;
use std::process::Abort;

/// The script makes fewer calls of the store.
const MOST_CALLS: u64 = 1_000;

// Sends one message in a session of its own: is it answered as it has to be? It may be answered 503.
fn is_answered<S: Store>(
    rt: &(impl Abort + Alloc<A = Global>),
    desk: &mut HttpDesk<S>,
    exchange: &Exchange,
) -> bool {
    let (asks, body, status, answer) = exchange;
    let mut input = Vec::new(rt.alloc());
    add_request(rt, &mut input, asks, body);
    let out = run(rt, desk, &input);
    if out.as_slice() == UNAVAILABLE {
        return false;
    }
    let mut wanted = Vec::new(rt.alloc());
    add_response(rt, &mut wanted, asks, status, answer);
    assert!(rt; out.as_slice() == wanted.as_slice());
    true
}

// How many messages were answered 503, and then, sent again, as they have to be.
fn refused_messages(rt: &(impl Abort + Alloc<A = Global>), call: u64) -> u64 {
    let mut desk = http_desk(rt, FaultyStore::new(new_lists(rt), call));
    let mut refused: u64 = 0;
    for exchange in DAYS {
        if !is_answered(rt, &mut desk, exchange) {
            refused = refused.saturating_add(1);
            assert!(rt; is_answered(rt, &mut desk, exchange));
        }
    }
    refused
}

#[test]
fn a_message_that_was_refused_may_come_again(rt: HostRuntime) {
    for call in 1..MOST_CALLS {
        let refused = refused_messages(&rt, call);
        if refused == 0 {
            // Each of the 14 messages asks the store for a key at least.
            assert!(rt; call > 14);
            return;
        }
        assert!(rt; refused == 1);
    }
    assert!(rt; false, "the script makes more calls of the store");
}
