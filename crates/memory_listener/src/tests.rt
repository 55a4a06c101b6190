//! Clients in memory get their answers.
use crate::clients::Clients;
use crate::serving::serve_clients;
use http_message::Message;
use http_session::{Answers, ServeFault, Unavailable};
use std::alloc::Global;
use std::process::Abort;

/// Answers each message with the same bytes.
#[derive(Drop)]
struct Fixed {
    answered: u64,
}

const ANSWER: &[u8] = b"HTTP/1.1 204 No Content\r\n\r\n";

impl Answers for Fixed {
    ghost use Rattle.std.specs.Prelude.{⊤};

    ghost Behind = { ⊤ };

    ghost is_clean = { λ _. ⊤ };

    ghost stands_for = { λ _ _. ⊤ };

    ghost step = { λ _ _ _ _. ⊤ };

    fn answer(&mut self, alloc: Global, _message: Message<'_>) -> Result<Vec<u8>, Unavailable> {
        self.answered = self.answered.saturating_add(1);
        let mut bytes = Vec::new(alloc);
        match bytes.extend_from_slice(ANSWER) {
            Ok(()) => Ok(bytes),
            Err(_) => Err(Unavailable),
        }
    }
}

const KEPT: &[u8] = b"GET /a HTTP/1.1\r\n\r\n";

const TWICE: &[u8] =
    b"GET /a HTTP/1.1\r\n\r\nGET /b HTTP/1.1\r\nConnection: close\r\n\r\nGET /c HTTP/1.1\r\n\r\n";

const CUT: &[u8] = b"GET /a HTT";

#[test]
fn each_client_gets_its_answers(rt: HostRuntime) {
    let mut desk = Fixed { answered: 0 };
    let waiting = [KEPT, TWICE, CUT];
    let mut clients = Clients::new(rt.alloc(), &waiting);
    assert!(&rt; serve_clients(rt.alloc(), &mut desk, &mut clients, 3) == Ok(()));
    assert!(&rt; desk.answered == 3);
    assert!(&rt; clients.closed.len() == 3);
    assert!(&rt; clients.closed[0].got.as_slice() == ANSWER);
    assert!(&rt; clients.closed[1].got.len() == 2 * ANSWER.len());
    assert!(&rt; clients.closed[2].got.is_empty());
}

#[test]
fn a_client_that_does_not_come_is_reported(rt: HostRuntime) {
    let mut desk = Fixed { answered: 0 };
    let waiting = [KEPT];
    let mut clients = Clients::new(rt.alloc(), &waiting);
    assert!(&rt;
        serve_clients(rt.alloc(), &mut desk, &mut clients, 2) == Err(ServeFault::Accept(1))
    );
    assert!(&rt; desk.answered == 1);
}
