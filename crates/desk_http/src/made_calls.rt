//! A call, made and answered in bytes.
ghost use Rattle.std.specs.Prelude.{◌≡◌};
ghost use Rattle.desk_http.specs.Promises.{CallGoes, CallLeaves};

use crate::print::print_answer;
use desk_calls::Desk;
use desk_history::Call;
use desk_store::Store;
use http_answers::{BODY_ROOM, kind_of_call};
use http_response::take_room;
use http_session::Unavailable;
use std::alloc::Global;

/// Makes the call, and gives the bytes of its answer. Room for what a command did is taken before the
/// call, so that what was written is answered.
pub(crate) fn carry_out<S: Store>(
    alloc: Global,
    desk: &mut Desk<S>,
    call: Call,
    closes: bool,
) -> Result<Vec<u8>, Unavailable>
    ensures before { S.is_clean desk.new → S.is_clean desk.old }
    ensures goes { CallGoes S.Store desk.old desk.new call closes result }
    ensures left { CallLeaves S.Store desk.old desk.new call result }
{
    desk_book::book_tells();
    desk_book::reads_leave();
    http_answers::one_kind();
    let kind = kind_of_call(&call);
    let Ok(body) = Vec::with_capacity(alloc, BODY_ROOM) else {
        return Err(Unavailable);
    };
    let Ok(out) = take_room(alloc) else {
        return Err(Unavailable);
    };
    match desk.apply(alloc, call) {
        Ok(answer) => match print_answer(alloc, body, out, kind, closes, answer) {
            Ok(bytes) => Ok(bytes),
            Err(_) => Err(Unavailable),
        },
        Err(_) => Err(Unavailable),
    }
}
