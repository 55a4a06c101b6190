//! What answers messages.
ghost use Rattle.http_session.specs.Exchanges.{AnswersAs};

use http_message::Message;
use std::alloc::Global;

/// Memory was refused, or the answerer could not act.
#[derive(Clone, Copy, PartialEq, Eq, Debug, Drop)]
pub struct Unavailable;

/// What answers messages, such as a desk.
pub trait Answers {
    ghost use Rattle.std.specs.Prelude.{ℕ, List, Option};
    ghost use Rattle.http_message.specs.Message.{MessageValue};

    /// What an answerer represents, such as the messages that it answered with their answers, and those that
    /// it could not answer, of which a crash may have kept one.
    ghost Behind: { Type 0 };

    /// Nothing else acted on what the answerer keeps.
    ghost is_clean: { Self → Type 0 };

    /// The answerer stands for this.
    ghost stands_for: { Self → Behind → Type 0 };

    /// Which answers a message may have, and what each makes of what the answerer represents. A message that
    /// could not be answered makes a step too.
    ghost step: { Behind → MessageValue → Option (List ℕ) → Behind → Type 0 };

    /// The answer to a message, whole with its head. The answerer may keep the message's body.
    fn answer(&mut self, alloc: Global, message: Message<'_>) -> Result<Vec<u8>, Unavailable>
        ensures before { is_clean self.new → is_clean self.old }
        ensures answers { AnswersAs is_clean stands_for step
            self.old self.new message.entry result };
}
