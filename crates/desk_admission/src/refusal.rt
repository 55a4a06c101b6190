//! A call is refused by this answer.
ghost use Rattle.std.specs.Prelude.{◌≡◌};
ghost use Rattle.desk_history.specs.declared.answer.Answer.TheVariants.{Refused};
ghost use Rattle.desk_history.specs.declared.answer.CallRefusal.TheVariants.{Rule};

use desk_history::{Answer, CallRefusal};
use desk_rules::Refusal;

/// Refuses a call by a rule of the desk.
pub fn refuse(why: Refusal) -> Answer
    ensures { result ≡ Refused (Rule why) }
{
    Answer::Refused(CallRefusal::Rule(why))
}
