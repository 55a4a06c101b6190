//! The body of a file that was taken.
ghost use Rattle.std.specs.Prelude.{◌≤◌, ◌+◌, vec_len, vec_capacity};
ghost use Rattle.http_json.specs.Gains.{GainsValue};
ghost use Rattle.http_answers.specs.Operator.{intake_body};

use desk_history::Intake;
use http_json::{put, put_number, put_text};

/// Appends the body of a file that was taken.
pub(crate) fn put_intake(text: &mut Vec<u8>, intake: &Intake)
    requires { vec_len text.old + 640 ≤ vec_capacity text.old }
    ensures items { GainsValue text.old text.new (intake_body intake.now) }
    ensures len { vec_len text.new ≤ vec_len text.old + 640 }
{
    put(text, b"{");
    put_number(text, false, b"changes", intake.changes);
    put_text(text, true, b"day", &intake.day.text());
    put_number(text, true, b"late", intake.late);
    put_number(text, true, b"returns", intake.returns);
    put_number(text, true, b"suspense", intake.suspense);
    put(text, b"}");
}
