//! A cut decides the held submissions that are due.
ghost use Rattle.std.specs.Prelude.{◌≡◌, if◌then◌else◌};
ghost use Rattle.desk_rules.specs.LimitChecks.{is_debit};
ghost use Rattle.desk_history.specs.State.{is_due};
ghost use Rattle.desk_book.specs.OnCut.{due_submissions};
ghost use Rattle.desk_book.specs.Standing.{is_due_row};

use crate::HeldSubmission;
use bank_days::Calendar;
use desk_rules::{Direction, RuleDay};

// By how many banking days a direction is sent ahead.
fn days_ahead(direction: Direction) -> u8
    ensures value { result ≡ (if is_debit direction then 1 else 2) }
{
    match direction {
        Direction::Credit => 2,
        Direction::Debit => 1,
    }
}

/// Reports whether a submission with this direction, asked for this day, is due on a desk day.
pub fn is_due(direction: Direction, asked: RuleDay, today: RuleDay, holidays: &Calendar) -> bool
    ensures { result ≡ is_due holidays.now today (is_debit direction) asked }
{
    let horizon = holidays.nth_after(today.day(), days_ahead(direction));
    holidays.roll(asked.day()) <= horizon
}

impl HeldSubmission {
    /// Reports whether a cut on a day decides the submission.
    pub fn is_due(&self, today: RuleDay, holidays: &Calendar) -> bool
        ensures { result ≡ is_due_row holidays.now today self.now.row }
    {
        let content = self.row.content.submission();
        is_due(content.direction, content.day, today, holidays)
    }
}

/// Returns those of held submissions that a cut on a day decides, in their order.
pub fn due_among(
    mut held: Vec<HeldSubmission>,
    today: RuleDay,
    holidays: &Calendar,
) -> Vec<HeldSubmission>
    ensures { result.items ≡ due_submissions holidays.now today held.items }
{
    held.retain(|one| one.is_due(today, holidays));
    held
}
