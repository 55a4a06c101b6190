//! Laws of the rules: statements about their definitions.
ghost use Rattle.desk_rules.specs.Laws.{CountedDeadlines, FirstRefusals, SameContents};
ghost use Rattle.desk_rules.specs.RatedFacts.{RatedFactsSuffice};

/// A deadline is counted in banking days from the settlement, or from the sixtieth day after it.
pub fn counted_deadlines()
    ensures { CountedDeadlines }
{
    bank_days::nth_banking_days();
}

/// A list of refusals with their conditions gives the one whose condition holds and none before it;
/// it gives none where none holds.
pub fn first_refusals()
    ensures { FirstRefusals }
{}

/// Two submissions have the same content exactly where they are equal; two retries have it where
/// they name the same entry, for the same day and with the same authorization.
pub fn same_contents()
    ensures { SameContents }
{}

/// Return rates read what lies in their window: they are those of the live debits that settled in
/// it, or whose return was taken in it.
pub fn rated_facts_suffice()
    ensures { RatedFactsSuffice }
{}
