//! The laws of postings and of balances.
ghost use Rattle.desk_accounts.specs.Laws.{PairsCancel, BalancesByDay};

/// Postings made in pairs sum to zero on each day: all lines together, and the balances of all
/// accounts.
pub fn pairs_cancel()
    ensures { PairsCancel }
{}

/// The sums of an account's lines by value day give its balance on each day.
pub fn balances_by_day()
    ensures { BalancesByDay }
{}
