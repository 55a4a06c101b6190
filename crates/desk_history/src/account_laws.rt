//! The laws of postings and accounts.
ghost use Rattle.desk_history.specs.PostingLaws.{AccountsCancel};

/// Each line of a company or of suspense has its opposite on the operator's account right after it,
/// so that on each day all lines sum to zero, and so do the balances of all accounts.
pub fn accounts_cancel()
    ensures { AccountsCancel }
{
    desk_accounts::pairs_cancel();
}
