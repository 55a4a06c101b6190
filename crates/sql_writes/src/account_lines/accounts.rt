//! Rows keep copies of an account's text, as a value that has the text within it.
ghost use Rattle.std.specs.Prelude.{◌≡◌, IfOk};
ghost use Rattle.sql_tables.specs.Columns.{account_text as text_of};

use ach_fields::ShortText;
use desk_accounts::Account;
use sql_tables::{MOST_ACCOUNT_CHARACTERS, account_text};
use sqlite::Error;

/// Gives the text of an account as a value that rows keep copies of. `Error::InvalidQuery` says that it
/// is no text.
pub(crate) fn short_account_text(
    account: &Account,
) -> Result<ShortText<MOST_ACCOUNT_CHARACTERS>, Error>
    ensures { IfOk result (λ text. text ≡ text_of account.now) }
{
    let text = account_text(account);
    match ShortText::new(text.as_slice()) {
        Ok(text) => Ok(text),
        Err(_) => Err(Error::InvalidQuery),
    }
}
