//! The text of an account is kept in the value itself, since a transaction has no allocator.
ghost use Rattle.std.specs.Prelude.{◌≡◌};
ghost use Rattle.sql_tables.specs.Columns.{account_text as text_of};

use arrayvec::ArrayVec;
use desk_accounts::Account;

/// The longest text of an account has so many characters: two before an identification of ten.
pub const MOST_ACCOUNT_CHARACTERS: usize = 12;

/// An `AccountText` has the characters of the text of an account.
pub type AccountText = ArrayVec<u8, MOST_ACCOUNT_CHARACTERS>;

/// Gives the text of an account.
pub fn account_text(account: &Account) -> AccountText
    ensures { result.items ≡ text_of account.now }
{
    let mut text = ArrayVec::new();
    match account {
        Account::Company(id) => {
            text.try_extend_from_slice(b"C:").unwrap();
            text.try_extend_from_slice(id.bytes()).unwrap();
        }
        Account::Operator => text.push(b'O'),
        Account::Suspense => text.push(b'S'),
    }
    text
}
