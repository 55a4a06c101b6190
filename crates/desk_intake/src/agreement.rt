//! Is an item of the entry that its trace names?
ghost use Rattle.std.specs.Prelude.{◌≡◌, ◌==◌, if◌then◌else◌, codes, true};
ghost use Rattle.desk_history.specs.Resolve.{agrees, is_change_code, is_return, is_savings, receiving_dfi, returned_transaction};
ghost use Rattle.desk_rules.specs.Fields.{sec_text};

use ach_files::{ItemFacts, ReturnOrChange};
use desk_history::SentEntry;
use desk_rules::AccountKind;

/// Is it a return, and no change?
pub(crate) fn is_return(item: &ItemFacts) -> bool
    ensures { result ≡ is_return item.now }
{
    match item.return_or_change {
        ReturnOrChange::Return(_) => true,
        ReturnOrChange::Change(_) => false,
    }
}

// The SEC code of a batch of changes is COR.
fn batch_sec(entry: &SentEntry, item: &ItemFacts) -> [u8; 3]
    ensures { result ≡ (if is_return item.now then sec_text entry.now.sec else codes "COR") }
{
    if is_return(item) {
        *entry.sec.text()
    } else {
        *b"COR"
    }
}

fn is_savings(kind: AccountKind) -> bool
    ensures { result ≡ is_savings kind }
{
    kind == AccountKind::Savings
}

fn returned_transaction(entry: &SentEntry) -> u8
    ensures { result ≡ returned_transaction entry.now }
{
    let account = if is_savings(entry.entry.kind) { 31 } else { 21 };
    let direction = if entry.debit { 5 } else { 0 };
    account + direction
}

fn receiving_dfi(entry: &SentEntry) -> [u8; 8]
    ensures { result ≡ receiving_dfi entry.now }
{
    let [a, b, c, d, e, f, g, h, _check] = entry.entry.routing.text();
    [a, b, c, d, e, f, g, h]
}

// A change moves no money, so only a return has the entry's amount.
fn has_amount(entry: &SentEntry, item: &ItemFacts) -> bool
    ensures { result ≡
        (if is_return item.now then item.now.cents == entry.now.entry.cents else true) }
{
    if is_return(item) {
        item.cents == entry.entry.cents.as_cents()
    } else {
        true
    }
}

/// Do SEC code, transaction code, receiving bank and, for a return, the amount agree?
pub(crate) fn agrees(entry: &SentEntry, item: &ItemFacts) -> bool
    ensures { result ≡ agrees entry.now item.now }
{
    item.sec_code == batch_sec(entry, item)
        && item.transaction_code == returned_transaction(entry)
        && item.original_dfi == receiving_dfi(entry)
        && has_amount(entry, item)
}

/// Is it C01 to C14?
pub(crate) fn is_change_code(code: &[u8; 3]) -> bool
    ensures { result ≡ is_change_code code.now }
{
    let [c, tens, ones] = *code;
    if c != b'C' || !tens.is_ascii_digit() || !ones.is_ascii_digit() {
        return false;
    }
    let number = 10 * (tens - b'0') + (ones - b'0');
    number >= 1 && number <= 14
}
