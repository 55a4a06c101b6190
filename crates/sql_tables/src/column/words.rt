//! Words stand in columns as the texts that bodies have for them.
ghost use Rattle.std.specs.Prelude.{◌≡◌, ⊤};
ghost use Rattle.sqlite.specs.Values.{bound_value};
ghost use Rattle.sqlite_value.specs.Value.{owned};
ghost use Rattle.sqlite_value.specs.declared.value.Value.TheVariants.{Text};
ghost use Rattle.desk_history.specs.Resolve.{is_savings};
ghost use Rattle.desk_rules.specs.Fields.{sec_text};
ghost use Rattle.sql_tables.specs.Columns.{flag, direction_text, cause_text, reason_text};

use super::{FromColumn, characters, is_text};
use desk_accounts::Cause;
use desk_history::SuspenseReason;
use desk_rules::{AccountKind, Direction, SecCode};
use sqlite::types::ValueRef;

impl FromColumn for SecCode {
    ghost stored = { λ s. Text (sec_text s) };

    ghost fits = { λ _. ⊤ };

    fn from_column(value: ValueRef<'_>) -> Option<SecCode> {
        if is_text(value, b"PPD") {
            return Some(SecCode::Ppd);
        }
        if is_text(value, b"CCD") {
            return Some(SecCode::Ccd);
        }
        None
    }
}

impl FromColumn for Direction {
    ghost stored = { λ d. Text (direction_text d) };

    ghost fits = { λ _. ⊤ };

    fn from_column(value: ValueRef<'_>) -> Option<Direction> {
        if is_text(value, b"credit") {
            return Some(Direction::Credit);
        }
        if is_text(value, b"debit") {
            return Some(Direction::Debit);
        }
        None
    }
}

/// Gives a direction, as a column has it.
pub fn direction<'a>(direction: Direction) -> ValueRef<'a>
    ensures { bound_value (owned result) ≡ Text (direction_text direction) }
{
    match direction {
        Direction::Credit => characters(b"credit"),
        Direction::Debit => characters(b"debit"),
    }
}

impl FromColumn for AccountKind {
    ghost stored = { λ k. flag (is_savings k) };

    ghost fits = { λ _. ⊤ };

    fn from_column(value: ValueRef<'_>) -> Option<AccountKind> {
        if bool::from_column(value)? {
            Some(AccountKind::Savings)
        } else {
            Some(AccountKind::Checking)
        }
    }
}

/// Gives the kind of an account, as a column has it: is it a savings account?
pub fn savings<'a>(kind: AccountKind) -> ValueRef<'a>
    ensures { bound_value (owned result) ≡ flag (is_savings kind) }
{
    match kind {
        AccountKind::Checking => sql_statements::number(0),
        AccountKind::Savings => sql_statements::number(1),
    }
}

impl FromColumn for Cause {
    ghost stored = { λ c. Text (cause_text c) };

    ghost fits = { λ _. ⊤ };

    fn from_column(value: ValueRef<'_>) -> Option<Cause> {
        if is_text(value, b"cut") {
            return Some(Cause::Cut);
        }
        if is_text(value, b"return") {
            return Some(Cause::Return);
        }
        None
    }
}

/// Gives the cause of a line, as a column has it.
pub fn cause<'a>(cause: Cause) -> ValueRef<'a>
    ensures { bound_value (owned result) ≡ Text (cause_text cause) }
{
    match cause {
        Cause::Cut => characters(b"cut"),
        Cause::Return => characters(b"return"),
    }
}

impl FromColumn for SuspenseReason {
    ghost stored = { λ r. Text (reason_text r) };

    ghost fits = { λ _. ⊤ };

    fn from_column(value: ValueRef<'_>) -> Option<SuspenseReason> {
        if is_text(value, b"NoTrace") {
            return Some(SuspenseReason::NoTrace);
        }
        if is_text(value, b"Differs") {
            return Some(SuspenseReason::Differs);
        }
        if is_text(value, b"CodeOutside") {
            return Some(SuspenseReason::CodeOutside);
        }
        if is_text(value, b"AlreadyReturned") {
            return Some(SuspenseReason::AlreadyReturned);
        }
        None
    }
}

/// Gives the reason of an item in suspense, as a column has it.
pub fn reason<'a>(reason: SuspenseReason) -> ValueRef<'a>
    ensures { bound_value (owned result) ≡ Text (reason_text reason) }
{
    match reason {
        SuspenseReason::NoTrace => characters(b"NoTrace"),
        SuspenseReason::Differs => characters(b"Differs"),
        SuspenseReason::CodeOutside => characters(b"CodeOutside"),
        SuspenseReason::AlreadyReturned => characters(b"AlreadyReturned"),
    }
}
