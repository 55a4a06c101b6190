//! The keys of bodies, each written once.
ghost use Rattle.std.specs.Prelude.{◌≡◌};
ghost use Rattle.http_json.specs.FieldKeys.{key_of};

use desk_rules::Field;

/// Gives the key under which bodies have a field.
pub fn key_of(field: Field) -> &'static str
    ensures { result.now ≡ key_of field }
{
    match field {
        Field::Reference => "ref",
        Field::Sec => "sec",
        Field::Direction => "direction",
        Field::Description => "description",
        Field::Day => "day",
        Field::Entries => "entries",
        Field::Routing => "routing",
        Field::Account => "account",
        Field::Kind => "kind",
        Field::Prenote => "prenote",
        Field::Cents => "cents",
        Field::Id => "id",
        Field::Name => "name",
        Field::Info => "info",
        Field::Of => "of",
        Field::Index => "index",
        Field::Authorized => "authorized",
        Field::Key => "key",
        Field::EntryLimit => "entry_limit",
        Field::CreditLimit => "credit_limit",
        Field::DebitLimit => "debit_limit",
    }
}
