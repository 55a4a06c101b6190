//! Two schemas of plain tables are told to be the same.
ghost use Rattle.std.specs.Prelude.{◌≡◌, ◌↔◌, [], ⊤, IsTrue, None};
ghost use Rattle.std.specs.List.{AllByRecursion};
ghost use Rattle.sql_setup.specs.Plain.{IsPlainColumn, IsPlainTable, IsPlainSchema, no_stamps, HasColumnsAlone, HaveSameKeys, IfSameKeys};

use sqlite_items::Items;
use sqlite_schema::code::Terms;
use sqlite_schema::schema::{Column, Index, Schema, Stamps, Table};
use sqlite_value::keys::Order;
use sqlite_value::value::Value;

// A value that may be told to be the same as another.
trait Same {
    // Says of which values that is told.
    ghost is_plain: { Self → Type 0 };

    fn is_same(&self, other: &Self) -> bool
        ensures told { IsTrue result → self.now ≡ other.now }
        ensures found { is_plain self.now → self.now ≡ other.now → IsTrue result };
}

// Are the values of two lists the same, each to each?
fn are_same<T: Same>(these: &[T], others: &[T]) -> bool
    ensures told { IsTrue result → these.now ≡ others.now }
    ensures found { AllByRecursion T.Same.is_plain these.now → these.now ≡ others.now
        → IsTrue result }
{
    let mut left = these;
    let mut right = others;
    while let [this, more @ ..] = left {
        let [other, rest @ ..] = right else {
            return false;
        };
        if !this.is_same(other) {
            return false;
        }
        left = more;
        right = rest;
    }
    right.is_empty()
}

fn is_null(value: &Value) -> bool
    ensures { IsTrue result ↔ (value.now ≡ Value.Null) }
{
    matches!(value, Value::Null)
}

fn are_none(terms: &Terms) -> bool
    ensures { IsTrue result ↔ (terms.now ≡ []) }
{
    terms.roots.is_empty()
}

impl Same for Column {
    ghost is_plain = { IsPlainColumn };

    fn is_same(&self, other: &Column) -> bool {
        self.name.as_slice() == other.name.as_slice()
            && self.kind == other.kind
            && self.is_strict == other.is_strict
            && self.not_null == other.not_null
            && is_null(&self.default)
            && is_null(&other.default)
            && self.collation == other.collation
    }
}

impl Same for Items<usize> {
    ghost is_plain = { λ _. ⊤ };

    fn is_same(&self, other: &Items<usize>) -> bool {
        self.as_slice() == other.as_slice()
    }
}

fn stamps_nothing(stamps: &Stamps) -> bool
    ensures { IsTrue result ↔ (stamps.now ≡ no_stamps) }
{
    stamps.places.is_empty() && are_none(&stamps.terms) && stamps.formats.is_empty()
}

// Has the table no CHECK, no reference and no default that is computed?
fn is_plain(table: &Table) -> bool
    ensures { IsTrue result ↔ HasColumnsAlone table.now }
{
    are_none(&table.checks)
        && table.references.is_empty()
        && table.computed.is_empty()
        && stamps_nothing(&table.stamps)
}

// Are the keys the same, each by the places of its columns?
#[tactic(auto, using(crate::proofs::Plain::all_plain))]
fn are_same_keys(these: &[Items<usize>], others: &[Items<usize>]) -> bool
    ensures { IsTrue result ↔ (these.now ≡ others.now) }
{
    are_same(these, others)
}

/// Are the indexes the same?
#[tactic(auto, using(crate::proofs::Plain::all_plain))]
pub fn are_same_indexes(these: &[Index], others: &[Index]) -> bool
    ensures { IsTrue result ↔ (these.now ≡ others.now) }
{
    are_same(these, others)
}

impl Same for Order {
    ghost is_plain = { λ _. ⊤ };

    fn is_same(&self, other: &Order) -> bool {
        self == other
    }
}

// Are the orders of keys the same?
#[tactic(auto, using(crate::proofs::Plain::all_plain))]
fn are_same_orders(these: &[Order], others: &[Order]) -> bool
    ensures { IsTrue result ↔ (these.now ≡ others.now) }
{
    are_same(these, others)
}

// Have the tables the same primary key, which both name as the rowid or neither does, and the same UNIQUE keys?
fn have_same_keys(this: &Table, other: &Table) -> bool
    ensures told { IsTrue result → HaveSameKeys this.now other.now }
    ensures found { IfSameKeys this.now other.now (IsTrue result) }
{
    this.key == other.key
        && this.primary.as_slice() == other.primary.as_slice()
        && are_same_keys(this.uniques.as_slice(), other.uniques.as_slice())
        && are_same_orders(this.orders.as_slice(), other.orders.as_slice())
}

impl Same for Table {
    ghost is_plain = { IsPlainTable };

    fn is_same(&self, other: &Table) -> bool {
        is_plain(self)
            && is_plain(other)
            && self.name.as_slice() == other.name.as_slice()
            && self.tree == other.tree
            && are_same(self.columns.as_slice(), other.columns.as_slice())
            && have_same_keys(self, other)
            && self.is_counted == other.is_counted
    }
}

impl Same for Index {
    ghost is_plain = { λ _. ⊤ };

    fn is_same(&self, other: &Index) -> bool {
        self.name.as_slice() == other.name.as_slice()
            && self.tree == other.tree
            && self.table == other.table
            && self.columns.as_slice() == other.columns.as_slice()
            && self.order == other.order
            && self.is_unique == other.is_unique
    }
}

/// Are the tables the same, each to each, and plain ones?
pub fn are_same_tables(these: &[Table], others: &[Table]) -> bool
    ensures told { IsTrue result → these.now ≡ others.now }
    ensures found { AllByRecursion IsPlainTable these.now → these.now ≡ others.now → IsTrue result }
{
    are_same(these, others)
}

/// Are the two schemas the same, and of plain tables and indexes alone?
pub(crate) fn is_same_schema(this: &Schema, other: &Schema) -> bool
    ensures told { IsTrue result → this.now ≡ other.now }
    ensures found { IsPlainSchema this.now → this.now ≡ other.now → IsTrue result }
{
    are_same_tables(this.tables.as_slice(), other.tables.as_slice())
        && are_same_indexes(this.indexes.as_slice(), other.indexes.as_slice())
        && this.views.is_empty()
        && other.views.is_empty()
}
