//! An index finds the rows in memory that a key names, without going through all rows.
ghost use Rattle.std.specs.Prelude.{◌≡◌, List, OnOk, OnErr};
ghost use Rattle.memory_store.specs.Covers.{Covers, StaysPlaced};
ghost use Rattle.memory_store.specs.Kept.{row_in};
ghost use Rattle.memory_store.specs.Placed.{IsPlaced, ListsMore, ListsSame, key_in, listed_under, numbered, under, whole};
ghost use Rattle.memory_store.specs.declared.place_index.KeyKind.{KeyKind};
ghost use Rattle.desk_store.specs.Rows.{CompanyRow};

use crate::entries::may_be_open;
use crate::list_store::KeptSubmission;
use crate::row_key::RowKey;
use ach_fields::{Id, Ref};
use bank_days::Day;
use desk_store::StoreFault;
use std::alloc::Global;
use std::collections::BTreeMap;

/// The key that an index has for a row.
#[derive(Clone, Copy)]
pub(crate) enum KeyKind {
    /// Its company.
    Company,
    /// Its company and its reference.
    Reference,
    /// Its company and its order number.
    Order,
    /// Of a retry, its company and the reference of the submission that has the entry.
    Original,
    /// Of a row that may be open since a day, its company.
    OpenSince(Day),
}

impl RowKey {
    /// Names all rows of a company.
    pub(crate) fn whole(company: Id) -> RowKey
        ensures { result ≡ whole company }
    {
        RowKey {
            company,
            reference: None,
            order: None,
        }
    }

    /// Names those that go by a reference.
    pub(crate) fn under(company: Id, reference: Ref) -> RowKey
        ensures { result ≡ under company reference }
    {
        RowKey {
            company,
            reference: Some(reference),
            order: None,
        }
    }

    /// Names those that have an order number.
    pub(crate) fn numbered(company: Id, order: u64) -> RowKey
        ensures { result ≡ numbered company order }
    {
        RowKey {
            company,
            reference: None,
            order: Some(order),
        }
    }
}

fn key_of(kept: &KeptSubmission, kind: &KeyKind) -> Option<RowKey>
    ensures { result ≡ key_in kind.now (row_in kept.now) }
{
    match *kind {
        KeyKind::Company => Some(RowKey::whole(kept.company)),
        KeyKind::Reference => {
            let reference = kept.content.submission().reference;
            Some(RowKey::under(kept.company, reference))
        }
        KeyKind::Order => Some(RowKey::numbered(kept.company, kept.order)),
        KeyKind::Original => {
            let retry = kept.retry?;
            Some(RowKey::under(kept.company, retry.of))
        }
        KeyKind::OpenSince(since) => {
            if may_be_open(kept.settled, since) {
                Some(RowKey::whole(kept.company))
            } else {
                None
            }
        }
    }
}

/// A `PlaceIndex` has for each key the places of the rows that it names, among the first rows.
///
/// As of a `TraceIndex`, no write touches it, and a read brings it up to date.
#[derive(Drop)]
pub(crate) struct PlaceIndex {
    places: BTreeMap<RowKey, Vec<usize>>,
    /// The number of the first rows that it covers.
    indexed: usize,
}

impl PlaceIndex {
    /// Makes the index of no rows.
    pub(crate) fn new(alloc: Global) -> PlaceIndex
        ensures { (kind : KeyKind) (rows : List CompanyRow) → IsPlaced kind rows result }
    {
        PlaceIndex {
            places: BTreeMap::new(alloc),
            indexed: 0,
        }
    }

    /// Forgets all rows.
    pub(crate) fn clear(&mut self)
        ensures { (kind : KeyKind) (rows : List CompanyRow) → IsPlaced kind rows self.new }
    {
        self.places.clear();
        self.indexed = 0;
    }

    /// Adds a place to those of a key, if there is a key.
    fn add(&mut self, alloc: Global, key: Option<RowKey>, place: usize) -> Result<(), StoreFault>
        ensures ok { OnOk result (ListsMore key place self.old self.new) }
        ensures err { OnErr result (ListsSame self.old self.new) }
        ensures indexed { self.new.indexed ≡ self.old.indexed }
    {
        let Some(key) = key else {
            return Ok(());
        };
        if let Some(places) = self.places.get_mut(&key) {
            places.push(place)?;
            return Ok(());
        }
        let mut places = Vec::new(alloc);
        places.push(place)?;
        self.places.insert(key, places)?;
        Ok(())
    }

    /// Covers the rows that it does not cover yet.
    pub(crate) fn cover(
        &mut self,
        alloc: Global,
        kept: &[KeptSubmission],
        kind: &KeyKind,
    ) -> Result<(), StoreFault>
        ensures right { StaysPlaced kind.now kept.now self.old self.new }
        ensures whole { OnOk result (Covers kind.now kept.now self.old self.new) }
    {
        for at in self.indexed..kept.len() {
            let key = key_of(&kept[at], kind);
            self.add(alloc, key, at)?;
            self.indexed = at + 1;
        }
        Ok(())
    }

    /// Gives the places of the rows that a key names, among those that are covered.
    pub(crate) fn of(&self, key: RowKey) -> &[usize]
        ensures { result.now ≡ listed_under key self.now }
    {
        match self.places.get(&key) {
            Some(list) => list.as_slice(),
            None => &[],
        }
    }
}
