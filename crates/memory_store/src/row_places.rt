//! The rows of a company in memory are found without going through all rows.
ghost use Rattle.std.specs.Prelude.{◌≡◌, true, List, [], Some, OnOk};
ghost use Rattle.memory_store.specs.Covers.{AllStayPlaced, CoversBy, CoversWaiting};
ghost use Rattle.memory_store.specs.Finds.{held_index};
ghost use Rattle.memory_store.specs.Placed.{ArePlaced};
ghost use Rattle.memory_store.specs.declared.place_index.KeyKind.TheVariants as kinds;
ghost use Rattle.desk_store.specs.Rows.{CompanyRow};

use crate::list_store::KeptSubmission;
use crate::place_index::{KeyKind, PlaceIndex};
use bank_days::Day;
use desk_store::StoreFault;
use std::alloc::Global;

/// `RowPlaces` are indexes of the rows.
#[derive(Drop)]
pub(crate) struct RowPlaces {
    pub(crate) companies: PlaceIndex,
    pub(crate) references: PlaceIndex,
    /// It finds the submissions that a cut sends or lets lapse.
    pub(crate) orders: PlaceIndex,
    /// It finds the retries of a submission's entries.
    pub(crate) originals: PlaceIndex,
    /// It finds the rows that may be open since the day. A cut settles rows, and so ends it.
    pub(crate) recent: PlaceIndex,
    pub(crate) since: Option<Day>,
}

impl RowPlaces {
    /// Makes the indexes of no rows.
    pub(crate) fn new(alloc: Global) -> RowPlaces
        ensures { ArePlaced [] result }
    {
        RowPlaces {
            companies: PlaceIndex::new(alloc),
            references: PlaceIndex::new(alloc),
            orders: PlaceIndex::new(alloc),
            originals: PlaceIndex::new(alloc),
            recent: PlaceIndex::new(alloc),
            since: None,
        }
    }

    /// Covers the rows by their references, and retries by what they try again. Each submission asks
    /// for its reference, so a retry never has to cover many rows.
    pub(crate) fn cover_references(
        &mut self,
        alloc: Global,
        kept: &[KeptSubmission],
    ) -> Result<(), StoreFault>
        ensures right { AllStayPlaced kept.now self.old self.new }
        ensures whole { OnOk result
            (CoversBy kinds.Reference kept.now self.old self.new.references) }
    {
        self.references.cover(alloc, kept, &KeyKind::Reference)?;
        self.originals.cover(alloc, kept, &KeyKind::Original)?;
        Ok(())
    }

    /// Covers the rows by their order numbers. A cut is written whole or not at all, and memory for
    /// the index could be refused in the middle of it, so this comes before it.
    pub(crate) fn cover_orders(
        &mut self,
        alloc: Global,
        kept: &[KeptSubmission],
    ) -> Result<(), StoreFault>
        ensures right { AllStayPlaced kept.now self.old self.new }
        ensures whole { OnOk result (CoversBy kinds.Order kept.now self.old self.new.orders) }
    {
        self.orders.cover(alloc, kept, &KeyKind::Order)
    }

    fn is_since(&self, since: Day) -> bool
        ensures { result ≡ true → self.now.since ≡ Some since }
    {
        match self.since {
            Some(first) => first == since,
            None => false,
        }
    }

    /// Empties the index of open rows if it is for another day.
    fn begin(&mut self, since: Day)
        ensures right { (rows : List CompanyRow) → ArePlaced rows self.old →
            ArePlaced rows self.new }
        ensures since { self.new.since ≡ Some since }
    {
        if !self.is_since(since) {
            self.recent.clear();
            self.since = Some(since);
        }
    }

    /// Covers the rows that may be open since a day.
    pub(crate) fn cover_recent(
        &mut self,
        alloc: Global,
        kept: &[KeptSubmission],
        since: Day,
    ) -> Result<(), StoreFault>
        ensures right { AllStayPlaced kept.now self.old self.new }
        ensures since { self.new.since ≡ Some since }
        ensures whole { OnOk result
            (CoversBy (kinds.OpenSince since) kept.now self.old self.new.recent) }
    {
        self.begin(since);
        self.recent.cover(alloc, kept, &KeyKind::OpenSince(since))
    }

    /// Covers the rows of the companies that a cut may still decide, and all by their references.
    pub(crate) fn cover_held(
        &mut self,
        alloc: Global,
        kept: &[KeptSubmission],
    ) -> Result<(), StoreFault>
        ensures right { AllStayPlaced kept.now self.old self.new }
        ensures whole { OnOk result (CoversWaiting kept.now self.old self.new) }
    {
        self.references.cover(alloc, kept, &KeyKind::Reference)?;
        match self.since {
            None => self.companies.cover(alloc, kept, &KeyKind::Company)?,
            // An undecided submission may be open since any day.
            Some(since) => self.recent.cover(alloc, kept, &KeyKind::OpenSince(since))?,
        }
        Ok(())
    }

    /// Gives the index that finds these rows by their company.
    pub(crate) fn held(&self) -> &PlaceIndex
        ensures { result.now ≡ held_index self.now }
    {
        match self.since {
            None => &self.companies,
            Some(_) => &self.recent,
        }
    }
}
