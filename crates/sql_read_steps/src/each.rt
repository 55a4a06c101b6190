//! A read does the same for each item of a list.
ghost use Rattle.std.specs.Prelude.{◌≡◌, IfOk};
ghost use Rattle.std.specs.List.{flat_map};
ghost use Rattle.sql_tables.specs.Tables.{Tables};
ghost use Rattle.sql_read_steps.specs.Answers.{LearnsEach, LearnsOn, ShowsItem};

use desk_store::StoreFault;
use emptying_lists::EmptyingList;
use sqlite::{Alter, Connection};
use std::alloc::Global;

/// An `ItemRead` reads what belongs to an item of a list.
pub trait ItemRead {
    type Item: Drop;

    type Found: Drop;

    /// Is what clauses see of what is found.
    ghost Shown: { Type 0 };

    /// Shows what is found.
    ghost shown: { Self.Found → Shown };

    /// Says what the tables have for an item.
    ghost value: { Self → Tables → Self.Item → Shown };

    /// Reads what belongs to an item.
    fn read_item<S: Alter>(
        &self,
        conn: &mut Connection<S>,
        alloc: Global,
        item: &Self::Item,
    ) -> Result<Self::Found, StoreFault>
        ensures { LearnsOn S.Store conn.old conn.new result
            (ShowsItem shown (value self.now) item.now) };
}

/// Reads what belongs to each item of a list, in its order. The items are let go as they are read, so
/// that what is found may come into their place.
pub fn read_each<S: Alter, R: ItemRead>(
    conn: &mut Connection<S>,
    alloc: Global,
    read: &R,
    items: Vec<R::Item>,
) -> Result<Vec<R::Found>, StoreFault>
    ensures { LearnsEach S.Store conn.old conn.new result R.ItemRead.shown
        (R.ItemRead.value read.now) items.items }
{
    let mut left = EmptyingList::new(items);
    let mut all = Vec::new(alloc);
    while let Some(item) = left.take_first() {
        all.push(read.read_item(conn, alloc, &item)?)?;
    }
    Ok(all)
}

/// Gives lists one after another, in one.
pub fn joined<T: Drop>(alloc: Global, lists: Vec<Vec<T>>) -> Result<Vec<T>, StoreFault>
    ensures { IfOk result (λ all. all.items ≡ flat_map (λ list. list.items) lists.items) }
{
    let mut all = Vec::new(alloc);
    for mut list in lists {
        all.append(&mut list)?;
    }
    Ok(all)
}
