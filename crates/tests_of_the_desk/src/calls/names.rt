//! Texts in a desk's row that are not valid names.
use super::script::new_tables;
use desk_core::{Store, StoreFault};
use sql_store::SqlStore;
use sqlite::{Connection, Error, MemStore};
use std::alloc::Global;
use std::process::Abort;
use std::test::Fail;

// These have no clause, so that the proof of the test does not carry the state of each call.

fn change(store: SqlStore<MemStore>, sql: &str) -> Result<Connection<MemStore>, Error> {
    let mut conn = store.into_connection();
    conn.execute_batch(sql)?;
    Ok(conn)
}

fn adopted(
    rt: &(impl Abort + Alloc<A = Global>),
    conn: Connection<MemStore>,
) -> SqlStore<MemStore> {
    SqlStore::adopt(rt.alloc(), conn).ok().expect(rt, "a desk")
}

fn is_unavailable(rt: &impl Alloc<A = Global>, store: &mut SqlStore<MemStore>) -> bool {
    matches!(store.identity(rt.alloc()), Err(StoreFault::Unavailable))
}

// A store of the sample bank, after this change of its row.
fn changed(rt: &(impl Abort + Alloc<A = Global>), sql: &str) -> Result<SqlStore<MemStore>, Error> {
    Ok(adopted(rt, change(new_tables(rt), sql)?))
}

// Changes of a desk's row, and whether the desk is unavailable then.
const CHANGES: &[(&str, bool)] = &[
    ("UPDATE desk SET odfi_name = ''", true),
    ("UPDATE desk SET destination_name = ''", true),
    ("UPDATE desk SET odfi_name = ' OUR BANK'", true),
    (
        "UPDATE desk SET destination_name = 'A NAME OF 24 CHARACTERS.'",
        true,
    ),
    (
        "UPDATE desk SET odfi_name = 'B', destination_name = 'O'",
        false,
    ),
];

// The store opens: it looks at the names when it is asked whose desk it is.
#[test]
fn a_desk_without_names_is_unavailable(rt: HostRuntime) -> Result<(), Fail> {
    for (sql, unavailable) in CHANGES {
        let mut store = changed(&rt, sql)?;
        assert!(rt; is_unavailable(&rt, &mut store) == *unavailable, "{sql}");
    }
    Ok(())
}
