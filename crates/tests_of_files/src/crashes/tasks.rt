//! Tasks of a desk on a connection, for any storage of its pages.
use super::exchanges::UNAVAILABLE;
use crate::files::bank::identity;
use crate::tables::add_tables;
use desk_core::Desk;
use desk_http::{HttpDesk, session};
use http_routes::Routes;
use http_session::{Answers, Ended};
use sql_files::migrate;
use sql_setup::{OpenFault, check_desk, make_desk};
use sql_store::SqlStore;
use sqlite::{Alter, Connection};
use std::alloc::Global;
use std::process::Abort;

/// A task of a desk.
#[derive(Clone, Copy)]
pub(super) enum Task<'a> {
    /// A new desk is made.
    Make,
    /// A desk of version 1 becomes one of version 2.
    Migrate,
    /// The statements are run.
    Run(&'static str),
    /// Reports whether there is a desk.
    Check,
    /// Lists all tables of the desk.
    Read,
    /// Reads the messages of a session, and lists their answers. It is not done if the desk's store
    /// failed.
    Answer(&'a [u8]),
    /// Leaves the files unchanged: it is never done.
    Leave,
}

/// The SHA-256 digest of `operator-key`.
const OPERATOR_DIGEST: [u8; 32] = [
    201, 115, 100, 99, 245, 85, 205, 183, 210, 167, 140, 253, 122, 168, 184, 196, 240, 157, 144,
    109, 120, 248, 218, 185, 34, 142, 218, 48, 162, 140, 40, 24,
];

fn make<S: Alter>(rt: &impl Abort, conn: &mut Connection<S>) -> Result<(), OpenFault> {
    make_desk(conn, identity(rt), OPERATOR_DIGEST).map_err(|why| why.told())
}

fn migrate_desk<S: Alter>(alloc: Global, conn: &mut Connection<S>) -> Result<(), OpenFault> {
    migrate(alloc, conn).map_err(|why| why.told())
}

fn check<S: Alter>(alloc: Global, conn: &mut Connection<S>) -> Result<(), OpenFault> {
    check_desk(alloc, conn).map_err(|why| why.told())
}

fn run<S: Alter>(conn: &mut Connection<S>, sql: &str) -> Result<(), OpenFault> {
    conn.execute_batch(sql).map_err(|_| OpenFault::Unavailable)
}

fn read<S: Alter>(conn: &mut Connection<S>, told: &mut Vec<u8>) -> Result<(), OpenFault> {
    add_tables(conn, told).map_err(|_| OpenFault::Unavailable)
}

fn answer_all<D: Answers>(alloc: Global, desk: &mut D, input: &[u8], told: &mut Vec<u8>) -> bool {
    let mut reader = input;
    session(alloc, desk, &mut reader, told) == Ok(Ended::Closed)
}

fn answer<S: Alter + Drop>(
    rt: &(impl Abort + Alloc<A = Global>),
    conn: Connection<S>,
    input: &[u8],
    told: &mut Vec<u8>,
) -> Connection<S> {
    let store = SqlStore::adopt(rt.alloc(), conn).ok().expect(rt, "a desk");
    let routes = Routes::new(rt.alloc()).ok().expect(rt, "memory");
    let mut desk = HttpDesk::new(rt.alloc(), Desk::new(store), routes);
    assert!(rt; answer_all(rt.alloc(), &mut desk, input, told));
    desk.into_desk().into_store().into_connection()
}

fn carry_out_one<S: Alter>(
    rt: &(impl Abort + Alloc<A = Global>),
    conn: &mut Connection<S>,
    task: Task<'_>,
    told: &mut Vec<u8>,
) -> Result<(), OpenFault> {
    match task {
        Task::Make => make(rt, conn),
        Task::Migrate => migrate_desk(rt.alloc(), conn),
        Task::Run(sql) => run(conn, sql),
        Task::Check => check(rt.alloc(), conn),
        Task::Read => read(conn, told),
        Task::Answer(_) if !told.ends_with(UNAVAILABLE) => Ok(()),
        Task::Answer(_) | Task::Leave => Err(OpenFault::Unavailable),
    }
}

/// Carries out the tasks, up to one that is not done. Why was that not done?
pub(super) fn carry_out<S: Alter + Drop>(
    rt: &(impl Abort + Alloc<A = Global>),
    conn: Connection<S>,
    tasks: &[Task<'_>],
    told: &mut Vec<u8>,
) -> (Connection<S>, Option<OpenFault>) {
    let mut conn = conn;
    for task in tasks {
        if let Task::Answer(input) = task {
            conn = answer(rt, conn, input, told);
        }
        if let Err(fault) = carry_out_one(rt, &mut conn, *task, told) {
            return (conn, Some(fault));
        }
    }
    (conn, None)
}
