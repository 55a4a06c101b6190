//! A store over tables begins with a new desk, or with one that is there.
ghost use Rattle.std.specs.Prelude.{◌≡◌, ◌≢◌, [], Err, IfOk, IfErr, IsErrAnd, IsTrue};
ghost use Rattle.sqlite.specs.Held.{state};
ghost use Rattle.sqlite.specs.State.{HasCleanDisk};
ghost use Rattle.sqlite.specs.Steps.{over_memory};
ghost use Rattle.desk_book.specs.Book.{book_of};
ghost use Rattle.sql_statements.specs.Promises.{EndsIn};
ghost use Rattle.sql_tables.specs.Layout.{Keeps, Sees};
ghost use Rattle.sql_tables.specs.DeskTables.{version};
ghost use Rattle.sql_setup.specs.Checked.{IsDesk};
ghost use Rattle.sql_setup.specs.Refusals.{IsGivenBack, IsLeftUnmade};
ghost use Rattle.sql_setup.specs.Setup.{HasNewDesk};

use crate::store::SqlStore;
use desk_history::Identity;
use sql_setup::{DeskFault, OpenFault, check_desk, make_desk};
use sqlite::{Alter, Connection, MemStore};
use std::alloc::Global;

impl<S: Alter> SqlStore<S> {
    /// Keeps the books that the tables of a connection keep, as they are: none where they are no desk's.
    /// `adopt` looks at them first.
    pub fn new(conn: Connection<S>) -> SqlStore<S>
        ensures { result.conn ≡ conn }
    {
        SqlStore { conn }
    }
}

impl<S: Alter> SqlStore<S> {
    /// Makes a new desk in a blank database, with the SHA-256 digest of the operator's key: all tables
    /// and the row of the desk, in one transaction.
    ///
    /// Over a table `desk` it is `OpenFault::Exists`. A database that has something else in it, one that
    /// failed, and a connection that is inside a transaction, are `OpenFault::Unavailable`. A refused call
    /// changes nothing, and gives the connection back.
    pub fn create_on(
        conn: Connection<S>,
        identity: Identity,
        operator_key: [u8; 32],
    ) -> Result<SqlStore<S>, (DeskFault, Connection<S>)>
        ensures created { IfOk result
            (λ s. EndsIn S.Store conn s.conn (HasNewDesk identity operator_key)) }
        ensures before { IfOk result
            (λ s. EndsIn S.Store conn s.conn (λ before _. HasCleanDisk before)) }
        ensures unmade { IfErr result (λ why. IsLeftUnmade S.Store
            (λ trees. Keeps trees (book_of identity operator_key [])) conn why.1 why.0) }
    {
        let mut conn = conn;
        match make_desk(&mut conn, identity, operator_key) {
            Ok(()) => Ok(SqlStore::new(conn)),
            Err(why) => Err((why, conn)),
        }
    }

    /// Takes over the desk that is in a database, as `adopt` does. A refused call gives the connection back,
    /// with the error of the engine if there was one.
    pub fn adopt_or_give_back(
        alloc: Global,
        conn: Connection<S>,
    ) -> Result<SqlStore<S>, (DeskFault, Connection<S>)>
        ensures before { IfOk result
            (λ s. EndsIn S.Store conn s.conn (λ before _. HasCleanDisk before)) }
        ensures adopted { IfOk result (λ s. EndsIn S.Store conn s.conn IsDesk) }
        ensures inside { IsTrue conn.in_transaction → IsErrAnd result
            (λ why. (why.0 ≡ DeskFault.Told OpenFault.Unavailable) × (why.1 ≡ conn)) }
        ensures refused { IfErr result
            (λ why. IsGivenBack S.Store version (λ _. ⊥) conn why.1 why.0) }
        ensures otherwise { IfErr result (λ why. why.0 ≢ DeskFault.Told OpenFault.Exists) }
    {
        let mut conn = conn;
        match check_desk(alloc, &mut conn) {
            Ok(()) => Ok(SqlStore::new(conn)),
            Err(why) => Err((why, conn)),
        }
    }

    /// Gives the connection back, so that its file may be closed.
    pub fn into_connection(self) -> Connection<S>
        ensures { result ≡ self.conn }
    {
        self.conn
    }
}

impl<S: Alter + Drop> SqlStore<S> {
    /// Takes over the desk that is in a database: the store holds each book that the tables keep.
    ///
    /// If there is no table `desk`, or no row in it, the fault is `OpenFault::NotADesk`. If its row has
    /// another version, it is `OpenFault::WrongVersion`, whatever else the schema is. Every other schema,
    /// a database that failed, and a connection that is inside a transaction, are
    /// `OpenFault::Unavailable`. A refused call changes nothing, and drops the connection.
    pub fn adopt(alloc: Global, conn: Connection<S>) -> Result<SqlStore<S>, OpenFault>
        ensures before { IfOk result
            (λ s. EndsIn S.Store conn s.conn (λ before _. HasCleanDisk before)) }
        ensures adopted { IfOk result (λ s. EndsIn S.Store conn s.conn IsDesk) }
        ensures inside { IsTrue conn.in_transaction → result ≡ Err OpenFault.Unavailable }
        ensures otherwise { IfErr result (λ fault. fault ≢ OpenFault.Exists) }
    {
        match SqlStore::adopt_or_give_back(alloc, conn) {
            Ok(store) => Ok(store),
            Err((why, _conn)) => Err(why.told()),
        }
    }
}

impl SqlStore<MemStore> {
    /// Makes a new desk in memory, with the SHA-256 digest of the operator's key. Want of memory is
    /// `OpenFault::Unavailable`.
    pub fn in_memory(
        alloc: Global,
        identity: Identity,
        operator_key: [u8; 32],
    ) -> Result<SqlStore<MemStore>, OpenFault>
        ensures { IfOk result
            (λ s. Sees (state over_memory s.conn) (book_of identity operator_key [])) }
    {
        let Ok(conn) = Connection::open_in_memory(alloc) else {
            return Err(OpenFault::Unavailable);
        };
        match SqlStore::create_on(conn, identity, operator_key) {
            Ok(store) => Ok(store),
            Err((why, _conn)) => Err(why.told()),
        }
    }
}
