//! The digests of keys.
ghost use Rattle.sql_tables.specs.Composed.{key_in};
ghost use Rattle.sql_queries.specs.Asking.{Asks, IsThe};

use desk_book::Caller;
use desk_store::StoreFault;
use sql_queries::{company, operator_key};
use sql_read_steps::or_unavailable;
use sqlite::{Alter, Connection};

/// Finds the SHA-256 digest of a caller's key; there is none where the company is not registered.
pub fn key_of<S: Alter>(
    conn: &mut Connection<S>,
    caller: Caller,
) -> Result<Option<[u8; 32]>, StoreFault>
    ensures { Asks S.Store conn.old conn.new result (IsThe (key_in caller)) }
{
    match caller {
        Caller::Operator => {
            let key = or_unavailable(operator_key(conn))?;
            Ok(Some(key))
        }
        Caller::Company(id) => match or_unavailable(company(conn, id))? {
            Some(company) => Ok(Some(company.digest)),
            None => Ok(None),
        },
    }
}
