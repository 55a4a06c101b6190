//! A query that fails leaves the store unable to act.
ghost use Rattle.std.specs.Prelude.{◌≡◌, IfOk, Ok};

use desk_store::StoreFault;
use sqlite::Error;

/// Gives what a query found. Whatever its error was, the store could not act.
pub fn or_unavailable<T>(found: Result<T, Error>) -> Result<T, StoreFault>
    ensures { IfOk result (λ x. found ≡ Ok x) }
{
    match found {
        Ok(found) => Ok(found),
        Err(_) => Err(StoreFault::Unavailable),
    }
}
