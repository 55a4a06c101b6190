//! The laws of reads of what stands in one row, or in whole tables.
ghost use Rattle.sql_read_laws.specs.RegistryLaws.{RegistryLaws, FileLaws};

/// The desk, its holidays and its companies stand in the tables as in the book.
pub fn registry_of_tables()
    ensures { RegistryLaws }
{}

/// So do files, those that came in, what stands in suspense, and the lines of accounts with their
/// sums. The number of the last item in suspense says how many there are.
pub fn files_of_tables()
    ensures { FileLaws }
{
    desk_accounts::balances_by_day();
}
