//! The laws of reads of sent entries.
ghost use Rattle.sql_read_laws.specs.NumberLaws.{NumberLaws};

/// The number of the last place says how many entries were sent, and which sequence the last has. The
/// number of a sequence says where the youngest entry stands that has it.
pub fn numbers_of_tables()
    ensures { NumberLaws }
{
    ach_fields::numbers_and_digits();
}
