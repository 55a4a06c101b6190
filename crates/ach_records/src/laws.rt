//! The laws of records say that fields, printing and viewing belong together.
ghost use Rattle.ach_records.specs.Laws.{PrintedIsViewed, RecordsAreFields, ViewedIsPrinted};

/// A record is its fields at their widths, one after the other, and there is one way to cut it.
pub fn records_are_fields()
    ensures { RecordsAreFields }
{}

/// A printed record is a record of its kind, and its fields are the given ones.
pub fn printed_is_viewed()
    ensures { PrintedIsViewed }
{}

/// A record whose fields are the given ones, constants and blanks included, has exactly the printed
/// bytes.
pub fn viewed_is_printed()
    ensures { ViewedIsPrinted }
{}
