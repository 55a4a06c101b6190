//! The law of a desk that serves one company alone.
ghost use Rattle.desk_history.specs.Alone.{ServedAlone};

/// Each company is served as by a desk that serves no one else. Given the messages that gave the
/// company's events, and a file of one item for each of its returns and changes, such a desk
/// accepts each command and each file, has the same part of the company, and gives it the same
/// answers. This holds if the whole desk sent at most 9,999,999 entries and the company had fewer
/// than 10^21 returns and changes.
pub fn served_alone()
    ensures { ServedAlone }
{
    ach_fields::numbers_and_digits();
    desk_plan::sent_by_cut();
    desk_plan::never_twice();
    desk_plan::accepted_alone();
}
