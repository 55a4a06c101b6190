//! The laws of what the operator writes.
ghost use Rattle.std.specs.Prelude.{ℕ, List};
ghost use Rattle.desk_book.specs.Steps.{put_company, put_limits, set_day, set_holidays};
ghost use Rattle.sql_tables.specs.TableEdits.{put_company_edit, put_limits_edit, set_day_edit, set_holidays_edit};
ghost use Rattle.desk_rules.specs.declared.bodies.company.Company.{Company};
ghost use Rattle.desk_rules.specs.declared.bodies.company.Limits.{Limits};
ghost use Rattle.sql_write_laws.specs.Making.{Makes};

/// The desk day.
pub fn day_follows()
    ensures { (day : ℕ) → Makes (set_day_edit day) (set_day day) }
{}

/// The calendar.
pub fn holidays_follow()
    ensures { (days : List ℕ) → Makes (set_holidays_edit days) (set_holidays days) }
{}

/// A new company.
pub fn company_follows()
    ensures { (company : Company) → Makes (put_company_edit company) (put_company company) }
{}

/// A company's limits.
pub fn limits_follow()
    ensures { (id : List ℕ) (to : Limits) → Makes (put_limits_edit id to) (put_limits id to) }
{}
