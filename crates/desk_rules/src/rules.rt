//! Each rule is a plain function over facts.
pub(crate) mod attempt;
pub(crate) mod deadlines;
pub(crate) mod entry_fact;
pub(crate) mod exposure;
pub(crate) mod limit_checks;
pub(crate) mod rate;
pub(crate) mod retry_rule;
pub(crate) mod return_code;
pub(crate) mod return_rates;
pub(crate) mod rule_day;
pub(crate) mod size;
pub(crate) mod time_class;
