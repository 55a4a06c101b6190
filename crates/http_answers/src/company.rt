//! The bodies of answers to a company.

mod changes;
mod exposure;
mod rates;
mod report;
mod returns;
mod statement;

pub(crate) use changes::add_changes;
pub(crate) use exposure::add_exposure;
pub(crate) use rates::{add_rates, put_rate};
pub(crate) use report::add_report;
pub(crate) use returns::add_returns;
pub(crate) use statement::add_statement;
