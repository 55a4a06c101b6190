//! The bodies of answers to the operator.

mod companies;
mod cut;
mod intake;
mod settings;
mod settlement;
mod status;
mod suspense;

pub(crate) use companies::add_companies;
pub(crate) use cut::put_cut;
pub(crate) use intake::put_intake;
pub(crate) use settings::{put_company, put_day, put_holidays};
pub(crate) use settlement::add_settlement;
pub(crate) use status::add_status;
pub(crate) use suspense::add_suspense;
