//! The answer to the operator's request for what each company may still cost the bank.
use crate::{DayRates, Exposure, ListOf};
use ach_fields::{Id, ShortText};
use bank_days::Day;

/// A company's exposures, limits and return rates on the desk day, as the company itself reads them.
#[derive(Clone, Copy, Debug, PartialEq, Eq, Drop)]
pub struct CompanyRisk {
    pub exposure: Exposure,
    pub id: Id,
    pub name: ShortText<16>,
    pub rates: DayRates,
}

/// The exposures, limits and return rates of all companies on the desk day.
#[derive(Drop)]
pub struct DeskCompanies {
    /// All registered companies, in the byte order of their identifications.
    pub companies: ListOf<CompanyRisk>,
    pub day: Day,
}
