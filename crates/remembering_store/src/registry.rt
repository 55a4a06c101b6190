//! All registered companies.
ghost use Rattle.std.specs.Prelude.{◌≡◌, IsTrue, IfSome, List, None, map, find};
ghost use Rattle.desk_rules.specs.declared.bodies.company.Company.{Company};
ghost use Rattle.desk_history.specs.History.{with_company, with_limits};
ghost use Rattle.desk_history.specs.Operator.{has_id};
ghost use Rattle.remembering_store.specs.Known.{IsRegistryOf};

use crate::company_key::CompanyKey;
use ach_fields::Id;
use desk_rules::{Company, Limits};
use std::alloc::Global;
use std::collections::HashMap;

/// All registered companies with their present limits, by identification.
#[derive(Drop)]
pub(crate) struct Registry {
    companies: HashMap<CompanyKey, Company>,
}

impl Registry {
    /// Returns a registry of these companies, or `None` if there is no memory. If two have one
    /// identification, the first counts.
    pub(crate) fn of(alloc: Global, companies: &[Company]) -> Option<Registry>
        ensures { IfSome result (λ registry. IsRegistryOf registry companies.now) }
    {
        let mut by_key = HashMap::new(alloc);
        for done in 0..companies.len() {
            // From the last company on, because a later insertion replaces an earlier one.
            let company = companies[companies.len() - 1 - done];
            let key = CompanyKey {
                company: company.id,
            };
            if by_key.insert(key, company).is_err() {
                return None;
            }
        }
        Some(Registry { companies: by_key })
    }

    /// Returns the company that has this identification.
    pub(crate) fn company(&self, id: Id) -> Option<Company>
        ensures { (companies : List Company) → IsRegistryOf self.now companies
            → result ≡ find (has_id id) companies }
    {
        self.companies.get(&CompanyKey { company: id }).copied()
    }

    /// Adds a new company. Returns false if there is no memory.
    pub(crate) fn add(&mut self, company: Company) -> bool
        ensures { IsTrue result → (companies : List Company)
            → find (has_id company.id) companies ≡ None → IsRegistryOf self.old companies
            → IsRegistryOf self.new (with_company company companies) }
    {
        let key = CompanyKey {
            company: company.id,
        };
        self.companies.insert(key, company).is_ok()
    }

    /// Sets a company's limits.
    pub(crate) fn limit(&mut self, id: Id, limits: Limits)
        ensures { (companies : List Company) → IsRegistryOf self.old companies
            → IsRegistryOf self.new (map (with_limits id limits) companies) }
    {
        if let Some(company) = self.companies.get_mut(&CompanyKey { company: id }) {
            company.limits = limits;
        }
    }
}
