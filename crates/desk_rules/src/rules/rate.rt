/// A `Level` is one of Nacha's return rates that are watched, each with its codes and its
/// threshold.
#[derive(Clone, Copy, Debug, PartialEq, Eq, Drop)]
pub enum Level {
    /// The unauthorized return rate counts debits that the receiver had not authorized: R05, R07,
    /// R10, R11 and R29, over 0.5 percent.
    Unauthorized,
    /// The administrative return rate counts debits of accounts that are closed or not found: R02,
    /// R03 and R04, over 3 percent.
    Administrative,
    /// The overall return rate counts all returned debits, over 15 percent.
    Overall,
}

/// The number of returned debits, and of all debits.
#[derive(Clone, Copy, Debug, PartialEq, Eq, Drop)]
pub struct Rate {
    /// The number of returns that count.
    pub n: u64,
    /// The number of debits that settled.
    pub d: u64,
    /// Is it over the level's threshold?
    pub over: bool,
}

/// `Rates` are a company's return rates.
#[derive(Clone, Copy, Debug, PartialEq, Eq, Drop)]
pub struct Rates {
    pub unauthorized: Rate,
    pub administrative: Rate,
    pub overall: Rate,
}
