//! A route: who calls, and what.

/// What a company calls. Its identification is the path's second piece.
#[derive(Clone, Copy, PartialEq, Eq, Debug, Drop)]
pub enum CompanyRoute {
    /// Hands in a submission.
    Submit,
    /// Hands in a retry of a returned entry.
    Retry,
    /// Looks up the submission or retry whose reference is the path's fourth piece.
    LookUp,
    Returns,
    Changes,
    Statement,
    Rates,
    Exposure,
}

/// What the operator calls.
#[derive(Clone, Copy, PartialEq, Eq, Debug, Drop)]
pub enum OperatorRoute {
    SetDay,
    SetHolidays,
    PutCompany,
    /// Reads the limits, exposures and return rates of all companies.
    Companies,
    PutLimits,
    Cut,
    /// Takes a file of returns and changes.
    TakeFile,
    /// The text of a file: its day is the path's third piece, its modifier the fourth.
    FileText,
    Settlement,
    /// How the desk stands.
    Status,
    Suspense,
}

/// Who calls, and what.
#[derive(Clone, Copy, PartialEq, Eq, Debug, Drop)]
pub enum Route {
    Company(CompanyRoute),
    Operator(OperatorRoute),
}

/// The routes of a path, by the methods that it takes.
#[derive(Clone, Copy, PartialEq, Eq, Debug, Drop)]
pub struct Served {
    pub get: Option<Route>,
    pub post: Option<Route>,
}
