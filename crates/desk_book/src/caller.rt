//! A caller is the operator or a company.
use ach_fields::Id;

/// The caller of the desk.
#[derive(Clone, Copy, Debug, PartialEq, Eq, Drop)]
pub enum Caller {
    Operator,
    Company(Id),
}
