//! The routes of the desk: which call a method and a path make.
#![tactic(auto)]

mod laws;
mod pieces;
mod route;
mod routes;

pub use laws::found_by_pieces;
pub use pieces::piece_of;
pub use route::{CompanyRoute, OperatorRoute, Route, Served};
pub use routes::{RouteFault, Routes};
