//! The operator sets days, holidays, companies and limits here, cuts, and reads what it may.
pub(crate) mod companies;
pub(crate) mod cut;
pub(crate) mod reads;
pub(crate) mod settings;
pub(crate) mod status;
