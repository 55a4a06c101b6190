pub(crate) mod bank;
pub(crate) mod commands;
mod damage;
mod first_version;
mod migrated;
mod migrations;
pub(crate) mod paths;
