//! The settings of an array, as a TOML document gives them. What a document decides is `specs/Settings.antt`, and
//! `settings` answers exactly that.
#![tactic(auto)]

mod config;
mod document;
mod fault;
mod key;

pub use config::{Config, settings};
pub use fault::SettingsFault;
pub use key::Key;
