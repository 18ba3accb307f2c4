// The commands that ESC begins: tabs, features, reset, selection and downloads.
#![tactic(auto)]

pub mod brackets;
pub mod downloads;
pub mod escapes;
