// The state: its tabs, one part of it changed, which states are sound, and what is said of a job that is closed.
#![tactic(auto)]

pub mod parts;
mod soundness;
pub mod tabs;

pub use soundness::{closing, form_sound, rest_sound, sound};
