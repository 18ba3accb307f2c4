// The carriage: what the head does to the line in progress and to the page. Characters entered, columns plotted, lines struck.
#![tactic(auto)]

pub mod plotting;
pub mod printing;
pub mod terminators;
