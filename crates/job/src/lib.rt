// A job: the calls that open, feed and close it.
#![tactic(auto)]

pub mod calls;
