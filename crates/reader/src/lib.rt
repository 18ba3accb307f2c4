// The reader: one byte of a job, by what is pending.
#![tactic(auto)]

mod bytes;

pub use bytes::step;
