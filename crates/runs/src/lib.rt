// Runs of like bytes, taken at one go: characters, plotted columns, payload. What a run leads to is what its bytes lead to one by one.
#![tactic(auto)]

use printer::Printer;

// The state after a run, and how many bytes of the piece it was.
#[derive(Clone, Copy)]
pub struct Ran {
    pub printer: Printer,
    pub taken: usize,
}

mod byte;
mod payload;
mod plots;
mod runs;
mod text;

pub use byte::single;
pub use runs::run;
