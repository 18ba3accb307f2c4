// A run of plotted columns.
ghost use Rattle.std.specs.Prelude.{◌≡◌, ◌&&◌, List, ℕ, ◌+◌, ◌≤◌, leb, length};
ghost use Rattle.printer.specs.Given.{machine};
ghost use Rattle.printer.specs.Machine.{edition_of};
ghost use Rattle.printer.specs.Plotting.{plots};
ghost use Rattle.runs.specs.Runs.{Plotting, fitting, given_run, running};

use crate::Ran;
use codes::plots;
use glyph::entering::or_in;
use printer::Printer;
use sheet::sizes::{stride, width};

// Whether a byte is a column, and it ends by position `next` on a line of w positions.
pub(crate) fn draws(b: u8, next: usize, w: usize) -> bool
    ensures { result ≡ (plots b && leb next w) }
{
    plots(b) && next <= w
}

// The columns that a piece begins with, among its first n bytes, plotted as far as they fit the line.
#[tactic(auto, using(sheet::proofs::Editions::described_bounded))]
pub(crate) fn plot_run(p: Printer, piece: &[u8], n: usize, line: &mut [u16]) -> Ran
    requires { Plotting p × (p.head.column ≤ (edition_of p).columns) × (length line.old ≡ (edition_of p).columns) × (n ≡ fitting p.job piece.now) }
    ensures { (font page staging store : List ℕ)
        → given_run result page line.new staging store
        ≡ running (edition_of p) font piece.now (machine p page line.old staging store) }
{
    let w = width(p.model, p.style.pitch);
    let each = stride(p.model, p.style.pitch);
    let mut q = p;
    for (k, &b) in piece[..n].iter().enumerate() {
        let at = q.head.column;
        let next = at + each;
        if !draws(b, next, w) {
            return Ran {
                printer: q,
                taken: k,
            };
        }
        or_in(line, at, u16::from(b));
        q.head.column = next;
        q.head.fresh = false;
        q.job += 1;
    }
    Ran {
        printer: q,
        taken: n,
    }
}
