// A run of printing bytes.
ghost use Rattle.std.specs.Prelude.{◌≡◌, cond, ◌&&◌, List, ℕ, ◌+◌, ◌≤◌, leb, length};
ghost use Rattle.printer.specs.Alone.{prints};
ghost use Rattle.printer.specs.Given.{machine};
ghost use Rattle.printer.specs.Machine.{edition_of, store_size};
ghost use Rattle.printer.specs.Room.{Writable};
ghost use Rattle.runs.specs.Runs.{Typing, fitting, given_run, running};

use crate::Ran;
use codes::prints;
use glyph::entering::{cell, enter};
use printer::Printer;
use sheet::sizes::{stride, width};

// Whether a byte prints, and its cell, which ends before position `next`, fits a line of w positions.
pub(crate) fn enters(b: u8, next: usize, w: usize) -> bool
    ensures { result ≡ (prints b && leb next w) }
{
    prints(b) && next <= w
}

// Enters characters from the glyphs given, for as many of the first n bytes of a piece as print and fit the line.
#[tactic(auto, using(sheet::proofs::Editions::described_bounded, glyph::proofs::Cells::cell_bounds))]
fn characters(p: Printer, piece: &[u8], n: usize, line: &mut [u16], glyphs: &[u8]) -> Ran
    requires { Typing p × (p.head.column ≤ (edition_of p).columns) × (length line.old ≡ (edition_of p).columns) × (length glyphs.now ≡ store_size)
        × (n ≡ fitting p.job piece.now) }
    ensures { (page staging store font : List ℕ) → cond p.style.downloaded store font ≡ glyphs.now
        → given_run result page line.new staging store
        ≡ running (edition_of p) font piece.now (machine p page line.old staging store) }
{
    let style = p.style;
    let w = width(p.model, style.pitch);
    let step = stride(p.model, style.pitch);
    let each = step * cell(style.elongated);
    let mut q = p;
    for (k, &b) in piece[..n].iter().enumerate() {
        let at = q.head.column;
        let next = at + each;
        if !enters(b, next, w) {
            return Ran {
                printer: q,
                taken: k,
            };
        }
        enter(
            line,
            glyphs,
            usize::from(b),
            style.elongated,
            style.underscore,
            at,
            step,
        );
        q.head.column = next;
        q.head.fresh = false;
        q.job += 1;
    }
    Ran {
        printer: q,
        taken: n,
    }
}

// The characters that a piece begins with, among its first n bytes.
pub(crate) fn text_run(
    p: Printer,
    piece: &[u8],
    n: usize,
    line: &mut [u16],
    store: &[u8],
    font: &[u8],
) -> Ran
    requires { Typing p × Writable (edition_of p) p line.old store.now font.now × (n ≡ fitting p.job piece.now) }
    ensures { (page staging : List ℕ)
        → given_run result page line.new staging store.now
        ≡ running (edition_of p) font.now piece.now (machine p page line.old staging store.now) }
{
    if p.style.downloaded {
        characters(p, piece, n, line, store)
    } else {
        characters(p, piece, n, line, font)
    }
}
