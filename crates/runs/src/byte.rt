// A single byte that goes on a run: a character or a column.
ghost use Rattle.std.specs.Prelude.{◌≡◌, cond, List, [], ◌∷◌, ℕ, ◌≤◌, ◌<◌, length};
ghost use Rattle.printer.specs.declared.Pending.TheVariants.{Nothing};
ghost use Rattle.printer.specs.Given.{machine};
ghost use Rattle.printer.specs.Machine.{edition_of, limit, store_size};
ghost use Rattle.printer.specs.Room.{Writable};
ghost use Rattle.runs.specs.Runs.{Plotting, Typing, given_run, reached, running};

use crate::plots::draws;
use crate::text::enters;
use glyph::entering::{cell, enter, or_in};
use printer::{JOB_LIMIT, Printer};
use sheet::sizes::{stride, width};

// A byte plotted, if it is a column and fits the line.
#[tactic(auto, using(crate::proofs::Plotted::draws_on, crate::proofs::Plotted::draws_step), unfolding(sheet::specs::Edition::lp2, sheet::specs::Edition::dg6215, crate::specs::Runs::reached, crate::specs::Runs::running))]
fn column(p: Printer, b: u8, line: &mut [u16]) -> Option<usize>
    requires { Plotting p × (p.job < limit) × (p.head.column ≤ (edition_of p).columns) × (length line.old ≡ (edition_of p).columns) }
    ensures { (font page staging store : List ℕ)
        → given_run (reached result p) page line.new staging store
        ≡ running (edition_of p) font (b ∷ []) (machine p page line.old staging store) }
{
    let model = p.model;
    let style = p.style;
    let pitch = style.pitch;
    let w = width(model, pitch);
    let at = p.head.column;
    let next = at + stride(model, pitch);
    if !draws(b, next, w) {
        return None;
    }
    or_in(line, at, u16::from(b));
    Some(next)
}

// A byte entered from the glyphs given, if it prints and its cell fits the line.
#[tactic(auto, using(crate::proofs::Typed::types_on, crate::proofs::Typed::types_step), unfolding(sheet::specs::Edition::lp2, sheet::specs::Edition::dg6215, glyph::specs::Entering::cell, crate::specs::Runs::reached, crate::specs::Runs::running, printer::specs::Printing::entered, printer::specs::Alone::prints))]
fn character(p: Printer, b: u8, line: &mut [u16], glyphs: &[u8]) -> Option<usize>
    requires { Typing p × (p.job < limit) × (p.head.column ≤ (edition_of p).columns) × (length line.old ≡ (edition_of p).columns)
        × (length glyphs.now ≡ store_size) }
    ensures { (page staging store font : List ℕ) → cond p.style.downloaded store font ≡ glyphs.now
        → given_run (reached result p) page line.new staging store
        ≡ running (edition_of p) font (b ∷ []) (machine p page line.old staging store) }
{
    let model = p.model;
    let style = p.style;
    let pitch = style.pitch;
    let w = width(model, pitch);
    let step = stride(model, pitch);
    let at = p.head.column;
    let next = at + step * cell(style.elongated);
    if !enters(b, next, w) {
        return None;
    }
    enter(
        line,
        glyphs,
        usize::from(b),
        style.elongated,
        style.underscore,
        at,
        step,
    );
    Some(next)
}

// With nothing pending: a column in plot mode, a character outside it, and neither on a plot line that plot mode has left or in a job that is full.
#[tactic(auto, unfolding(crate::specs::Runs::reached, crate::specs::Runs::running, crate::specs::Runs::goes_on))]
pub fn single(p: Printer, b: u8, line: &mut [u16], store: &[u8], font: &[u8]) -> Option<usize>
    requires { (p.pending ≡ Nothing) × Writable (edition_of p) p line.old store.now font.now }
    ensures { (page staging : List ℕ)
        → given_run (reached result p) page line.new staging store.now
        ≡ running (edition_of p) font.now (b ∷ []) (machine p page line.old staging store.now) }
{
    if p.job == JOB_LIMIT {
        return None;
    }
    if p.head.plotting {
        return column(p, b, line);
    }
    if p.head.plotted {
        return None;
    }
    if p.style.downloaded {
        character(p, b, line, store)
    } else {
        character(p, b, line, font)
    }
}
