// A printing byte.
ghost use Rattle.std.specs.Prelude.{◌≡◌, cond, List, ℕ, ◌+◌, ◌*◌, ◌≤◌, ◌<◌, length};
ghost use Rattle.glyph.specs.Entering.{cell, enter};
ghost use Rattle.printer.specs.Given.{given, machine};
ghost use Rattle.printer.specs.Machine.{edition_of, store_size};
ghost use Rattle.printer.specs.Printing.{print};
ghost use Rattle.printer.specs.Room.{Writable};

use glyph::entering::{cell, enter};
use printer::{Fault, Printer, Stepped, Style};
use sheet::sizes::{stride, width};
use state::parts::{moved_to, noted, quiet};

// Enters a character in a style, its glyph from the download store or from the resident font.
fn draw(line: &mut [u16], store: &[u8], font: &[u8], style: Style, b: u8, at: usize, stride: usize)
    requires room { (1 ≤ stride) × (stride ≤ 5) × (at + stride * cell style.elongated ≤ length line.old) }
    requires stores { (length store.now ≡ store_size) × (length font.now ≡ store_size) × (b < 128) }
    ensures { line.new ≡ enter (cond style.downloaded store.now font.now) b
        style.elongated style.underscore at stride line.old }
{
    let n = usize::from(b);
    let wide = style.elongated;
    let underscored = style.underscore;
    if style.downloaded {
        enter(line, store, n, wide, underscored, at, stride);
    } else {
        enter(line, font, n, wide, underscored, at, stride);
    }
}

// A character.
#[tactic(auto, using(crate::proofs::Rooms::columns_most, crate::proofs::Rooms::width_most, crate::proofs::Rooms::stride_some, crate::proofs::Rooms::stride_most, glyph::proofs::Cells::cell_bounds), unfolding(printer::specs::Printing::print, printer::specs::Printing::entered))]
pub fn print(p: Printer, b: u8, place: u32, line: &mut [u16], store: &[u8], font: &[u8]) -> Stepped
    requires { Writable (edition_of p) p line.old store.now font.now × (b < 128) }
    ensures { (page staging : List ℕ)
        → given result page line.new staging store.now
        ≡ print (edition_of p) font.now b place (machine p page line.old staging store.now) }
{
    if p.head.plotted {
        return noted(p, Fault::PlotLine, place);
    }
    let model = p.model;
    let style = p.style;
    let pitch = style.pitch;
    let at = p.head.column;
    let step = stride(model, pitch);
    let next = at + step * cell(style.elongated);
    if next <= width(model, pitch) {
        draw(line, store, font, style, b, at, step);
        quiet(moved_to(p, next))
    } else {
        noted(p, Fault::LineFull, place)
    }
}
