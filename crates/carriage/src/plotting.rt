// Plot mode.
ghost use Rattle.std.specs.Prelude.{◌≡◌, List, ℕ};
ghost use Rattle.printer.specs.Given.{given, machine};
ghost use Rattle.printer.specs.Machine.{edition_of};
ghost use Rattle.printer.specs.Plotting.{plot, plot_byte, plot_escape};
ghost use Rattle.printer.specs.Room.{OnLine};

use codes::plots;
use glyph::entering::or_in;
use printer::{Fault, Printer, Stepped};
use sheet::sizes::{stride, width};
use state::parts::{leave_plot, moved_to, noted, quiet};

// A plotted column.
#[tactic(auto, using(crate::proofs::Rooms::columns_most, crate::proofs::Rooms::width_most, crate::proofs::Rooms::stride_some, crate::proofs::Rooms::stride_most), unfolding(printer::specs::Plotting::plot))]
fn plot(p: Printer, v: u8, place: u32, line: &mut [u16]) -> Stepped
    requires { OnLine (edition_of p) p line.old }
    ensures { (page staging store : List ℕ)
        → given result page line.new staging store ≡ plot (edition_of p) v place (machine p page line.old staging store) }
{
    let pitch = p.style.pitch;
    let at = p.head.column;
    let next = at + stride(p.model, pitch);
    if next <= width(p.model, pitch) {
        or_in(line, at, u16::from(v));
        quiet(moved_to(p, next))
    } else {
        noted(p, Fault::LineFull, place)
    }
}

// A byte by itself, other than 1B.
#[tactic(auto, unfolding(printer::specs::Plotting::plot_byte))]
pub fn plot_byte(p: Printer, b: u8, place: u32, line: &mut [u16]) -> Stepped
    requires { OnLine (edition_of p) p line.old }
    ensures { (page staging store : List ℕ)
        → given result page line.new staging store ≡ plot_byte (edition_of p) b place (machine p page line.old staging store) }
{
    if plots(b) {
        plot(p, b, place, line)
    } else {
        noted(p, Fault::HighByte, place)
    }
}

// ESC and a byte.
#[tactic(auto, unfolding(printer::specs::Plotting::plot_escape))]
pub fn plot_escape(p: Printer, b: u8, place: u32, line: &mut [u16]) -> Stepped
    requires { OnLine (edition_of p) p line.old }
    ensures { (page staging store : List ℕ)
        → given result page line.new staging store ≡ plot_escape (edition_of p) b place (machine p page line.old staging store) }
{
    match b {
        0x1b => plot(p, 0x1b, place, line),
        0x65 => quiet(leave_plot(p)),
        _ => noted(p, Fault::WrongBytes, place),
    }
}
