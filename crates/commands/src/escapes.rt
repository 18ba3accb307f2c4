// The commands that ESC begins, but for the download and for those that ESC [ begins.
ghost use Rattle.std.specs.Prelude.{◌≡◌, ℕ, ◌≤◌, List, length};
ghost use Rattle.sheet.specs.Form.{has_line};
ghost use Rattle.printer.specs.Escapes.{escape, in_turn, repitched, reset, select, tab, tab_here, tab_item};
ghost use Rattle.printer.specs.Given.{bare, given, machine, over};
ghost use Rattle.printer.specs.Machine.{Machine, edition_of, store_size, with_printer};

use printer::{Fault, Printer, Stepped};
use sheet::counts::{line, lines_above};
use sheet::sizes::{line_of, mixed};
use sheet::{Form, Line, Pitch};
use state::parts::{
    after_reset, begin_plot, noted, quiet, set_downloaded, set_elongated, set_pitch, set_underscore,
};
use state::tabs::with_tab;

// The tab of a line set or cleared.
#[tactic(auto, unfolding(printer::specs::Escapes::tab))]
fn tab(p: Printer, on: bool, line: Line) -> Printer
    requires { 1 ≤ line.0 }
    ensures { result ≡ (tab on line (bare p)).printer }
{
    let tabs = with_tab(p.tabs, lines_above(line), on);
    Printer { tabs, ..p }
}

// The tab of the current line.
#[tactic(auto, unfolding(printer::specs::Escapes::tab_here, sheet::specs::Form::line_of))]
fn tab_here(p: Printer, on: bool) -> Printer
    ensures { result ≡ (tab_here on (bare p)).printer }
{
    let form = p.form;
    let row = p.head.row;
    tab(p, on, line_of(form, row))
}

#[tactic(auto, unfolding(sheet::specs::Form::has_line))]
fn has_line(form: Form, n: usize) -> bool
    ensures { result ≡ has_line form n }
{
    1 <= n && n <= form.lines
}

// An item of a tab list, at its own place.
#[tactic(auto, unfolding(printer::specs::Escapes::tab_item, printer::specs::Escapes::tab, sheet::specs::Form::has_line))]
pub fn tab_item(p: Printer, n: u8, place: u32) -> Stepped
    ensures { (m : Machine) → over m result ≡ tab_item n place (with_printer p m) }
{
    let form = p.form;
    let number = n as usize;
    if has_line(form, number) {
        quiet(tab(p, true, line(number)))
    } else {
        noted(p, Fault::TabLine, place)
    }
}

// What is allowed on fresh lines only.
#[tactic(auto, unfolding(printer::specs::Escapes::in_turn))]
fn in_turn(p: Printer, after: Printer, place: u32) -> Stepped
    ensures { (m : Machine) → over m result ≡ in_turn place (with_printer p m) (with_printer after m) }
{
    if p.head.fresh {
        quiet(after)
    } else {
        noted(p, Fault::OutOfTurn, place)
    }
}

// What is allowed anywhere where the model lets the pitch change, else on fresh lines only.
#[tactic(auto, unfolding(printer::specs::Escapes::repitched))]
pub(crate) fn repitched(p: Printer, after: Printer, place: u32) -> Stepped
    ensures { (m : Machine) → over m result ≡ repitched (edition_of p) place (with_printer p m) (with_printer after m) }
{
    let model = p.model;
    if mixed(model) {
        quiet(after)
    } else {
        in_turn(p, after, place)
    }
}

// ESC c and a byte.
#[tactic(auto, using(sheet::proofs::Emptying::line_emptied, printer::proofs::Ready::store_emptied), unfolding(printer::specs::Escapes::reset, printer::specs::Escapes::after_reset, printer::specs::Escapes::clear_tabs))]
pub fn reset(p: Printer, b: u8, place: u32, line: &mut [u16], store: &mut [u8]) -> Stepped
    requires { (length line.old ≡ (edition_of p).columns) × (length store.old ≡ store_size) }
    ensures { (page staging : List ℕ) → given result page line.new staging store.new
        ≡ reset (edition_of p) b place (machine p page line.old staging store.old) }
{
    if b != 0 {
        return noted(p, Fault::WrongBytes, place);
    }
    line.fill(0);
    store.fill(0);
    quiet(after_reset(p))
}

// ESC N and two bytes.
#[tactic(auto, unfolding(printer::specs::Escapes::select))]
pub fn select(p: Printer, high: u8, low: u8, place: u32) -> Stepped
    ensures { (m : Machine) → over m result ≡ select high low place (with_printer p m) }
{
    if high != 4 {
        return noted(p, Fault::WrongBytes, place);
    }
    if low != 0 {
        return noted(p, Fault::WrongBytes, place);
    }
    quiet(set_downloaded(p, true))
}

// ESC and one byte, which with it is a whole command, or unknown.
#[tactic(auto, unfolding(printer::specs::Escapes::escape, printer::specs::Escapes::tab_here, printer::specs::Escapes::tab))]
pub fn escape(p: Printer, b: u8, place: u32) -> Stepped
    ensures { (m : Machine) → over m result ≡ escape (edition_of p) b place (with_printer p m) }
{
    match b {
        0x35 => quiet(tab_here(p, true)),
        0x36 => quiet(tab_here(p, false)),
        0x3c => quiet(set_elongated(p, true)),
        0x3d => quiet(set_elongated(p, false)),
        0x61 => quiet(set_underscore(p, true)),
        0x62 => quiet(set_underscore(p, false)),
        0x3e => repitched(p, set_pitch(p, Pitch::Compressed), place),
        0x3f => repitched(p, set_pitch(p, Pitch::Normal), place),
        0x64 => in_turn(p, begin_plot(p), place),
        0x65 => quiet(p),
        0x4f => quiet(set_downloaded(p, false)),
        _ => noted(p, Fault::UnknownCommand, place),
    }
}
