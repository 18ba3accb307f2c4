// One part of the state changed, and what came of a byte.
ghost use Rattle.std.specs.Prelude.{◌≡◌, ◌≤◌};
ghost use Rattle.sheet.specs.Form.{FormFits};
ghost use Rattle.printer.specs.declared.Event.TheVariants.{Quiet, Finished, Noted};
ghost use Rattle.printer.specs.Brackets.{reformed};
ghost use Rattle.printer.specs.Escapes.{after_reset, begin_plot, clear_tabs, set_downloaded, set_elongated, set_pitch, set_underscore};
ghost use Rattle.printer.specs.Given.{bare, stepped};
ghost use Rattle.printer.specs.Machine.{edition_of, fresh_head, with_head, with_pending};
ghost use Rattle.printer.specs.Plotting.{leave_plot};
ghost use Rattle.printer.specs.Printing.{moved_to};

use crate::tabs::tabs_through;
use printer::{Event, Fault, Head, Pending, Printer, Stepped, Style, TabSet};
use sheet::sizes::top_row;
use sheet::{Form, Pitch, Row};

// Nothing is to be told.
pub fn quiet(p: Printer) -> Stepped
    ensures { result ≡ stepped p Quiet }
{
    Stepped {
        printer: p,
        event: Event::Quiet,
    }
}

// A form is finished.
pub fn finished(p: Printer) -> Stepped
    ensures { result ≡ stepped p Finished }
{
    Stepped {
        printer: p,
        event: Event::Finished,
    }
}

// A note, with its fault and place.
pub fn noted(p: Printer, fault: Fault, place: u32) -> Stepped
    ensures { result ≡ stepped p (Noted fault place) }
{
    Stepped {
        printer: p,
        event: Event::Noted(fault, place),
    }
}

// Another command pending.
pub fn with_pending(p: Printer, next: Pending) -> Printer
    ensures { result ≡ (with_pending next (bare p)).printer }
{
    Printer { pending: next, ..p }
}

// The head at a column, on a line that is no longer fresh.
pub fn moved_to(p: Printer, column: usize) -> Printer
    ensures { result ≡ (with_head (moved_to column p.head) (bare p)).printer }
{
    let head = Head {
        column,
        fresh: false,
        ..p.head
    };
    Printer { head, ..p }
}

// The head on a fresh line at a row.
pub fn fresh(p: Printer, row: Row) -> Printer
    ensures { result ≡ (with_head (fresh_head row) (bare p)).printer }
{
    let head = Head {
        row,
        column: 0,
        fresh: true,
        plotted: false,
        plotting: false,
    };
    Printer { head, ..p }
}

pub fn set_elongated(p: Printer, on: bool) -> Printer
    ensures { result ≡ (set_elongated on (bare p)).printer }
{
    let style = Style {
        elongated: on,
        ..p.style
    };
    Printer { style, ..p }
}

pub fn set_underscore(p: Printer, on: bool) -> Printer
    ensures { result ≡ (set_underscore on (bare p)).printer }
{
    let style = Style {
        underscore: on,
        ..p.style
    };
    Printer { style, ..p }
}

pub fn set_downloaded(p: Printer, on: bool) -> Printer
    ensures { result ≡ (set_downloaded on (bare p)).printer }
{
    let style = Style {
        downloaded: on,
        ..p.style
    };
    Printer { style, ..p }
}

pub fn set_pitch(p: Printer, pitch: Pitch) -> Printer
    ensures { result ≡ (set_pitch pitch (bare p)).printer }
{
    let style = Style { pitch, ..p.style };
    Printer { style, ..p }
}

pub fn begin_plot(p: Printer) -> Printer
    ensures { result ≡ (begin_plot (bare p)).printer }
{
    let head = Head {
        fresh: false,
        plotted: true,
        plotting: true,
        ..p.head
    };
    Printer { head, ..p }
}

pub fn leave_plot(p: Printer) -> Printer
    ensures { result ≡ (leave_plot (bare p)).printer }
{
    let head = Head {
        plotting: false,
        ..p.head
    };
    Printer { head, ..p }
}

#[tactic(auto, unfolding(printer::specs::Escapes::clear_tabs, printer::specs::Tabs::no_tabs))]
pub fn clear_tabs(p: Printer) -> Printer
    ensures { result ≡ (clear_tabs (bare p)).printer }
{
    let tabs = TabSet { low: 0, high: 0 };
    Printer { tabs, ..p }
}

// Another form: the head on a fresh line at its first row, and no tab past its length.
#[tactic(auto, unfolding(printer::specs::Brackets::reformed))]
pub fn reformed(p: Printer, form: Form) -> Printer
    requires { FormFits form }
    ensures { result ≡ (reformed form (bare p)).printer }
{
    let tabs = tabs_through(p.tabs, form.lines);
    fresh(Printer { form, tabs, ..p }, top_row(form))
}

// The state after a reset: a fresh line at the same row, normal pitch, no feature and no tab.
#[tactic(auto, unfolding(printer::specs::Escapes::after_reset, printer::specs::Escapes::clear_tabs))]
pub fn after_reset(p: Printer) -> Printer
    ensures { result ≡ (after_reset (edition_of p) (bare p)).printer }
{
    let style = Style {
        pitch: Pitch::Normal,
        elongated: false,
        underscore: false,
        downloaded: false,
    };
    clear_tabs(fresh(Printer { style, ..p }, p.head.row))
}
