// The commands that ESC [ begins: print styles, the form's length and margins, its spacing. Document 02, #105.
ghost use Rattle.std.specs.Prelude.{◌≡◌, ◌≤◌, true, ◌&&◌, nat_lt};
ghost use Rattle.sheet.specs.Form.{FormFits, lines_allowed, margins_allowed};
ghost use Rattle.printer.specs.Brackets.{at_top, bracket, continues, digit_read, only, or_kept, reform, resize, resized, respace, respaced, restyled};
ghost use Rattle.printer.specs.Brackets.{semicolon_read, setting_byte, style, with_digit};
ghost use Rattle.printer.specs.Facts.{SoundForm};
ghost use Rattle.printer.specs.Given.{bare, over};
ghost use Rattle.printer.specs.Machine.{Machine, edition_of, with_printer};

use crate::escapes::repitched;
use printer::{Fault, Printer, Settings, Stepped};
use sheet::counts::{line, lines_through, rows_above};
use sheet::sizes::{lines_allowed, margins_allowed, top_row};
use sheet::{Form, Pitch};
use state::parts::{finished, noted, reformed, set_elongated, set_pitch};

// The largest number that is kept; all larger ones count as it, which no command takes.
const MOST_KEPT: u32 = 9999;

// A number with one digit more.
#[tactic(auto, unfolding(printer::specs::Brackets::with_digit))]
fn with_digit(setting: Option<u16>, d: u8) -> Option<u16>
    ensures { result ≡ with_digit d setting }
{
    match setting {
        None => Some(u16::from(d)),
        Some(n) => {
            let more = 10 * u32::from(n) + u32::from(d);
            if more < MOST_KEPT {
                Some(more as u16)
            } else {
                Some(MOST_KEPT as u16)
            }
        }
    }
}

// A digit, which belongs to the number that the semicolons before it tell.
#[tactic(auto, unfolding(printer::specs::Brackets::digit_read))]
fn digit_read(s: Settings, d: u8) -> Settings
    ensures { result ≡ digit_read d s }
{
    let first = s.first;
    let second = s.second;
    let third = s.third;
    match s.semicolons {
        0 => Settings {
            first: with_digit(first, d),
            ..s
        },
        1 => Settings {
            second: with_digit(second, d),
            ..s
        },
        2 => Settings {
            third: with_digit(third, d),
            ..s
        },
        _ => s,
    }
}

// A semicolon; three are too many, and more count as three.
fn semicolon_read(s: Settings) -> Settings
    ensures { result ≡ semicolon_read s }
{
    let semicolons = if s.semicolons < 3 {
        s.semicolons + 1
    } else {
        3
    };
    Settings { semicolons, ..s }
}

// A digit or a semicolon.
#[tactic(auto, using(printer::proofs::Capped::digit_least), unfolding(printer::specs::Brackets::setting_byte))]
pub fn setting_byte(s: Settings, b: u8) -> Settings
    requires { continues b ≡ true }
    ensures { result ≡ setting_byte b s }
{
    if b == 0x3b {
        semicolon_read(s)
    } else {
        digit_read(s, b - 0x30)
    }
}

// The number of a command that takes one, and no semicolon.
#[tactic(auto, unfolding(printer::specs::Brackets::only))]
fn only(s: Settings) -> Option<u16>
    ensures { result ≡ only s }
{
    if s.semicolons == 0 { s.first } else { None }
}

// An omitted number keeps its setting.
fn or_kept(setting: Option<u16>, n: usize) -> usize
    ensures { result ≡ or_kept setting n }
{
    match setting {
        None => n,
        Some(k) => usize::from(k),
    }
}

// A form with length and margins as given.
fn resized(s: Settings, form: Form) -> Form
    ensures { result ≡ resized s form }
{
    let first = s.first;
    let second = s.second;
    let third = s.third;
    Form {
        lines: or_kept(first, form.lines),
        top: line(or_kept(second, lines_through(form.top))),
        bottom: line(or_kept(third, lines_through(form.bottom))),
        ..form
    }
}

// A form at another spacing.
fn respaced(form: Form, spacing: usize) -> Form
    ensures { result ≡ respaced spacing form }
{
    Form { spacing, ..form }
}

// In place: on a fresh line at the top margin's first row.
#[tactic(auto, using(state::proofs::Forms::top_bounded), unfolding(printer::specs::Brackets::at_top))]
fn at_top(p: Printer) -> bool
    requires { SoundForm (edition_of p) p.form }
    ensures { result ≡ at_top (bare p) }
{
    let form = p.form;
    let row = p.head.row;
    p.head.fresh && rows_above(row) == rows_above(top_row(form))
}

// Another form, where it is allowed and in place; else a note.
#[tactic(auto, unfolding(printer::specs::Brackets::reform, printer::specs::Brackets::reformed, printer::specs::Brackets::at_top))]
fn reform(p: Printer, allowed: bool, form: Form, place: u32) -> Stepped
    requires sound_form { SoundForm (edition_of p) p.form }
    requires allowed_form { allowed ≡ true → FormFits form }
    ensures { (m : Machine) → over m result ≡ reform allowed form place (with_printer p m) }
{
    if !allowed {
        return noted(p, Fault::FormSetting, place);
    }
    if !at_top(p) {
        return noted(p, Fault::FormSetting, place);
    }
    finished(reformed(p, form))
}

// A print style: pitch and elongation.
fn restyled(p: Printer, pitch: Pitch, elongated: bool, place: u32) -> Stepped
    ensures { (m : Machine) → over m result ≡ restyled (edition_of p) pitch elongated place (with_printer p m) }
{
    repitched(p, set_elongated(set_pitch(p, pitch), elongated), place)
}

// v w.
#[tactic(auto, unfolding(printer::specs::Brackets::style))]
fn style(p: Printer, setting: Option<u16>, place: u32) -> Stepped
    ensures { (m : Machine) → over m result ≡ style (edition_of p) setting place (with_printer p m) }
{
    match setting {
        None => noted(p, Fault::WrongBytes, place),
        Some(v) => match v {
            0 => restyled(p, Pitch::Normal, true, place),
            2 => restyled(p, Pitch::Compressed, true, place),
            4 => restyled(p, Pitch::Normal, false, place),
            6 => restyled(p, Pitch::Compressed, false, place),
            _ => noted(p, Fault::WrongBytes, place),
        },
    }
}

// Whether a form that was set is one.
fn form_allowed(p: Printer, s: Settings, form: Form) -> bool
    ensures { result ≡ (nat_lt s.semicolons 3 && lines_allowed (edition_of p) form.lines && margins_allowed form) }
{
    let model = p.model;
    if 3 <= s.semicolons {
        return false;
    }
    lines_allowed(model, form.lines) && margins_allowed(form)
}

// N1;N2;N3 r.
#[tactic(auto, using(crate::proofs::Reforming::allowed_bounded), unfolding(printer::specs::Brackets::resize))]
fn resize(p: Printer, s: Settings, place: u32) -> Stepped
    requires { SoundForm (edition_of p) p.form }
    ensures { (m : Machine) → over m result ≡ resize (edition_of p) s place (with_printer p m) }
{
    let form = p.form;
    let new = resized(s, form);
    reform(p, form_allowed(p, s, new), new, place)
}

// 1 z, 2 z.
#[tactic(auto, using(state::proofs::Forms::form_bounded), unfolding(printer::specs::Brackets::respace))]
fn respace(p: Printer, setting: Option<u16>, place: u32) -> Stepped
    requires { SoundForm (edition_of p) p.form }
    ensures { (m : Machine) → over m result ≡ respace (edition_of p) setting place (with_printer p m) }
{
    let form = p.form;
    match setting {
        None => noted(p, Fault::WrongBytes, place),
        Some(v) => match v {
            1 => reform(p, true, respaced(form, 6), place),
            2 => reform(p, true, respaced(form, 8), place),
            _ => noted(p, Fault::WrongBytes, place),
        },
    }
}

// The whole command, by its last byte.
#[tactic(auto, unfolding(printer::specs::Brackets::bracket))]
pub fn bracket(p: Printer, s: Settings, last: u8, place: u32) -> Stepped
    requires { SoundForm (edition_of p) p.form }
    ensures { (m : Machine) → over m result ≡ bracket (edition_of p) s last place (with_printer p m) }
{
    match last {
        0x77 => style(p, only(s), place),
        0x72 => resize(p, s, place),
        0x7a => respace(p, only(s), place),
        _ => noted(p, Fault::UnknownCommand, place),
    }
}
