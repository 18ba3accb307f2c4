// Which states are sound, and what is said of a job that is closed.
ghost use Rattle.std.specs.Prelude.{◌≡◌, true};
ghost use Rattle.sheet.specs.Edition.{described};
ghost use Rattle.printer.specs.Closing.{closing};
ghost use Rattle.printer.specs.Machine.{edition_of};
ghost use Rattle.printer.specs.Sound.{at_most_escape, begun, form_sound, fresh_sound, load_sound, place_sound, plot_sound, sound, tabs_sound};
ghost use Rattle.printer.specs.Tabs.{line_tabs};

use printer::{Closing, Head, Pending, Printer};
use sheet::sizes::{
    below_top, brackets, fits, lines_allowed, margins_allowed, spacing_allowed, unmargined, width,
};
use sheet::{Form, Model};

// Where the pending command began.
fn begun(pending: Pending) -> Option<u32>
    ensures { result ≡ begun pending }
{
    match pending {
        Pending::Nothing => None,
        Pending::Escape(place)
        | Pending::Tabs(place)
        | Pending::Reset(place)
        | Pending::Select(place)
        | Pending::SelectLow(place, _)
        | Pending::CountHigh(place)
        | Pending::CountLow(place, _)
        | Pending::AddressHigh(place, _)
        | Pending::AddressLow(place, _, _)
        | Pending::Payload(place, _)
        | Pending::Bracket(place, _) => Some(place),
    }
}

// L and the spacing are in range and the margins lie on the form; where the form can't change they are its own ends.
#[tactic(auto, unfolding(printer::specs::Sound::form_sound))]
pub fn form_sound(model: Model, form: Form) -> bool
    ensures { result ≡ form_sound (described model) form }
{
    if !lines_allowed(model, form.lines) {
        return false;
    }
    if !spacing_allowed(form.spacing) {
        return false;
    }
    if !margins_allowed(form) {
        return false;
    }
    brackets(model) || unmargined(form)
}

// Tabs lie on lines of the form.
#[tactic(auto, using(printer::proofs::TabBits::untabbed_low, printer::proofs::TabBits::untabbed_high, printer::proofs::TabBits::untabbed_past), unfolding(printer::specs::Sound::tabs_sound))]
fn tabs_sound(p: Printer) -> bool
    ensures { result ≡ tabs_sound p.form (line_tabs p.tabs) }
{
    let lines = p.form.lines;
    let tabs = p.tabs;
    if lines < 64 {
        return tabs.low >> lines == 0 && tabs.high == 0;
    }
    if lines < 128 {
        return tabs.high >> (lines - 64) == 0;
    }
    true
}

// No more payload is taken than counted, and ESC [ has begun a command only where it can.
fn load_sound(model: Model, pending: Pending) -> bool
    ensures { result ≡ load_sound (described model) pending }
{
    match pending {
        Pending::Payload(_, load) => load.taken <= load.count,
        Pending::Bracket(_, _) => brackets(model),
        _ => true,
    }
}

// A started command's place is below the job length.
fn place_sound(job: u32, started: Option<u32>) -> bool
    ensures { result ≡ place_sound job started }
{
    match started {
        None => true,
        Some(place) => place < job,
    }
}

// A fresh line is at column 0 and no plot line.
#[tactic(auto, unfolding(printer::specs::Sound::fresh_sound))]
fn fresh_sound(head: Head) -> bool
    ensures { result ≡ fresh_sound head }
{
    !head.fresh || (head.column == 0 && !head.plotted)
}

// No command is begun, or none but a lone ESC.
fn at_most_escape(pending: Pending) -> bool
    ensures { result ≡ at_most_escape pending }
{
    matches!(pending, Pending::Nothing | Pending::Escape(_))
}

// Plot mode holds only on a plot line, with no command begun but a lone ESC.
#[tactic(auto, unfolding(printer::specs::Sound::plot_sound))]
fn plot_sound(head: Head, pending: Pending) -> bool
    ensures { result ≡ plot_sound head pending }
{
    !head.plotting || (head.plotted && at_most_escape(pending))
}

// A state that bytes may be fed to, where its form is sound.
#[tactic(auto, using(crate::proofs::Forms::tested_bounded), unfolding(printer::specs::Sound::sound))]
pub fn rest_sound(p: Printer) -> bool
    requires { form_sound (edition_of p) p.form ≡ true }
    ensures { result ≡ sound (edition_of p) p }
{
    let model = p.model;
    let form = p.form;
    let head = p.head;
    let style = p.style;
    let pitch = style.pitch;
    let pending = p.pending;
    if !below_top(form, head.row) {
        return false;
    }
    if !fits(form, head.row) {
        return false;
    }
    if width(model, pitch) < head.column {
        return false;
    }
    if !tabs_sound(p) {
        return false;
    }
    if !load_sound(model, pending) {
        return false;
    }
    if !place_sound(p.job, begun(pending)) {
        return false;
    }
    if !fresh_sound(head) {
        return false;
    }
    plot_sound(head, pending)
}

// A state that bytes may be fed to.
#[tactic(auto, unfolding(printer::specs::Sound::sound))]
pub fn sound(p: Printer) -> bool
    ensures { result ≡ sound (edition_of p) p }
{
    let model = p.model;
    let form = p.form;
    if !form_sound(model, form) {
        return false;
    }
    rest_sound(p)
}

// What is said of a job that is closed in this state.
#[tactic(auto, unfolding(printer::specs::Closing::closing, printer::specs::Closing::close_command, printer::specs::Closing::close_line))]
pub fn closing(p: Printer) -> Closing
    ensures { result ≡ closing (edition_of p) p }
{
    if !sound(p) {
        return Closing::Unsound;
    }
    let pending = p.pending;
    match begun(pending) {
        Some(place) => Closing::Unfinished(place),
        None => {
            if p.head.fresh {
                Closing::Clean
            } else {
                Closing::Unprinted
            }
        }
    }
}
