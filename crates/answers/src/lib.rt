// What the calls answer: which of what is lent doesn't fit, the state at the start of a job, and what a call gives back.
#![tactic(auto)]

ghost use Rattle.std.specs.Prelude.{◌≡◌, ◌+◌, ◌≤◌};
ghost use Rattle.sheet.specs.Edition.{described};
ghost use Rattle.sheet.specs.Form.{TopFits};
ghost use Rattle.printer.specs.declared.Printer.{Printer};
ghost use Rattle.printer.specs.Given.{machine};
ghost use Rattle.printer.specs.Machine.{new_printer, shut};
ghost use Rattle.protocol.specs.Calls.{fit, opening};
ghost use Rattle.protocol.specs.Given.{answer_to, is_quiet, fed};

use printer::{Event, Head, Pending, Printer, STORE_BYTES, Stepped, Style, TabSet};
use protocol::{Answer, Fed, Lent, Opened};
use sheet::sizes::{line_numbers, lines_allowed, new_form, page_bytes, spacing_allowed, top_row};
use sheet::{Form, Model, Pitch};

// The first of what is lent that has not its exact length.
#[tactic(auto, unfolding(protocol::specs::Calls::fit))]
pub fn fit(
    model: Model,
    form: Form,
    page: &[u8],
    line: &[u16],
    staging: &[u8],
    store: &[u8],
    font: &[u8],
) -> Result<(), Lent>
    requires { form.lines ≤ 112 }
    ensures { (p : Printer) → result
        ≡ fit (described model) form font.now (machine p page.now line.now staging.now store.now) }
{
    if page.len() != page_bytes(model, form) {
        return Err(Lent::Page);
    }
    if line.len() != line_numbers(model) {
        return Err(Lent::LineStore);
    }
    if staging.len() != STORE_BYTES {
        return Err(Lent::Staging);
    }
    if store.len() != STORE_BYTES {
        return Err(Lent::DownloadStore);
    }
    if font.len() != STORE_BYTES {
        return Err(Lent::Font);
    }
    Ok(())
}

// What opening answers to what is lent, before it writes anything.
#[tactic(auto, using(sheet::proofs::Editions::described_bounded), unfolding(protocol::specs::Calls::opening, protocol::specs::Calls::open_fitted, sheet::specs::Form::lines_allowed))]
pub fn admit(
    model: Model,
    lines: usize,
    spacing: usize,
    page: &[u8],
    line: &[u16],
    staging: &[u8],
    store: &[u8],
    font: &[u8],
) -> Answer
    ensures { (p : Printer) → result
        ≡ (opening model lines spacing font.now
        (machine p page.now line.now staging.now store.now)).answer }
{
    if !lines_allowed(model, lines) {
        return Answer::WrongLines;
    }
    if !spacing_allowed(spacing) {
        return Answer::WrongSpacing;
    }
    let form = new_form(lines, spacing);
    match fit(model, form, page, line, staging, store, font) {
        Err(lent) => Answer::Misfit(lent),
        Ok(()) => Answer::Done,
    }
}

// The state at the start of a job.
#[tactic(auto, unfolding(printer::specs::Tabs::no_tabs))]
pub fn new_printer(model: Model, form: Form) -> Printer
    requires { TopFits form }
    ensures { result ≡ new_printer model form }
{
    let head = Head {
        row: top_row(form),
        column: 0,
        fresh: true,
        plotted: false,
        plotting: false,
    };
    let style = Style {
        pitch: Pitch::Normal,
        elongated: false,
        underscore: false,
        downloaded: false,
    };
    let tabs = TabSet { low: 0, high: 0 };
    Printer {
        model,
        form,
        job: 0,
        pending: Pending::Nothing,
        head,
        style,
        tabs,
    }
}

// A refused opening, with the shut state.
pub fn unopened(model: Model, answer: Answer) -> Opened
    ensures { result ≡ record { printer = shut model; answer = answer } }
{
    Opened {
        printer: new_printer(model, new_form(0, 0)),
        answer,
    }
}

// Nothing is to be told of a byte.
pub fn is_quiet(event: Event) -> bool
    ensures { result ≡ is_quiet event }
{
    matches!(event, Event::Quiet)
}

// What a feeding gives back.
pub fn given(printer: Printer, answer: Answer, taken: usize) -> Fed
    ensures { result ≡ fed printer answer taken }
{
    Fed {
        printer,
        answer,
        taken,
    }
}

// The answer of a call that has taken n bytes before the one that came to an event.
pub fn answer_to(s: Stepped, n: usize) -> Fed
    requires { n + 1 ≤ 18446744073709551615 }
    ensures { result ≡ answer_to s.event s.printer n }
{
    let p = s.printer;
    let event = s.event;
    match event {
        Event::Quiet => given(p, Answer::Done, n + 1),
        Event::Finished => given(p, Answer::Finished, n + 1),
        Event::Noted(fault, place) => given(p, Answer::Noted(fault, place), n + 1),
    }
}

// The count of the bytes taken, with those of the piece that were taken before.
pub fn counted(f: Fed, before: usize) -> Fed
    requires { before + f.taken ≤ 18446744073709551615 }
    ensures { result ≡ fed f.printer f.answer (before + f.taken) }
{
    Fed {
        taken: before + f.taken,
        ..f
    }
}
