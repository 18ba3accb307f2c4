// One byte of a job, by what is pending.
ghost use Rattle.std.specs.Prelude.{◌≡◌, List, ℕ, ◌≤◌, ◌<◌, length};
ghost use Rattle.glyph.specs.Words.{high_first};
ghost use Rattle.printer.specs.Alone.{alone, text_byte};
ghost use Rattle.printer.specs.Bytes.{act, bracket_byte, first_byte, second_byte, step, tab_byte, text_escape, waiting};
ghost use Rattle.printer.specs.Facts.{SoundForm};
ghost use Rattle.printer.specs.Given.{LentOn, given, given_in, machine, machine_in, over};
ghost use Rattle.printer.specs.Machine.{Machine, edition_of, limit, with_printer};
ghost use Rattle.printer.specs.Room.{OnLine, RoomIn, Strikable, Writable};

use carriage::plotting::{plot_byte, plot_escape};
use carriage::printing::print;
use carriage::terminators::{carriage_return, form_feed, newline, vertical_tab};
use codes::{continues, prints};
use commands::brackets::{bracket, setting_byte};
use commands::downloads::payload_byte;
use commands::escapes::{escape, reset, select, tab_item};
use printer::{Fault, Load, Memory, Pending, Printer, Settings, Stepped};
use sheet::sizes::brackets;
use state::parts::{clear_tabs, noted, quiet, with_pending};

// Two bytes as one number, high first.
fn high_first(high: u8, low: u8) -> u16
    ensures { result ≡ high_first high low }
{
    u16::from_be_bytes([high, low])
}

// A byte that ends no command.
fn waiting(p: Printer, next: Pending) -> Stepped
    ensures { (m : Machine) → over m result ≡ waiting next (with_printer p m) }
{
    quiet(with_pending(p, next))
}

// A byte that is a whole command outside plot mode.
#[tactic(auto, unfolding(printer::specs::Alone::text_byte, printer::specs::Alone::prints))]
fn text_byte(p: Printer, b: u8, place: u32, memory: &mut Memory<'_>) -> Stepped
    requires { Strikable (edition_of p) p memory.old.page.now memory.old.line.now
        × Writable (edition_of p) p memory.old.line.now memory.old.store.now memory.old.font.now }
    ensures stepped { given_in result memory.new
        ≡ text_byte (edition_of p) memory.old.font.now b place (machine_in p memory.old) }
    ensures lent { LentOn memory.old memory.new }
{
    if prints(b) {
        let font = memory.font;
        return print(p, b, place, memory.line, &mut *memory.store, font);
    }
    match b {
        0x00 | 0x07 | 0x7f => quiet(p),
        0x0a => newline(p, memory.page, memory.line),
        0x0b => vertical_tab(p, memory.page, memory.line),
        0x0c => form_feed(p, memory.page, memory.line),
        0x0d => carriage_return(p, memory.page, memory.line),
        0x80..=0xff => noted(p, Fault::HighByte, place),
        _ => noted(p, Fault::UnnamedControl, place),
    }
}

// A byte other than 1B, in plot mode or outside it.
#[tactic(auto, unfolding(printer::specs::Alone::alone))]
fn alone(p: Printer, b: u8, place: u32, memory: &mut Memory<'_>) -> Stepped
    requires { Strikable (edition_of p) p memory.old.page.now memory.old.line.now
        × Writable (edition_of p) p memory.old.line.now memory.old.store.now memory.old.font.now }
    ensures stepped { given_in result memory.new
        ≡ alone (edition_of p) memory.old.font.now b place (machine_in p memory.old) }
    ensures lent { LentOn memory.old memory.new }
{
    if p.head.plotting {
        plot_byte(p, b, place, memory.line)
    } else {
        text_byte(p, b, place, memory)
    }
}

// A byte with nothing pending.
#[tactic(auto, unfolding(printer::specs::Bytes::first_byte))]
fn first_byte(p: Printer, b: u8, place: u32, memory: &mut Memory<'_>) -> Stepped
    requires { Strikable (edition_of p) p memory.old.page.now memory.old.line.now
        × Writable (edition_of p) p memory.old.line.now memory.old.store.now memory.old.font.now }
    ensures stepped { given_in result memory.new
        ≡ first_byte (edition_of p) memory.old.font.now b place (machine_in p memory.old) }
    ensures lent { LentOn memory.old memory.new }
{
    if b == 0x1b {
        waiting(p, Pending::Escape(place))
    } else {
        alone(p, b, place, memory)
    }
}

// ESC [: a command begins where it can, else there is none of the name.
#[tactic(auto, unfolding(printer::specs::Escapes::escape, printer::specs::Bytes::text_escape))]
fn bracket_begun(p: Printer, place: u32) -> Stepped
    ensures { (m : Machine) → over m result ≡ text_escape (edition_of p) 0x5b place (with_printer p m) }
{
    let model = p.model;
    if brackets(model) {
        let none = Settings {
            first: None,
            second: None,
            third: None,
            semicolons: 0,
        };
        waiting(p, Pending::Bracket(place, none))
    } else {
        noted(
            with_pending(p, Pending::Nothing),
            Fault::UnknownCommand,
            place,
        )
    }
}

// The byte after ESC, outside plot mode.
#[tactic(auto, unfolding(printer::specs::Bytes::text_escape))]
fn text_escape(p: Printer, b: u8, place: u32) -> Stepped
    ensures { (m : Machine) → over m result ≡ text_escape (edition_of p) b place (with_printer p m) }
{
    match b {
        0x46 => waiting(clear_tabs(p), Pending::Tabs(place)),
        0x63 => waiting(p, Pending::Reset(place)),
        0x59 => waiting(p, Pending::CountHigh(place)),
        0x4e => waiting(p, Pending::Select(place)),
        0x5b => bracket_begun(p, place),
        _ => escape(with_pending(p, Pending::Nothing), b, place),
    }
}

// The byte after ESC.
#[tactic(auto, unfolding(printer::specs::Bytes::second_byte))]
fn second_byte(p: Printer, b: u8, place: u32, line: &mut [u16]) -> Stepped
    requires { OnLine (edition_of p) p line.old }
    ensures { (page staging store : List ℕ) → given result page line.new staging store
        ≡ second_byte (edition_of p) b place (machine p page line.old staging store) }
{
    if p.head.plotting {
        plot_escape(with_pending(p, Pending::Nothing), b, place, line)
    } else {
        text_escape(p, b, place)
    }
}

// A byte of a tab list.
#[tactic(auto, unfolding(printer::specs::Bytes::tab_byte))]
fn tab_byte(p: Printer, b: u8, here: u32) -> Stepped
    ensures { (m : Machine) → over m result ≡ tab_byte b here (with_printer p m) }
{
    if b == 0 {
        waiting(p, Pending::Nothing)
    } else {
        tab_item(p, b, here)
    }
}

// A byte after ESC [: a digit or a semicolon goes on with its numbers, any other ends it.
#[tactic(auto, unfolding(printer::specs::Bytes::bracket_byte))]
fn bracket_byte(p: Printer, s: Settings, b: u8, place: u32) -> Stepped
    requires { SoundForm (edition_of p) p.form }
    ensures { (m : Machine) → over m result ≡ bracket_byte (edition_of p) s b place (with_printer p m) }
{
    if continues(b) {
        waiting(p, Pending::Bracket(place, setting_byte(s, b)))
    } else {
        bracket(with_pending(p, Pending::Nothing), s, b, place)
    }
}

// A byte that stands `here` in the job, which has it counted.
#[tactic(auto, unfolding(printer::specs::Bytes::act))]
fn act(p: Printer, pending: Pending, b: u8, here: u32, memory: &mut Memory<'_>) -> Stepped
    requires { RoomIn p memory.old }
    ensures stepped { given_in result memory.new
        ≡ act (edition_of p) memory.old.font.now pending b here (machine_in p memory.old) }
    ensures lent { LentOn memory.old memory.new }
{
    match pending {
        Pending::Nothing => first_byte(p, b, here, memory),
        Pending::Escape(place) => second_byte(p, b, place, memory.line),
        Pending::Tabs(_) => tab_byte(p, b, here),
        Pending::Reset(place) => {
            let q = with_pending(p, Pending::Nothing);
            reset(q, b, place, memory.line, memory.store)
        }
        Pending::Select(place) => waiting(p, Pending::SelectLow(place, b)),
        Pending::SelectLow(place, high) => {
            select(with_pending(p, Pending::Nothing), high, b, place)
        }
        Pending::CountHigh(place) => waiting(p, Pending::CountLow(place, b)),
        Pending::CountLow(place, high) => {
            waiting(p, Pending::AddressHigh(place, high_first(high, b)))
        }
        Pending::AddressHigh(place, count) => waiting(p, Pending::AddressLow(place, count, b)),
        Pending::AddressLow(place, count, high) => {
            let load = Load {
                count,
                address: high_first(high, b),
                taken: 0,
                sum: 0,
            };
            waiting(p, Pending::Payload(place, load))
        }
        Pending::Payload(place, load) => payload_byte(
            p,
            load,
            b,
            place,
            memory.staging,
            memory.store,
        ),
        Pending::Bracket(place, settings) => bracket_byte(p, settings, b, place),
    }
}

// One byte: it is counted, then acted on.
#[tactic(auto, unfolding(printer::specs::Bytes::step))]
pub fn step(p: Printer, b: u8, memory: &mut Memory<'_>) -> Stepped
    requires { RoomIn p memory.old × (p.job < limit) }
    ensures stepped { given_in result memory.new
        ≡ step (edition_of p) memory.old.font.now b (machine_in p memory.old) }
    ensures lent { LentOn memory.old memory.new }
{
    let here = p.job;
    let counted = Printer { job: here + 1, ..p };
    act(counted, p.pending, b, here, memory)
}
