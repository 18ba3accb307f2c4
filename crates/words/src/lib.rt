// A state as the words that a caller keeps.
#![tactic(auto)]

ghost use Rattle.std.specs.Prelude.{◌≡◌, true, ◌≤◌, ◌<◌, get_or, length};
ghost use Rattle.sheet.specs.Form.{new_form};
ghost use Rattle.printer.specs.Machine.{limit, new_printer};
ghost use Rattle.printer.specs.declared.Printer.{Printer};
ghost use Rattle.printer.specs.Given.{moved};
ghost use Rattle.words.specs.Words.{Ranged, at_most, at_rest, form_of, head_of, in_range, in_range_before, is_model, is_state};
ghost use Rattle.words.specs.Words.{model_of, model_word, number_limit, pending_of, pending_read, pending_words, pitch_of, pitch_word};
ghost use Rattle.words.specs.Words.{setting_of, setting_word, state_of, state_size, state_with, state_words, style_of};

use printer::{Head, JOB_LIMIT, Load, Pending, Printer, Settings, Style, TabSet};
use sheet::counts::{line, lines_through, row, rows_above};
use sheet::{Form, Model, Pitch};

// How many words a state has.
pub const STATE_WORDS: usize = 23;

#[tactic(auto, unfolding(crate::specs::Words::model_word))]
fn model_word(model: Model) -> u64
    ensures { result ≡ model_word model }
{
    match model {
        Model::Lp2 => 0,
        Model::Dg6215 => 1,
    }
}

#[tactic(auto, unfolding(crate::specs::Words::pitch_word))]
fn pitch_word(pitch: Pitch) -> u64
    ensures { result ≡ pitch_word pitch }
{
    match pitch {
        Pitch::Normal => 0,
        Pitch::Compressed => 1,
    }
}

#[tactic(auto, unfolding(crate::specs::Words::setting_word))]
fn setting_word(setting: Option<u16>) -> u64
    ensures { (result ≡ setting_word setting) × (setting_word setting ≤ 65536) }
{
    match setting {
        None => 0,
        Some(n) => u64::from(n) + 1,
    }
}

// The six words of what is pending.
#[tactic(auto, unfolding(crate::specs::Words::pending_words))]
fn pending_words(pending: Pending) -> [u64; 6]
    ensures written { result ≡ pending_words pending }
    ensures ranged { Ranged pending }
{
    match pending {
        Pending::Nothing => [0; 6],
        Pending::Escape(place) => [1, u64::from(place), 0, 0, 0, 0],
        Pending::Tabs(place) => [2, u64::from(place), 0, 0, 0, 0],
        Pending::Reset(place) => [3, u64::from(place), 0, 0, 0, 0],
        Pending::Select(place) => [4, u64::from(place), 0, 0, 0, 0],
        Pending::SelectLow(place, high) => [5, u64::from(place), u64::from(high), 0, 0, 0],
        Pending::CountHigh(place) => [6, u64::from(place), 0, 0, 0, 0],
        Pending::CountLow(place, high) => [7, u64::from(place), u64::from(high), 0, 0, 0],
        Pending::AddressHigh(place, count) => [8, u64::from(place), 0, u64::from(count), 0, 0],
        Pending::AddressLow(place, count, high) => {
            [9, u64::from(place), u64::from(high), u64::from(count), 0, 0]
        }
        Pending::Payload(place, load) => [
            10,
            u64::from(place),
            u64::from(load.sum),
            u64::from(load.count),
            u64::from(load.address),
            u64::from(load.taken),
        ],
        Pending::Bracket(place, settings) => [
            11,
            u64::from(place),
            u64::from(settings.semicolons),
            setting_word(settings.first),
            setting_word(settings.second),
            setting_word(settings.third),
        ],
    }
}

// Puts a state into words, which are then a state.
pub fn put(state: &mut [u64], p: Printer)
    requires { length state.old ≡ state_size }
    ensures written { state.new ≡ state_words p }
    ensures sound { is_state state.new ≡ true }
{
    state[0] = model_word(p.model);
    state[1] = p.form.lines as u64;
    state[2] = p.form.spacing as u64;
    state[3] = lines_through(p.form.top) as u64;
    state[4] = lines_through(p.form.bottom) as u64;
    state[5] = u64::from(p.job);
    state[6] = rows_above(p.head.row) as u64;
    state[7] = p.head.column as u64;
    state[8] = u64::from(p.head.fresh);
    state[9] = u64::from(p.head.plotted);
    state[10] = u64::from(p.head.plotting);
    state[11] = pitch_word(p.style.pitch);
    state[12] = u64::from(p.style.elongated);
    state[13] = u64::from(p.style.underscore);
    state[14] = u64::from(p.style.downloaded);
    state[15] = p.tabs.low;
    state[16] = p.tabs.high;
    let [kind, place, byte, count, address, taken] = pending_words(p.pending);
    state[17] = kind;
    state[18] = place;
    state[19] = byte;
    state[20] = count;
    state[21] = address;
    state[22] = taken;
}

// Changes the words of a state to those after a byte that has brought the head to a position.
#[tactic(auto, unfolding(crate::specs::Words::state_words, crate::specs::Words::truth))]
pub fn advance(state: &mut [u64], column: usize)
    requires { (length state.old ≡ state_size) × (get_or state.old 5 0 < limit) }
    ensures { (p : Printer) → state.old ≡ state_words p → state.new ≡ state_words (moved column p) }
{
    state[5] += 1;
    state[7] = column as u64;
    state[8] = 0;
}

// Puts the state of a job just opened into words, which are then a state; of no lines it is the shut one.
pub fn put_new(state: &mut [u64], model: Model, lines: usize, spacing: usize)
    requires { length state.old ≡ state_size }
    ensures written { state.new ≡ state_words (new_printer model (new_form lines spacing)) }
    ensures sound { is_state state.new ≡ true }
{
    state.fill(0);
    state[0] = model_word(model);
    state[1] = lines as u64;
    state[2] = spacing as u64;
    state[3] = 1;
    state[4] = lines as u64;
    state[8] = 1;
}

// Whether none of some words is above m.
fn at_most(words: &[u64], m: u64) -> bool
    ensures { result ≡ at_most m words.now }
{
    words.iter().all(|&word| word <= m)
}

// The largest of a pending command's three numbers.
#[tactic(auto, unfolding(crate::specs::Words::number_limit))]
fn number_limit(kind: u64) -> u64
    ensures { result ≡ number_limit kind }
{
    if kind == 11 { 65536 } else { 65535 }
}

// Whether each word before what is pending is in the range of its number.
#[tactic(auto, using(crate::proofs::Ranges::before_tests))]
fn in_range_before(state: &[u64; STATE_WORDS]) -> bool
    ensures { result ≡ in_range_before state.now }
{
    state[0] <= 1 && state[5] <= u64::from(JOB_LIMIT) && at_most(&state[8..15], 1)
}

// Whether each word of a state is in the range of its number.
#[tactic(auto, using(crate::proofs::Ranges::range_tests))]
fn in_range(state: &[u64; STATE_WORDS]) -> bool
    ensures { result ≡ in_range state.now }
{
    in_range_before(state)
        && state[17] <= 11
        && state[18] <= u64::from(JOB_LIMIT)
        && state[19] <= 255
        && at_most(&state[20..23], number_limit(state[17]))
}

// Whether words are a state.
#[tactic(auto, unfolding(crate::specs::Words::is_state))]
pub fn is_state(state: &[u64]) -> bool
    ensures { result ≡ is_state state.now }
{
    state.as_array().is_some_and(in_range)
}

// Whether words are a state in which nothing is pending, with 0 in each word of what is.
#[tactic(auto, unfolding(crate::specs::Words::at_rest))]
pub fn at_rest(state: &[u64]) -> bool
    ensures { result ≡ at_rest state.now }
{
    state.as_array().is_some_and(|state| at_most(&state[17..23], 0) && in_range_before(state))
}

// Whether a word is a model's number.
#[tactic(auto, unfolding(crate::specs::Words::is_model))]
pub fn is_model(word: u64) -> bool
    ensures { result ≡ is_model word }
{
    word <= 1
}

#[tactic(auto, unfolding(crate::specs::Words::model_of))]
pub fn model_of(word: u64) -> Model
    ensures { result ≡ model_of word }
{
    if word == 1 { Model::Dg6215 } else { Model::Lp2 }
}

#[tactic(auto, unfolding(crate::specs::Words::pitch_of))]
fn pitch_of(word: u64) -> Pitch
    ensures { result ≡ pitch_of word }
{
    if word == 1 {
        Pitch::Compressed
    } else {
        Pitch::Normal
    }
}

#[tactic(auto, unfolding(crate::specs::Words::setting_of))]
fn setting_of(word: u64) -> Option<u16>
    requires { word ≤ 65536 }
    ensures { result ≡ setting_of word }
{
    if word == 0 {
        None
    } else {
        Some((word - 1) as u16)
    }
}

#[tactic(auto, using(crate::proofs::Ranges::limit_any, crate::proofs::Ranges::limit_narrow), unfolding(crate::specs::Words::pending_of))]
fn pending_of(kind: u64, place: u32, byte: u8, count: u64, address: u64, taken: u64) -> Pending
    requires { (count ≤ number_limit kind) × (address ≤ number_limit kind) × (taken ≤ number_limit kind) }
    ensures { result ≡ pending_of kind place byte count address taken }
{
    match kind {
        0 => Pending::Nothing,
        1 => Pending::Escape(place),
        2 => Pending::Tabs(place),
        3 => Pending::Reset(place),
        4 => Pending::Select(place),
        5 => Pending::SelectLow(place, byte),
        6 => Pending::CountHigh(place),
        7 => Pending::CountLow(place, byte),
        8 => Pending::AddressHigh(place, count as u16),
        9 => Pending::AddressLow(place, count as u16, byte),
        10 => Pending::Payload(
            place,
            Load {
                count: count as u16,
                address: address as u16,
                taken: taken as u16,
                sum: byte,
            },
        ),
        _ => Pending::Bracket(
            place,
            Settings {
                first: setting_of(count),
                second: setting_of(address),
                third: setting_of(taken),
                semicolons: byte,
            },
        ),
    }
}

#[tactic(auto, unfolding(crate::specs::Words::form_of))]
fn form_of(state: &[u64; STATE_WORDS]) -> Form
    ensures { result ≡ form_of state.now }
{
    Form {
        lines: state[1] as usize,
        spacing: state[2] as usize,
        top: line(state[3] as usize),
        bottom: line(state[4] as usize),
    }
}

#[tactic(auto, unfolding(crate::specs::Words::head_of))]
fn head_of(state: &[u64; STATE_WORDS]) -> Head
    ensures { result ≡ head_of state.now }
{
    Head {
        row: row(state[6] as usize),
        column: state[7] as usize,
        fresh: state[8] == 1,
        plotted: state[9] == 1,
        plotting: state[10] == 1,
    }
}

#[tactic(auto, unfolding(crate::specs::Words::style_of))]
fn style_of(state: &[u64; STATE_WORDS]) -> Style
    ensures { result ≡ style_of state.now }
{
    Style {
        pitch: pitch_of(state[11]),
        elongated: state[12] == 1,
        underscore: state[13] == 1,
        downloaded: state[14] == 1,
    }
}

// What is pending, from its words.
pub fn pending_read(state: &[u64]) -> Pending
    requires { (length state.now ≡ state_size) × (in_range state.now ≡ true) }
    ensures { result ≡ pending_read state.now }
{
    pending_of(
        state[17],
        state[18] as u32,
        state[19] as u8,
        state[20],
        state[21],
        state[22],
    )
}

// The state that words hold, with what is pending as it was read.
#[tactic(auto, using(crate::proofs::Ranges::ranges))]
pub fn state_with(state: &[u64], pending: Pending) -> Printer
    requires { (length state.now ≡ state_size) × (in_range state.now ≡ true) }
    ensures { result ≡ state_with state.now pending }
{
    let state = state.as_array().unwrap();
    Printer {
        model: model_of(state[0]),
        form: form_of(state),
        job: state[5] as u32,
        pending,
        head: head_of(state),
        style: style_of(state),
        tabs: TabSet {
            low: state[15],
            high: state[16],
        },
    }
}

// The state that words hold.
#[tactic(auto, unfolding(crate::specs::Words::state_of))]
pub fn state_of(state: &[u64]) -> Printer
    requires { (length state.now ≡ state_size) × (in_range state.now ≡ true) }
    ensures { result ≡ state_of state.now }
{
    state_with(state, pending_read(state))
}
