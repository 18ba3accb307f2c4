// A brief piece: one byte that is a character or a column, or none.
ghost use Rattle.std.specs.Prelude.{◌≡◌, true, false, ◌≤◌, length};
ghost use Rattle.printer.specs.Given.{LentOn, machine_in};
ghost use Rattle.printer.specs.Machine.{edition_of, store_size};
ghost use Rattle.printer.specs.Room.{Ready};
ghost use Rattle.words.specs.Words.{is_state};
ghost use Rattle.feeding.specs.Feeding.{called_in, feed_call_in};

use crate::{REPORT_WORDS, tell};
use answers::fit;
use printer::{Memory, Pending, Printer};
use runs::single;
use state::{form_sound, rest_sound};
use words::{advance, at_rest, state_with};

// Whether a piece is brief: no byte, or one other than ESC, which goes on no run.
fn brief(piece: &[u8]) -> bool
    ensures { result ≡ true → length piece.now ≤ 1 }
{
    match piece {
        [] => true,
        [b] => *b != 0x1b,
        _ => false,
    }
}

// Whether bytes may be fed: the state is sound, and all that is lent has its length.
#[tactic(auto, unfolding(printer::specs::Sound::sound, printer::specs::Sound::form_sound, sheet::specs::Form::lines_allowed, sheet::specs::Edition::lp2, sheet::specs::Edition::dg6215))]
fn feedable(p: Printer, memory: &Memory<'_>) -> bool
    ensures { result ≡ true → Ready (edition_of p) (machine_in p memory.now)
        × (length memory.now.font.now ≡ store_size) }
{
    if !form_sound(p.model, p.form) {
        return false;
    }
    if !rest_sound(p) {
        return false;
    }
    fit(
        p.model,
        p.form,
        memory.page,
        memory.line,
        memory.staging,
        memory.store,
        memory.font,
    )
    .is_ok()
}

// Feeds a brief piece, if the state is at rest and the byte goes on a run; else nothing changes.
#[tactic(auto, using(words::proofs::Ranges::state_halves, words::proofs::Resting::rest_is_state))]
pub(crate) fn feed_brief(
    state: &mut [u64],
    memory: &mut Memory<'_>,
    piece: &[u8],
    report: &mut [u64],
) -> bool
    ensures done { result ≡ true
        → (called_in 0 state.new memory.new report.new ≡ feed_call_in piece.now state.old memory.old report.old)
        × (is_state state.new ≡ true) }
    ensures undone { result ≡ false
        → (state.new ≡ state.old) × (memory.new ≡ memory.old) × (report.new ≡ report.old) }
    ensures lent { LentOn memory.old memory.new }
{
    if !brief(piece) {
        return false;
    }
    if report.len() != REPORT_WORDS {
        return false;
    }
    if !at_rest(state) {
        return false;
    }
    let p = state_with(state, Pending::Nothing);
    if !feedable(p, memory) {
        return false;
    }
    if piece.len() == 0 {
        tell(report, 0, 0, 0);
        return true;
    }
    let font = memory.font;
    match single(p, piece[0], memory.line, &mut *memory.store, font) {
        None => false,
        Some(column) => {
            advance(state, column);
            tell(report, 1, 0, 0);
            true
        }
    }
}
