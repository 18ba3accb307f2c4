// A piece of any bytes.
ghost use Rattle.std.specs.Prelude.{◌≡◌, true, List, ℕ, ◌≤◌};
ghost use Rattle.printer.specs.Given.{LentOn, machine_in};
ghost use Rattle.printer.specs.Machine.{edition_of};
ghost use Rattle.protocol.specs.Calls.{feeding};
ghost use Rattle.words.specs.Words.{is_state};
ghost use Rattle.feeding.specs.Feeding.{called_in, feed_call_in, refused_or};

use crate::{REPORT_WORDS, tell};
use answers::fit;
use job::calls::feed;
use printer::{Memory, Printer};
use protocol::Answer;
use protocol::numbers::{answer_number, noted_number, noted_place, refusal};
use state::sound;
use words::{is_state, pending_read, put, state_of, state_with};

// The answer to a feeding with a report of the wrong length: 22, after all that feeding refuses besides.
#[tactic(auto, unfolding(crate::specs::Feeding::refused_or, protocol::specs::Answers::refusal, protocol::specs::Answers::report, protocol::specs::Calls::feeding, protocol::specs::Calls::feed_fitted, printer::specs::Sound::sound, printer::specs::Sound::form_sound, sheet::specs::Form::lines_allowed, sheet::specs::Edition::lp2, sheet::specs::Edition::dg6215))]
fn unreported(p: Printer, memory: &Memory<'_>) -> u64
    ensures { (piece : List ℕ) → result
        ≡ refused_or 22 (feeding (edition_of p) memory.now.font.now piece (machine_in p memory.now)).answer }
{
    if !sound(p) {
        return 10;
    }
    match fit(
        p.model,
        p.form,
        memory.page,
        memory.line,
        memory.staging,
        memory.store,
        memory.font,
    ) {
        Err(lent) => answer_number(Answer::Misfit(lent)),
        Ok(()) => 22,
    }
}

// Feeds a piece.
#[tactic(auto, using(words::proofs::Ranges::state_halves), unfolding(crate::specs::Feeding::feed_call))]
pub(crate) fn feed_piece(
    state: &mut [u64],
    memory: &mut Memory<'_>,
    piece: &[u8],
    report: &mut [u64],
) -> u64
    ensures outcome { called_in result state.new memory.new report.new
        ≡ feed_call_in piece.now state.old memory.old report.old }
    ensures sound { result ≤ 3 → is_state state.new ≡ true }
    ensures lent { LentOn memory.old memory.new }
{
    if !is_state(state) {
        return 10;
    }
    if report.len() != REPORT_WORDS {
        return unreported(state_of(state), memory);
    }
    // In two parts, each small enough to be compiled into the call.
    let p = state_with(state, pending_read(state));
    let fed = feed(p, piece, memory);
    let answer = fed.answer;
    if refusal(answer) {
        return answer_number(answer);
    }
    put(state, fed.printer);
    tell(report, fed.taken, noted_number(answer), noted_place(answer));
    answer_number(answer)
}
