// The calls of another language. Each takes whatever it is handed, and refuses by number what doesn't fit.
ghost use Rattle.std.specs.Prelude.{◌≡◌, true, [], length, ◌≤◌};
ghost use Rattle.printer.specs.Given.{LentOn};
ghost use Rattle.words.specs.Words.{is_state, state_size};
ghost use Rattle.feeding.specs.Feeding.{called, called_in, feed_call};
ghost use Rattle.clocktoad.specs.Calls.{close_call, model_call_in, open_call, shut_words};

use answers::admit;
use feeding::{REPORT_WORDS, feed_words, refused_or, tell};
use job::calls::{close, open};
use printer::Memory;
use protocol::numbers::{answer_number, close_number, close_place, refusal};
use sheet::Model;
use words::{STATE_WORDS, is_model, is_state, model_of, put_new, state_of};

// Opens a job of a model.
fn open_model(
    model: Model,
    lines: usize,
    spacing: usize,
    state: &mut [u64],
    memory: &mut Memory<'_>,
) -> u64
    ensures outcome { called_in result state.new memory.new [] ≡ model_call_in model lines spacing state.old memory.old }
    ensures sound { length state.old ≡ state_size → is_state state.new ≡ true }
    ensures lent { LentOn memory.old memory.new }
{
    if state.len() != STATE_WORDS {
        let font = memory.font;
        let answer = admit(
            model,
            lines,
            spacing,
            &mut *memory.page,
            &mut *memory.line,
            &mut *memory.staging,
            &mut *memory.store,
            font,
        );
        return refused_or(21, answer);
    }
    let opened = open(model, lines, spacing, memory);
    let answer = opened.answer;
    if refusal(answer) {
        put_new(state, model, 0, 0);
        return answer_number(answer);
    }
    put_new(state, model, lines, spacing);
    answer_number(answer)
}

// Makes the shut state of an LP2 of words that are as many as a state's.
#[tactic(auto, unfolding(crate::specs::Calls::shut_words))]
fn put_shut(state: &mut [u64])
    ensures written { state.new ≡ shut_words state.old }
    ensures sound { length state.old ≡ state_size → is_state state.new ≡ true }
{
    if state.len() == STATE_WORDS {
        put_new(state, Model::Lp2, 0, 0);
    }
}

// Opens a job.
#[unsafe(no_mangle)]
#[tactic(auto, unfolding(crate::specs::Calls::open_call))]
pub extern "C" fn clocktoad_open(
    model: u64,
    lines: usize,
    spacing: usize,
    state: &mut [u64],
    page: &mut [u8],
    line: &mut [u16],
    staging: &mut [u8],
    store: &mut [u8],
    font: &[u8],
) -> u64
    ensures outcome { called result state.new page.new line.new staging.new store.new []
        ≡ open_call model lines spacing font.now state.old page.old
        line.old staging.old store.old }
    ensures sound { length state.old ≡ state_size → is_state state.new ≡ true }
{
    if !is_model(model) {
        put_shut(state);
        return 23;
    }
    let mut memory = Memory {
        page,
        line,
        staging,
        store,
        font,
    };
    open_model(model_of(model), lines, spacing, state, &mut memory)
}

// Feeds a piece of the job.
#[unsafe(no_mangle)]
pub extern "C" fn clocktoad_feed(
    state: &mut [u64],
    page: &mut [u8],
    line: &mut [u16],
    staging: &mut [u8],
    store: &mut [u8],
    font: &[u8],
    piece: &[u8],
    report: &mut [u64],
) -> u64
    ensures outcome { called result state.new page.new line.new staging.new store.new report.new
        ≡ feed_call font.now piece.now state.old page.old line.old
        staging.old store.old report.old }
    ensures sound { result ≤ 3 → is_state state.new ≡ true }
{
    let mut memory = Memory {
        page,
        line,
        staging,
        store,
        font,
    };
    feed_words(state, &mut memory, piece, report)
}

// Closes a job.
#[unsafe(no_mangle)]
#[tactic(auto, using(words::proofs::Ranges::state_halves), unfolding(crate::specs::Calls::close_call, crate::specs::Calls::closing_words, crate::specs::Calls::closing_report))]
pub extern "C" fn clocktoad_close(state: &[u64], report: &mut [u64]) -> u64
    ensures { record { number = result; report = report.new } ≡ close_call state.now report.old }
{
    if !is_state(state) {
        return 10;
    }
    let closing = close(state_of(state));
    let number = close_number(closing);
    if number == 10 {
        return 10;
    }
    if report.len() != REPORT_WORDS {
        return 22;
    }
    tell(report, 0, 0, close_place(closing));
    number
}
