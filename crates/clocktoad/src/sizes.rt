// The sizes of what a caller lends.
ghost use Rattle.std.specs.Prelude.{◌≡◌};
ghost use Rattle.printer.specs.Machine.{store_size};
ghost use Rattle.sheet.specs.Edition.{Edition};
ghost use Rattle.sheet.specs.Form.{page_size};
ghost use Rattle.words.specs.Words.{state_size};
ghost use Rattle.feeding.specs.Feeding.{report_size};
ghost use Rattle.clocktoad.specs.Calls.{due_call, of_model};

use feeding::REPORT_WORDS;
use job::calls::page_due;
use printer::STORE_BYTES;
use sheet::sizes::{line_numbers, page_size};
use words::{STATE_WORDS, is_model, is_state, model_of, state_of};

#[unsafe(no_mangle)]
pub extern "C" fn clocktoad_state_words() -> usize
    ensures { result ≡ state_size }
{
    STATE_WORDS
}

#[unsafe(no_mangle)]
pub extern "C" fn clocktoad_report_words() -> usize
    ensures { result ≡ report_size }
{
    REPORT_WORDS
}

// The bytes of a page, 0 where there is no such model or form.
#[unsafe(no_mangle)]
#[tactic(auto, unfolding(crate::specs::Calls::of_model))]
pub extern "C" fn clocktoad_page_bytes(model: u64, lines: usize, spacing: usize) -> usize
    ensures { result ≡ of_model model (λ (e : Edition). page_size e lines spacing) }
{
    if !is_model(model) {
        return 0;
    }
    let known = model_of(model);
    page_size(known, lines, spacing)
}

// The bytes of the page that the next feeding takes, 0 where there is no sound state.
#[unsafe(no_mangle)]
#[tactic(auto, using(words::proofs::Ranges::state_halves), unfolding(crate::specs::Calls::due_call))]
pub extern "C" fn clocktoad_page_due(state: &[u64]) -> usize
    ensures { result ≡ due_call state.now }
{
    if !is_state(state) {
        return 0;
    }
    page_due(state_of(state))
}

// The numbers of a line store, 0 where there is no such model.
#[unsafe(no_mangle)]
#[tactic(auto, unfolding(crate::specs::Calls::of_model))]
pub extern "C" fn clocktoad_line_numbers(model: u64) -> usize
    ensures { result ≡ of_model model (λ (e : Edition). e.columns) }
{
    if !is_model(model) {
        return 0;
    }
    let known = model_of(model);
    line_numbers(known)
}

#[unsafe(no_mangle)]
pub extern "C" fn clocktoad_staging_bytes() -> usize
    ensures { result ≡ store_size }
{
    STORE_BYTES
}

#[unsafe(no_mangle)]
pub extern "C" fn clocktoad_store_bytes() -> usize
    ensures { result ≡ store_size }
{
    STORE_BYTES
}

#[unsafe(no_mangle)]
pub extern "C" fn clocktoad_font_bytes() -> usize
    ensures { result ≡ store_size }
{
    STORE_BYTES
}
