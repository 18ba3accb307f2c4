// Feeding for programs in other languages: a piece of a job fed to a state that is kept as words, and reported in words.
#![tactic(auto)]

ghost use Rattle.std.specs.Prelude.{◌≡◌, true, [], ◌∷◌, length, ◌≤◌};
ghost use Rattle.printer.specs.Given.{LentOn};
ghost use Rattle.words.specs.Words.{is_state};
ghost use Rattle.feeding.specs.Feeding.{called_in, feed_call_in, refused_or, report_size};

use brief::feed_brief;
use piece::feed_piece;
use printer::Memory;
use protocol::Answer;
use protocol::numbers::{answer_number, refusal};

mod brief;
mod piece;

// How many words a report has.
pub const REPORT_WORDS: usize = 4;

// Writes the words of a report.
pub fn tell(report: &mut [u64], taken: usize, number: u64, place: u64)
    requires { length report.old ≡ report_size }
    ensures { report.new ≡ taken ∷ number ∷ place ∷ 0 ∷ [] }
{
    report[0] = taken as u64;
    report[1] = number;
    report[2] = place;
    report[3] = 0;
}

// The number of a refusal, or else that of what is lent beside it and has the wrong length.
#[tactic(auto, unfolding(crate::specs::Feeding::refused_or))]
pub fn refused_or(number: u64, answer: Answer) -> u64
    ensures { result ≡ refused_or number answer }
{
    if refusal(answer) {
        return answer_number(answer);
    }
    number
}

// Feeds a piece of the job. A single byte is most often a character or a column, which changes three words of the state.
pub fn feed_words(
    state: &mut [u64],
    memory: &mut Memory<'_>,
    piece: &[u8],
    report: &mut [u64],
) -> u64
    ensures outcome { called_in result state.new memory.new report.new
        ≡ feed_call_in piece.now state.old memory.old report.old }
    ensures sound { result ≤ 3 → is_state state.new ≡ true }
    ensures lent { LentOn memory.old memory.new }
{
    if feed_brief(state, memory, piece, report) {
        return 0;
    }
    feed_piece(state, memory, piece, report)
}
