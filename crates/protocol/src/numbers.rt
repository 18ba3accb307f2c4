// Document 01's numbers: of the answers, of the notes, and of what closing says.
ghost use Rattle.std.specs.Prelude.{◌≡◌};
ghost use Rattle.printer.specs.Numbers.{close_report, note_number, value};
ghost use Rattle.protocol.specs.Answers.{lent_number, refusal, report};

use crate::{Answer, Lent};
use printer::{Closing, Fault};

// The number of a note.
#[tactic(auto, unfolding(printer::specs::Numbers::note_number))]
pub fn note_number(fault: Fault) -> u64
    ensures { result ≡ note_number fault }
{
    match fault {
        Fault::UnknownCommand => 42,
        Fault::FormSetting => 43,
        Fault::LineFull => 44,
        Fault::Checksum => 45,
        Fault::UnnamedControl
        | Fault::HighByte
        | Fault::OutOfTurn
        | Fault::WrongBytes
        | Fault::PlotLine
        | Fault::DownloadRange => 46,
        Fault::TabLine => 48,
        Fault::IllFormed => 80,
    }
}

// The number of a refusal of what is lent.
#[tactic(auto, unfolding(crate::specs::Answers::lent_number))]
fn lent_number(lent: Lent) -> u64
    ensures { result ≡ lent_number lent }
{
    match lent {
        Lent::Page => 11,
        Lent::LineStore => 12,
        Lent::Staging => 13,
        Lent::DownloadStore => 14,
        Lent::Font => 15,
    }
}

// The number of an answer.
#[tactic(auto, unfolding(crate::specs::Answers::report))]
pub fn answer_number(answer: Answer) -> u64
    ensures { result ≡ (report answer).number }
{
    match answer {
        Answer::Done => 0,
        Answer::Finished => 1,
        Answer::Noted(_, _) => 2,
        Answer::JobFull => 3,
        Answer::Unsound => 10,
        Answer::Misfit(lent) => lent_number(lent),
        Answer::WrongLines => 18,
        Answer::WrongSpacing => 19,
    }
}

// The number of the note that an answer has, 0 where it has none.
#[tactic(auto, unfolding(crate::specs::Answers::report))]
pub fn noted_number(answer: Answer) -> u64
    ensures { result ≡ value 0 (report answer) }
{
    match answer {
        Answer::Noted(fault, _) => note_number(fault),
        _ => 0,
    }
}

// The place of the note that an answer has, 0 where it has none.
#[tactic(auto, unfolding(crate::specs::Answers::report))]
pub fn noted_place(answer: Answer) -> u64
    ensures { result ≡ value 1 (report answer) }
{
    match answer {
        Answer::Noted(_, place) => u64::from(place),
        _ => 0,
    }
}

// Whether an answer is a refusal.
#[tactic(auto, unfolding(crate::specs::Answers::refusal))]
pub fn refusal(answer: Answer) -> bool
    ensures { result ≡ refusal answer }
{
    matches!(
        answer,
        Answer::Unsound | Answer::Misfit(_) | Answer::WrongLines | Answer::WrongSpacing
    )
}

// The number of what closing says.
#[tactic(auto, unfolding(printer::specs::Numbers::close_report))]
pub fn close_number(closing: Closing) -> u64
    ensures { result ≡ (close_report closing).number }
{
    match closing {
        Closing::Unsound => 10,
        Closing::Unfinished(_) => 2,
        Closing::Unprinted => 1,
        Closing::Clean => 0,
    }
}

// The place of the command that closing finds unfinished, 0 where it finds none.
#[tactic(auto, unfolding(printer::specs::Numbers::close_report))]
pub fn close_place(closing: Closing) -> u64
    ensures { result ≡ value 0 (close_report closing) }
{
    match closing {
        Closing::Unfinished(place) => u64::from(place),
        _ => 0,
    }
}
