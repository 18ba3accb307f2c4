// The words of the lines.
use crate::memory::Told;
use printer::Closing;
use protocol::Answer;
use protocol::numbers::{answer_number, note_number};
use report::{Closings, Unwritten, say, say_number};

// Writes words, what a feeding answered and how many bytes it took, and of a note its number and place.
pub fn say_feeding(rt: &(impl Print + Eprint), words: &[u8], t: Told) -> Result<(), Unwritten> {
    say_number(rt, words, answer_number(t.answer))?;
    say_number(rt, b" ", t.taken as u64)?;
    if let Answer::Noted(fault, place) = t.answer {
        say_number(rt, b" note ", note_number(fault))?;
        say_number(rt, b" at ", u64::from(place))?;
    }
    Ok(())
}

// Writes whether the memory or the state is the same as before.
pub fn say_same(rt: &(impl Print + Eprint), words: &[u8], same: bool) -> Result<(), Unwritten> {
    say(rt, words)?;
    if same {
        say(rt, b" same")
    } else {
        say(rt, b" changed")
    }
}

// Writes words and how a job closes, and ends the line.
pub fn say_closing(
    rt: &(impl Print + Eprint),
    words: &[u8],
    closing: Closing,
) -> Result<(), Unwritten> {
    say(rt, words)?;
    let closings = Closings {
        clean: b"CLEAN\n",
        unprinted: b"LINE\n",
        unfinished: b"OPEN ",
        unsound: b"10\n",
    };
    report::say_closing(rt, closings, closing)
}

// Writes a line's kind and name.
pub fn say_name(rt: &(impl Print + Eprint), kind: &[u8], name: &[u8]) -> Result<(), Unwritten> {
    say(rt, b"EDGE ")?;
    say(rt, kind)?;
    say(rt, name)
}

// Writes that a line of the table is not understood.
pub fn say_unknown(rt: &(impl Print + Eprint), number: u64) -> Result<(), Unwritten> {
    say_number(rt, b"EDGE line ", number)?;
    say(rt, b" not understood\n")
}
