// The lines in which a program tells of a job. A line that standard output doesn't take is told of on standard error.
#![tactic(auto)]

ghost use Rattle.std.specs.Prelude.{◌↔◌, IsOk};

use printer::{Closing, Fault};
use protocol::numbers::note_number;
use std::io;
use std::io::ErrorKind;

mod ends;

pub use ends::{Stopped, Unwritten};

// Passes on whether standard output took what was written. Where it didn't, says so, unless it is a pipe that nobody reads any more.
pub fn took(rt: &impl Eprint, written: io::Result<()>) -> Result<(), Unwritten>
    ensures { IsOk result ↔ IsOk written }
{
    match written {
        Ok(()) => Ok(()),
        Err(error) => {
            if error.kind() != ErrorKind::BrokenPipe {
                unwritten(rt);
            }
            Err(Unwritten)
        }
    }
}

// Writes words to standard output.
pub fn say(rt: &(impl Print + Eprint), words: &[u8]) -> Result<(), Unwritten> {
    took(rt, rt.write_all(words))
}

// Writes words and a number after them.
pub fn say_number(rt: &(impl Print + Eprint), words: &[u8], number: u64) -> Result<(), Unwritten> {
    say(rt, words)?;
    took(rt, rt.print(number))
}

// Writes a note's number and place after words, and ends the line.
pub fn say_note(
    rt: &(impl Print + Eprint),
    words: &[u8],
    fault: Fault,
    place: u32,
) -> Result<(), Unwritten> {
    say_number(rt, words, note_number(fault))?;
    say_number(rt, b" ", u64::from(place))?;
    say(rt, b"\n")
}

// The words in which a program tells how a job closes: whole lines, but before an unfinished command's place.
#[derive(Clone, Copy)]
pub struct Closings<'a> {
    pub clean: &'a [u8],
    pub unprinted: &'a [u8],
    pub unfinished: &'a [u8],
    pub unsound: &'a [u8],
}

// Writes how a job closes in a program's words.
pub fn say_closing(
    rt: &(impl Print + Eprint),
    words: Closings<'_>,
    closing: Closing,
) -> Result<(), Unwritten> {
    match closing {
        Closing::Clean => say(rt, words.clean),
        Closing::Unprinted => say(rt, words.unprinted),
        Closing::Unfinished(place) => {
            say_number(rt, words.unfinished, u64::from(place))?;
            say(rt, b"\n")
        }
        Closing::Unsound => say(rt, words.unsound),
    }
}

// Says that standard input can't be read.
pub fn unread(rt: &impl Eprint) {
    let _ = rt.eprintln("standard input can't be read");
}

// Says that standard output can't be written.
pub fn unwritten(rt: &impl Eprint) {
    let _ = rt.eprintln("standard output can't be written");
}
