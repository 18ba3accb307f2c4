// Replays scripts: each has a model, a form, a font and the pieces of a job, and what comes of every call is written a line each.
#![tactic(auto)]

use desk::Desk;
use lines::{say_line, say_refused};
use printer::STORE_BYTES;
use report::{Stopped, unread};
use script::perform;
use std::io::{ErrorKind, Read};

mod lines;
mod script;
mod sums;

// The bytes of the longest script.
const LONGEST: usize = 262144;

// The bytes of a script without a piece: its model, the lines and the spacing of its form, and its font.
const SHORTEST: usize = 3 + STORE_BYTES;

// Reads bytes until they are full, or the input ends.
fn fill(input: &mut impl Read, bytes: &mut [u8]) -> Result<(), Stopped> {
    match input.read_exact(bytes) {
        Ok(()) => Ok(()),
        Err(error) if error.kind() == ErrorKind::UnexpectedEof => Err(Stopped::Ended),
        Err(_) => Err(Stopped::Unread),
    }
}

// Reads a script's length, high byte first.
fn read_length(input: &mut impl Read) -> Result<usize, Stopped> {
    let mut length = [0u8; 4];
    fill(input, &mut length)?;
    Ok(u32::from_be_bytes(length) as usize)
}

// Reads and replays the script of a number. One without a whole font is refused and skipped; one that is too long is refused, and no other follows it.
fn replay_next(
    rt: &(impl Print + Eprint),
    input: &mut impl Read,
    number: u64,
    store: &mut [u8; LONGEST],
    desk: &mut Desk,
) -> Result<(), Stopped> {
    let size = read_length(input)?;
    say_line(rt, b"SCRIPT ", number)?;
    if size > LONGEST {
        say_refused(rt)?;
        return Err(Stopped::Ended);
    }
    let script = &mut store[..size];
    if size < SHORTEST {
        say_refused(rt)?;
        return fill(input, script);
    }
    fill(input, script)?;
    perform(rt, script, desk)
}

// Replays every script. Nothing says that an input ends, so the scripts are counted, up to a number that no input reaches.
fn replay_all(
    rt: &(impl Print + Eprint),
    input: &mut impl Read,
    store: &mut [u8; LONGEST],
    desk: &mut Desk,
) -> Result<(), Stopped> {
    for number in 1..=u64::MAX {
        replay_next(rt, input, number, store, desk)?;
    }
    Ok(())
}

// Says so where standard input failed. Where standard output did, that is told already.
fn main(rt: HostRuntime) {
    let mut store = [0u8; LONGEST];
    let mut desk = Desk::new();
    if replay_all(&rt, &mut rt.stdin(), &mut store, &mut desk) == Err(Stopped::Unread) {
        unread(&rt);
    }
}
