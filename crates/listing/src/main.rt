// Lists a job: the notes and the finished forms of the bytes that come on standard input. Document 01, "The listing program". With the word 6215 the
// job is a 6215's.
#![tactic(auto)]

use desk::Desk;
use job::calls::close;
use printer::{Printer, STORE_BYTES};
use protocol::Answer;
use report::{Closings, Stopped, Unwritten, say, say_closing, say_note, say_number, took, unread};
use sheet::Model;
use std::env::{Env, FillError};
use std::io::Read;

// The lines of the form that a job is listed for.
const LINES: usize = 5;

// The lines of an inch.
const SPACING: usize = 6;

// A font of blank glyphs, since a listing shows no dots.
static FONT: [u8; STORE_BYTES] = [0; STORE_BYTES];

// A listing so far: the desk with the job on it, the printer, and how many forms are finished.
#[derive(Drop)]
struct Listing<'a> {
    desk: &'a mut Desk,
    printer: Printer,
    forms: u64,
}

// Writes the line of a finished form, whose last byte is the one just taken.
fn list_form(rt: &(impl Print + Eprint), number: u64, job: u32) -> Result<(), Unwritten> {
    let place = job.wrapping_sub(1);
    say_number(rt, b"PAGE ", number)?;
    say_number(rt, b" ", u64::from(place))?;
    say(rt, b"\n")
}

// Writes the line of a job's end.
fn list_end(rt: &(impl Print + Eprint), p: Printer) -> Result<(), Unwritten> {
    say_number(rt, b"END ", u64::from(p.job))?;
    let words = Closings {
        clean: b" CLEAN\n",
        unprinted: b" LINE\n",
        unfinished: b" OPEN ",
        unsound: b" UNSOUND\n",
    };
    say_closing(rt, words, close(p))
}

impl Listing<'_> {
    // Offers the rest of a piece of which so many bytes are taken, lists what comes of it, and answers how many are taken then. Any answer but a piece
    // used up, a finished form or a note ends the job.
    fn list_rest(
        &mut self,
        rt: &(impl Print + Eprint),
        piece: &[u8],
        taken: usize,
    ) -> Result<usize, Stopped> {
        let fed = self.desk.offer(self.printer, piece, taken, &FONT);
        self.printer = fed.printer;
        match fed.answer {
            Answer::Done => {}
            Answer::Finished => {
                self.forms = self.forms.wrapping_add(1);
                list_form(rt, self.forms, fed.printer.job)?;
                self.desk.blank_due(fed.printer);
            }
            Answer::Noted(fault, place) => say_note(rt, b"NOTE ", fault, place)?,
            _ => return Err(Stopped::Ended),
        }
        Ok(fed.taken)
    }

    // Lists what comes of a piece: its rest is offered until it is used up, or no byte of it is taken.
    fn list_piece(&mut self, rt: &(impl Print + Eprint), piece: &[u8]) -> Result<(), Stopped> {
        let mut taken = 0;
        while taken < piece.len() {
            let now = self.list_rest(rt, piece, taken)?;
            if now <= taken {
                break;
            }
            taken = now;
        }
        Ok(())
    }

    // Lists a job to its end. Nothing says that an input ends, so the readings are counted, up to a number that no input uses up.
    fn list_all(
        &mut self,
        rt: &(impl Print + Eprint),
        input: &mut impl Read,
    ) -> Result<(), Stopped> {
        let mut buffer = [0u8; 4096];
        for _ in 0..u64::MAX {
            match input.read(&mut buffer) {
                Ok(0) => break,
                Ok(count) => self.list_piece(rt, &buffer[..count])?,
                Err(_) => return Err(Stopped::Unread),
            }
        }
        Ok(())
    }
}

// Opens a job of a model, lists it, and writes how it ended.
fn list_job(
    rt: &(impl Print + Eprint),
    input: &mut impl Read,
    model: Model,
    desk: &mut Desk,
) -> Result<(), Stopped> {
    let printer = desk.open(model, LINES, SPACING, &FONT).printer;
    took(rt, println!(rt; "JOB {LINES} {SPACING}"))?;
    let mut listing = Listing {
        desk,
        printer,
        forms: 0,
    };
    match listing.list_all(rt, input) {
        Ok(()) | Err(Stopped::Ended) => {}
        Err(stopped) => return Err(stopped),
    }
    list_end(rt, listing.printer)?;
    Ok(())
}

// Lists a job of a model, and says so where it can't be read. Where it can't be written, that is told already.
fn list(rt: &(impl Print + Eprint), input: &mut impl Read, model: Model) {
    let mut desk = Desk::new();
    if list_job(rt, input, model, &mut desk) == Err(Stopped::Unread) {
        unread(rt);
    }
}

// Whether the program has a word of a number. The first word is the program's own name.
fn has_word(env: &impl Env, number: usize) -> bool {
    let mut word = [0u8; 1];
    !matches!(env.arg(number, &mut word), Err(FillError::NotPresent))
}

// The model that the program's words ask for, if they are understood: without a word an LP2.
fn asked(env: &impl Env) -> Option<Model> {
    let mut word = [0u8; 4];
    match env.arg(1, &mut word) {
        Ok(4) if word == *b"6215" && !has_word(env, 2) => Some(Model::Dg6215),
        Err(FillError::NotPresent) => Some(Model::Lp2),
        _ => None,
    }
}

fn main(rt: HostRuntime) {
    match asked(&rt) {
        Some(model) => list(&rt, &mut rt.stdin(), model),
        None => {
            let _ = rt.eprintln("usage: listing [6215] < JOB");
        }
    }
}
