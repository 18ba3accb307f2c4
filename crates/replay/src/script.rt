// Replaying a script: its job is opened, its pieces are fed, and what is left is told.
ghost use Rattle.std.specs.Prelude.{◌≤◌, length};

use crate::SHORTEST;
use crate::lines::{say_feeding, say_form, say_left, say_line, say_refused};
use desk::Desk;
use printer::{Printer, STORE_BYTES};
use protocol::Answer;
use protocol::numbers::answer_number;
use report::Stopped;
use sheet::Model;

// A replay so far: the desk with the job on it, the script's font, the printer, and how many forms are finished.
#[derive(Drop)]
struct Replay<'a> {
    desk: &'a mut Desk,
    font: &'a [u8],
    printer: Printer,
    forms: u64,
}

impl Replay<'_> {
    // Feeds the rest of a piece of which so many bytes are taken, tells what comes of it, and answers how many are taken then. Any answer but a piece
    // used up, a finished form or a note ends the job.
    fn feed_rest(
        &mut self,
        rt: &(impl Print + Eprint),
        piece: &[u8],
        taken: usize,
    ) -> Result<usize, Stopped> {
        let before = self.printer;
        let fed = self.desk.offer(before, piece, taken, self.font);
        self.printer = fed.printer;
        say_feeding(rt, fed.answer, fed.taken - taken)?;
        match fed.answer {
            Answer::Done | Answer::Noted(_, _) => {}
            Answer::Finished => {
                self.forms = self.forms.wrapping_add(1);
                say_form(rt, self.forms, self.desk.due(before).page)?;
                self.desk.blank_due(fed.printer);
            }
            _ => return Err(Stopped::Ended),
        }
        Ok(fed.taken)
    }

    // Feeds a piece: once, and then its rest until that is used up, or no byte of it is taken.
    fn feed_piece(&mut self, rt: &(impl Print + Eprint), piece: &[u8]) -> Result<(), Stopped> {
        let mut taken = self.feed_rest(rt, piece, 0)?;
        while taken < piece.len() {
            let now = self.feed_rest(rt, piece, taken)?;
            if now <= taken {
                break;
            }
            taken = now;
        }
        Ok(())
    }

    // Feeds the pieces of a script, each after the two bytes of its length, up to the script's end or the job's.
    fn feed_pieces(&mut self, rt: &(impl Print + Eprint), pieces: &[u8]) -> Result<(), Stopped> {
        let mut left = pieces;
        while let [high, low, after @ ..] = left {
            let length = usize::from(u16::from_be_bytes([*high, *low]));
            let (piece, others) = after.split_at(length.min(after.len()));
            self.feed_piece(rt, piece)?;
            left = others;
        }
        Ok(())
    }

    // Feeds the pieces of a script, and tells what is left.
    fn feed_job(&mut self, rt: &(impl Print + Eprint), pieces: &[u8]) -> Result<(), Stopped> {
        match self.feed_pieces(rt, pieces) {
            Ok(()) | Err(Stopped::Ended) => {}
            Err(stopped) => return Err(stopped),
        }
        say_left(rt, self.printer, self.desk.due(self.printer))?;
        Ok(())
    }
}

// The model of a script, by its first byte.
fn model_of(byte: u8) -> Option<Model> {
    match byte {
        0 => Some(Model::Lp2),
        1 => Some(Model::Dg6215),
        _ => None,
    }
}

// Replays a script, or refuses it where its first byte is no model's. No piece is fed where the opening is refused.
pub fn perform(rt: &(impl Print + Eprint), script: &[u8], desk: &mut Desk) -> Result<(), Stopped>
    requires { SHORTEST ≤ length script.now }
{
    let Some(model) = model_of(script[0]) else {
        say_refused(rt)?;
        return Ok(());
    };
    let (font, pieces) = script[3..].split_at(STORE_BYTES);
    let opened = desk.open(model, usize::from(script[1]), usize::from(script[2]), font);
    let number = answer_number(opened.answer);
    say_line(rt, b"OPEN ", number)?;
    if number != 0 {
        return Ok(());
    }
    let mut job = Replay {
        desk,
        font,
        printer: opened.printer,
        forms: 0,
    };
    job.feed_job(rt, pieces)
}
