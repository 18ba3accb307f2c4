// The lines that a replay writes.
use crate::sums::{adler, adler_numbers};
use desk::Due;
use job::calls::close;
use printer::{Head, Printer, Style, TabSet};
use protocol::Answer;
use protocol::numbers::answer_number;
use report::{Closings, Unwritten, say, say_closing, say_note, say_number, took};
use sheet::counts::{lines_through, rows_above};
use sheet::{Form, Model, Pitch};
use state::tabs::tabbed;

// Writes that a script is refused.
pub fn say_refused(rt: &(impl Print + Eprint)) -> Result<(), Unwritten> {
    say(rt, b"REFUSED SCRIPT\n")
}

// Writes words, a number and the line's end.
pub fn say_line(rt: &(impl Print + Eprint), words: &[u8], number: u64) -> Result<(), Unwritten> {
    say_number(rt, words, number)?;
    say(rt, b"\n")
}

// Writes words, a sum and the line's end.
pub fn say_sum(rt: &(impl Print + Eprint), words: &[u8], sum: u32) -> Result<(), Unwritten> {
    say(rt, words)?;
    took(rt, print!(rt; "{sum:08x}"))?;
    say(rt, b"\n")
}

// Writes what a feeding answered and how many bytes it took.
pub fn say_feeding(
    rt: &(impl Print + Eprint),
    answer: Answer,
    taken: usize,
) -> Result<(), Unwritten> {
    say_number(rt, b"FED ", answer_number(answer))?;
    say_number(rt, b" ", taken as u64)?;
    match answer {
        Answer::Noted(fault, place) => say_note(rt, b" ", fault, place),
        _ => say(rt, b"\n"),
    }
}

// Writes a finished form's number and the sum of its page.
pub fn say_form(rt: &(impl Print + Eprint), number: u64, page: &[u8]) -> Result<(), Unwritten> {
    say_number(rt, b"FORM ", number)?;
    say_sum(rt, b" ", adler(page))
}

// Writes the sums of what is left in the memory lent.
fn say_memory(rt: &(impl Print + Eprint), due: Due<'_>) -> Result<(), Unwritten> {
    say_sum(rt, b"PAGE ", adler(due.page))?;
    say_sum(rt, b"LINE ", adler_numbers(due.line))?;
    say_sum(rt, b"STAGING ", adler(due.staging))?;
    say_sum(rt, b"STORE ", adler(due.store))
}

// Writes a space and 1 or 0.
fn say_flag(rt: &(impl Print + Eprint), on: bool) -> Result<(), Unwritten> {
    let flag = u8::from(on);
    took(rt, print!(rt; " {flag}"))
}

// Writes the pitch, 0 for normal and 1 for compressed, and the features.
fn say_style(rt: &(impl Print + Eprint), style: Style) -> Result<(), Unwritten> {
    say_flag(rt, matches!(style.pitch, Pitch::Compressed))?;
    say_flag(rt, style.elongated)?;
    say_flag(rt, style.underscore)?;
    say_flag(rt, style.downloaded)
}

// Writes the line of the head and of how characters are entered.
fn say_head(rt: &(impl Print + Eprint), head: Head, style: Style) -> Result<(), Unwritten> {
    say_number(rt, b"HEAD ", rows_above(head.row) as u64)?;
    say_number(rt, b" ", head.column as u64)?;
    say_style(rt, style)?;
    say_flag(rt, head.fresh)?;
    say_flag(rt, head.plotted)?;
    say_flag(rt, head.plotting)?;
    say(rt, b"\n")
}

// Writes the line of the form and its margins as they are at the end; an LP2's are those of its opening.
fn say_margins(rt: &(impl Print + Eprint), model: Model, form: Form) -> Result<(), Unwritten> {
    match model {
        Model::Lp2 => Ok(()),
        Model::Dg6215 => {
            say_number(rt, b"MARGINS ", form.lines as u64)?;
            say_number(rt, b" ", form.spacing as u64)?;
            say_number(rt, b" ", lines_through(form.top) as u64)?;
            say_line(rt, b" ", lines_through(form.bottom) as u64)
        }
    }
}

// Writes the numbers of the tabbed lines.
fn say_tabs(rt: &(impl Print + Eprint), tabs: TabSet) -> Result<(), Unwritten> {
    say(rt, b"TABS")?;
    for line in 1..=128 {
        if tabbed(tabs, line - 1) {
            say_number(rt, b" ", line as u64)?;
        }
    }
    say(rt, b"\n")
}

// Writes what a script leaves: how its job closes, the memory and the state.
pub fn say_left(rt: &(impl Print + Eprint), p: Printer, due: Due<'_>) -> Result<(), Unwritten> {
    let words = Closings {
        clean: b"CLOSE CLEAN\n",
        unprinted: b"CLOSE LINE\n",
        unfinished: b"CLOSE OPEN ",
        unsound: b"CLOSE 10\n",
    };
    say_closing(rt, words, close(p))?;
    say_memory(rt, due)?;
    say_head(rt, p.head, p.style)?;
    say_margins(rt, p.model, p.form)?;
    say_line(rt, b"JOB ", u64::from(p.job))?;
    say_tabs(rt, p.tabs)
}
