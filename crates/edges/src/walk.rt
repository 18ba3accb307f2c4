// Reads the table line by line, and performs each case.
use crate::case::{Case, Kind, Piece};
use crate::lines::{say_name, say_unknown};
use crate::memory::Space;
use crate::perform::perform;
use crate::setting::set;
use report::Unwritten;

// The letters of a word. Bytes of 0 before them count for nothing.
fn letters(text: &[u8]) -> &[u8] {
    match text.iter().position(|byte| *byte != 0) {
        Some(first) => &text[first..],
        None => &[],
    }
}

// The value of a hexadecimal digit.
fn digit_value(digit: u8) -> Option<u8> {
    match digit {
        b'0'..=b'9' => Some(digit - b'0'),
        b'A'..=b'F' => Some(digit - b'A' + 10),
        _ => None,
    }
}

// The number that decimal digits are, if there are any, and it is at most 18,446,744,073,709,551,615.
fn read_number(text: &[u8]) -> Option<usize> {
    if text.is_empty() {
        return None;
    }
    let mut number = 0usize;
    for byte in text {
        match byte {
            b'0'..=b'9' => number = number
                .checked_mul(10)?
                .checked_add(usize::from(byte - b'0'))?,
            _ => return None,
        }
    }
    Some(number)
}

// Takes a word with no number: `with`, `send` or, after that, a byte of the piece, a word of two hexadecimal digits.
fn take_word(c: &mut Case, word: &[u8]) -> Option<()> {
    match (&mut c.piece, word) {
        (_, []) => {}
        (Some(piece), [high, low]) => {
            piece.push(digit_value(*high)? << 4 | digit_value(*low)?)?;
        }
        (None, b"with") => c.other = c.state,
        (None, b"send") => c.piece = Some(Piece::new()),
        _ => return None,
    }
    Some(())
}

// What stands before and after the first such byte, if there is one.
fn split_once(text: &[u8], byte: u8) -> Option<(&[u8], &[u8])> {
    let at = text.iter().position(|other| *other == byte)?;
    Some((&text[..at], &text[at + 1..]))
}

// Takes a setting, or a word with no number.
fn take_setting(c: &mut Case, text: &[u8]) -> Option<()> {
    match split_once(text, b'=') {
        Some((word, number)) => set(c, letters(word), read_number(number)?),
        None => take_word(c, letters(text)),
    }
}

// Reads a case: its kind, and its settings and piece, with a space between any two.
fn read_case(kind: &[u8], settings: &[u8]) -> Option<Case> {
    let mut c = Case::new(Kind::of(letters(kind))?);
    for setting in settings.split(|byte| *byte == b' ') {
        take_setting(&mut c, setting)?;
    }
    Some(c)
}

// A line that is understood.
struct Line<'a> {
    kind: &'a [u8],
    name: &'a [u8],
    case: Case,
}

// Reads a line, which has a colon before its name.
fn read_line(line: &[u8]) -> Option<Line<'_>> {
    let (kind, rest) = split_once(line, b' ')?;
    let (settings, name) = split_once(rest, b':')?;
    let case = read_case(kind, settings)?;
    Some(Line { kind, name, case })
}

// Performs the case of a line, if it is understood, or says that it is not.
fn perform_line(
    rt: &(impl Print + Eprint),
    line: &[u8],
    number: u64,
    space: &mut Space,
) -> Result<(), Unwritten> {
    match read_line(line) {
        Some(Line { kind, name, case }) => {
            say_name(rt, kind, name)?;
            perform(rt, &case, space)
        }
        None => say_unknown(rt, number),
    }
}

// Performs every line but the empty ones and comments, which start with #. The last line ends as the others do.
pub fn walk(rt: &(impl Print + Eprint), table: &[u8], space: &mut Space) -> Result<(), Unwritten> {
    for (number, line) in (1u64..).zip(table.split_inclusive(|byte| *byte == b'\n')) {
        match line {
            [b'\n'] | [b'#', .., b'\n'] => {}
            [line @ .., b'\n'] => perform_line(rt, line, number, space)?,
            _ => say_unknown(rt, number)?,
        }
    }
    Ok(())
}
