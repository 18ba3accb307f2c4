// The settings of a case: each is a word and a number, and changes one part of it.
ghost use Rattle.std.specs.Prelude.{◌≤◌, IfSome};

use crate::case::{Case, LINE_SPACE, PAGE_SPACE, STORE_SPACE, Shown, Sizes, State, View};

// The last place of staging and of the line store that can be told of.
const LAST_SHOWN: usize = 2047;

// A command that has begun, by its number in a state: an ESC, a tab list, a download.
#[derive(Clone, Copy, PartialEq)]
enum Command {
    Escape = 1,
    List = 2,
    Download = 10,
}

// A part of the memory that is lent.
#[derive(Clone, Copy)]
enum Part {
    Page,
    Line,
    Staging,
    Store,
    Font,
}

// A part of the state.
#[derive(Clone, Copy)]
enum Item {
    Lines,
    Spacing,
    Row,
    Column,
    Tab,
    Fresh,
    Plotted,
    Plotting,
    Compress,
    Job,
    Escape,
    List,
    Payload,
    Taken,
}

// What a setting changes.
#[derive(Clone, Copy)]
enum Setting {
    State(Item),
    Lent(Part),
    First(Shown),
    Last,
}

impl Setting {
    // The setting that a word names.
    fn of(word: &[u8]) -> Option<Setting> {
        match word {
            b"lines" => Some(Setting::State(Item::Lines)),
            b"spacing" => Some(Setting::State(Item::Spacing)),
            b"row" => Some(Setting::State(Item::Row)),
            b"column" => Some(Setting::State(Item::Column)),
            b"tab" => Some(Setting::State(Item::Tab)),
            b"fresh" => Some(Setting::State(Item::Fresh)),
            b"plotted" => Some(Setting::State(Item::Plotted)),
            b"plotting" => Some(Setting::State(Item::Plotting)),
            b"compress" => Some(Setting::State(Item::Compress)),
            b"job" => Some(Setting::State(Item::Job)),
            b"escape" => Some(Setting::State(Item::Escape)),
            b"list" => Some(Setting::State(Item::List)),
            b"payload" => Some(Setting::State(Item::Payload)),
            b"taken" => Some(Setting::State(Item::Taken)),
            b"page" => Some(Setting::Lent(Part::Page)),
            b"line" => Some(Setting::Lent(Part::Line)),
            b"staging" => Some(Setting::Lent(Part::Staging)),
            b"store" => Some(Setting::Lent(Part::Store)),
            b"font" => Some(Setting::Lent(Part::Font)),
            b"staged" => Some(Setting::First(Shown::Staged)),
            b"drawn" => Some(Setting::First(Shown::Drawn)),
            b"last" => Some(Setting::Last),
            _ => None,
        }
    }
}

// A number, if it is at most so large.
fn at_most(number: usize, most: usize) -> Option<usize>
    ensures { IfSome result (λ n. n ≤ most) }
{
    (number <= most).then_some(number)
}

// The word of what is 0 or 1.
fn truth(number: usize) -> Option<u64> {
    Some(at_most(number, 1)? as u64)
}

// The word of a place or of a count of bytes of a job.
fn job_place(number: usize) -> Option<u64> {
    Some(u64::from(u32::try_from(number).ok()?))
}

// The bit of a line in a word of 64 lines' tabs, the first line's lowest; none for another line.
fn tab_bit(line: usize) -> u64 {
    match line {
        1..=64 => 1 << (line - 1),
        _ => 0,
    }
}

// Sets a command that has begun at a place. A payload is one of 16 bytes for the download store's start.
fn set_command(state: &mut State, command: Command, place: usize) -> Option<()> {
    state[17] = command as u64;
    state[18] = job_place(place)?;
    if command == Command::Download {
        state[20] = 16;
        state[21] = 2048;
    }
    Some(())
}

// Sets a tab on a line.
fn set_tab(state: &mut State, line: usize) -> Option<()> {
    let line = at_most(line, 128)?;
    state[15] = tab_bit(line);
    state[16] = tab_bit(line.wrapping_sub(64));
    Some(())
}

// Sets how much of a payload came.
fn set_taken(state: &mut State, taken: usize) -> Option<()> {
    if state[17] != Command::Download as u64 {
        return None;
    }
    state[22] = u64::from(u16::try_from(taken).ok()?);
    Some(())
}

// Sets a part of the state.
fn set_state(state: &mut State, item: Item, number: usize) -> Option<()> {
    match item {
        Item::Lines => {
            state[1] = number as u64;
            state[4] = number as u64;
        }
        Item::Spacing => state[2] = number as u64,
        Item::Job => state[5] = job_place(number)?,
        Item::Row => state[6] = number as u64,
        Item::Column => state[7] = number as u64,
        Item::Fresh => state[8] = truth(number)?,
        Item::Plotted => state[9] = truth(number)?,
        Item::Plotting => state[10] = truth(number)?,
        Item::Compress => state[11] = truth(number)?,
        Item::Tab => set_tab(state, number)?,
        Item::Escape => set_command(state, Command::Escape, number)?,
        Item::List => set_command(state, Command::List, number)?,
        Item::Payload => set_command(state, Command::Download, number)?,
        Item::Taken => set_taken(state, number)?,
    }
    Some(())
}

// Sets how much is lent of a part of the memory.
fn set_lent(lent: &mut Sizes, part: Part, number: usize) -> Option<()> {
    match part {
        Part::Page => lent.page = at_most(number, PAGE_SPACE)?,
        Part::Line => lent.line = at_most(number, LINE_SPACE)?,
        Part::Staging => lent.staging = at_most(number, STORE_SPACE)?,
        Part::Store => lent.store = at_most(number, STORE_SPACE)?,
        Part::Font => lent.font = at_most(number, STORE_SPACE)?,
    }
    Some(())
}

// Sets what a word names, if it can be that number.
pub fn set(c: &mut Case, word: &[u8], number: usize) -> Option<()> {
    match Setting::of(word)? {
        Setting::State(item) => set_state(&mut c.state, item, number),
        Setting::Lent(part) => set_lent(&mut c.lent, part, number),
        Setting::First(shown) => {
            let first = at_most(number, LAST_SHOWN)?;
            c.view = Some(View {
                shown,
                first,
                last: first,
            });
            Some(())
        }
        Setting::Last => {
            let last = at_most(number, LAST_SHOWN)?;
            if let Some(view) = &mut c.view {
                view.last = last;
            }
            Some(())
        }
    }
}
