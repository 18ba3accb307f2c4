// What each kind of case does, and the rest of its line after the name.
use crate::case::{Case, Kind, Shown, State, View};
use crate::lines::{say_closing, say_feeding, say_same};
use crate::memory::{BLANK, MARKED, Space, close_state, feed_next, try_case};
use protocol::numbers::answer_number;
use report::{Unwritten, say, say_number};

// Opens a job in marked memory, and feeds the piece, if there is one, to the state that came back.
fn open_case(rt: &(impl Print + Eprint), c: &Case, space: &mut Space) -> Result<(), Unwritten> {
    let t = try_case(c, MARKED, space);
    let closing = close_state(&t.state);
    let same = space.is_same();
    say_number(rt, b": ", answer_number(t.fed.answer))?;
    if space.is_blank() && !same {
        return say_closing(rt, b", memory blank, close ", closing);
    }
    say_same(rt, b", memory", same)?;
    say_feeding(rt, b", fed ", t.rest)?;
    say_closing(rt, b", close ", closing)
}

// Compares two states, or marked memory before and after a piece.
fn compare_case(rt: &(impl Print + Eprint), c: &Case, space: &mut Space) -> Result<(), Unwritten> {
    if c.piece.is_some() {
        let _ = try_case(c, MARKED, space);
        say_same(rt, b": memory", space.is_same())?;
    } else {
        say_same(rt, b": state", c.state == c.other)?;
    }
    say(rt, b"\n")
}

// Feeds the piece in marked memory, and then a character, in memory that fits, to the state that came back.
fn refused_case(rt: &(impl Print + Eprint), c: &Case, space: &mut Space) -> Result<(), Unwritten> {
    let t = try_case(c, MARKED, space);
    let same = space.is_same();
    let mut next = t.state;
    let then = feed_next(&mut next, b"A", space);
    say_feeding(rt, b": ", t.fed)?;
    say_same(rt, b", memory", same)?;
    say_same(rt, b", state", t.state == c.state)?;
    say_feeding(rt, b", then ", then)?;
    say_closing(rt, b", close ", close_state(&t.state))
}

// Feeds the piece in blank memory, and closes the state that was handed in.
fn sound_case(rt: &(impl Print + Eprint), c: &Case, space: &mut Space) -> Result<(), Unwritten> {
    let t = try_case(c, BLANK, space);
    say_feeding(rt, b": ", t.fed)?;
    say_closing(rt, b", close ", close_state(&c.state))
}

// Feeds the piece in blank memory, and closes the state that came back. Where there is no piece, closes the state.
fn close_case(rt: &(impl Print + Eprint), c: &Case, space: &mut Space) -> Result<(), Unwritten> {
    if c.piece.is_none() {
        return say_closing(rt, b": ", close_state(&c.state));
    }
    let t = try_case(c, BLANK, space);
    say_feeding(rt, b": ", t.fed)?;
    say_closing(rt, b", ", close_state(&t.state))
}

// Writes how many bytes the job has, where the head stands and how the job closes.
fn say_left(rt: &(impl Print + Eprint), state: &State) -> Result<(), Unwritten> {
    say_number(rt, b", job ", state[5])?;
    say_number(rt, b", row ", state[6])?;
    say_number(rt, b", column ", state[7])?;
    say_closing(rt, b", close ", close_state(state))
}

// Feeds the piece in blank memory, offers its rest, and feeds nothing after that.
fn limit_case(rt: &(impl Print + Eprint), c: &Case, space: &mut Space) -> Result<(), Unwritten> {
    let t = try_case(c, BLANK, space);
    let mut left = t.after;
    let nothing = feed_next(&mut left, b"", space);
    say_feeding(rt, b": ", t.fed)?;
    say_feeding(rt, b", rest ", t.rest)?;
    say_feeding(rt, b", nothing ", nothing)?;
    say_left(rt, &left)
}

// Writes what is in staging or in the line store at each place that is asked of, after the piece is fed in blank memory.
fn view_case(
    rt: &(impl Print + Eprint),
    c: &Case,
    view: View,
    space: &mut Space,
) -> Result<(), Unwritten> {
    let _ = try_case(c, BLANK, space);
    say(rt, b":")?;
    for place in view.first..=view.last {
        let number = match view.shown {
            Shown::Staged => space.staged(place),
            Shown::Drawn => space.drawn(place),
        };
        say_number(rt, b" ", number)?;
    }
    say(rt, b"\n")
}

// Performs a case.
pub fn perform(rt: &(impl Print + Eprint), c: &Case, space: &mut Space) -> Result<(), Unwritten> {
    match c.kind {
        Kind::Open => open_case(rt, c, space),
        Kind::Compare => compare_case(rt, c, space),
        Kind::Unsound | Kind::Feed => refused_case(rt, c, space),
        Kind::Sound => sound_case(rt, c, space),
        Kind::Limit => match c.view {
            Some(view) => view_case(rt, c, view, space),
            None => limit_case(rt, c, space),
        },
        Kind::Close => close_case(rt, c, space),
    }
}
