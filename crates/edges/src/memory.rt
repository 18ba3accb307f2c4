// The memory of a form of 1 line at 8 an inch, each part one longer than it has to be, so that it can be lent short, exact or long. It is marked before a
// call: each number is three times the one before it, so that none is 0 where the first is 1, and all are where it is 0.
use crate::case::{Case, Kind, LINE_SPACE, PAGE_BYTES, PAGE_SPACE, STORE_SPACE, Sizes, State};
use answers::new_printer;
use job::calls::{close, offer, open};
use printer::{Closing, Memory, Printer, STORE_BYTES};
use protocol::Answer;
use sheet::Model;
use sheet::sizes::{LP2_LINE_NUMBERS, new_form};
use words::{is_state, put, state_of};

// The first number of memory that is marked, and of memory that is blank.
pub const MARKED: u8 = 1;

pub const BLANK: u8 = 0;

// A number of the memory.
trait Mark: Copy + PartialEq + From<u8> {
    // The number times three.
    fn tripled(self) -> Self;
}

impl Mark for u8 {
    fn tripled(self) -> u8 {
        self.wrapping_mul(3)
    }
}

impl Mark for u16 {
    fn tripled(self) -> u16 {
        self.wrapping_mul(3)
    }
}

// Marks numbers, from a first one on.
fn mark_from<M: Mark>(numbers: &mut [M], first: u8) {
    let mut mark = M::from(first);
    for number in numbers {
        *number = mark;
        mark = mark.tripled();
    }
}

// Whether numbers are as marked.
fn is_marked<M: Mark>(numbers: &[M], first: u8) -> bool {
    let mut mark = M::from(first);
    for number in numbers {
        if *number != mark {
            return false;
        }
        mark = mark.tripled();
    }
    true
}

// Whether numbers are all 0.
fn is_zero<M: Mark>(numbers: &[M]) -> bool {
    let zero = M::from(BLANK);
    let mut any = false;
    for number in numbers {
        any |= *number != zero;
    }
    !any
}

// What a call gave back: its answer, and the bytes taken.
#[derive(Clone, Copy)]
pub struct Told {
    pub answer: Answer,
    pub taken: usize,
}

// The state that words hold; of words that are no state, the shut one.
#[tactic(auto, using(words::proofs::Ranges::state_halves))]
fn held(state: &State) -> Printer {
    if is_state(state) {
        return state_of(state);
    }
    new_printer(Model::Lp2, new_form(0, 0))
}

// The memory, how much of it is lent, and the first number that it was marked with.
#[derive(Drop)]
pub struct Space {
    page: [u8; PAGE_SPACE],
    line: [u16; LINE_SPACE],
    staging: [u8; STORE_SPACE],
    store: [u8; STORE_SPACE],
    font: [u8; STORE_SPACE],
    lent: Sizes,
    first: u8,
}

impl Space {
    // Blank memory that fits.
    pub fn new() -> Space {
        Space {
            page: [0; PAGE_SPACE],
            line: [0; LINE_SPACE],
            staging: [0; STORE_SPACE],
            store: [0; STORE_SPACE],
            font: [0; STORE_SPACE],
            lent: Sizes::exact(),
            first: BLANK,
        }
    }

    // Marks it from a first number on, and sets how much of it is lent.
    fn mark(&mut self, lent: Sizes, first: u8) {
        mark_from(&mut self.page, first);
        mark_from(&mut self.line, first);
        mark_from(&mut self.staging, first);
        mark_from(&mut self.store, first);
        self.lent = lent;
        self.first = first;
    }

    // Opens the form of the state, which is left as the call gives it back.
    fn open(&mut self, state: &mut State) -> Told {
        let form = held(state).form;
        let Space {
            page,
            line,
            staging,
            store,
            font,
            lent,
            ..
        } = self;
        let mut memory = Memory {
            page: page.split_at_mut(lent.page).0,
            line: line.split_at_mut(lent.line).0,
            staging: staging.split_at_mut(lent.staging).0,
            store: store.split_at_mut(lent.store).0,
            font: &font[..lent.font],
        };
        let opened = open(Model::Lp2, form.lines, form.spacing, &mut memory);
        put(state, opened.printer);
        Told {
            answer: opened.answer,
            taken: 0,
        }
    }

    // Offers the rest of a piece to the state, which is left as the call gives it back; the count is of the rest's bytes alone.
    pub fn offer(&mut self, state: &mut State, piece: &[u8], taken: usize) -> Told {
        let Space {
            page,
            line,
            staging,
            store,
            font,
            lent,
            ..
        } = self;
        let mut memory = Memory {
            page: page.split_at_mut(lent.page).0,
            line: line.split_at_mut(lent.line).0,
            staging: staging.split_at_mut(lent.staging).0,
            store: store.split_at_mut(lent.store).0,
            font: &font[..lent.font],
        };
        let fed = offer(held(state), piece, taken, &mut memory);
        put(state, fed.printer);
        Told {
            answer: fed.answer,
            taken: fed.taken.wrapping_sub(taken),
        }
    }

    // Whether all of it is as it was marked.
    pub fn is_same(&self) -> bool {
        is_marked(&self.page, self.first)
            && is_marked(&self.line, self.first)
            && is_marked(&self.staging, self.first)
            && is_marked(&self.store, self.first)
    }

    // Whether its exact lengths are blank.
    pub fn is_blank(&self) -> bool {
        is_zero(&self.page[..PAGE_BYTES])
            && is_zero(&self.line[..LP2_LINE_NUMBERS])
            && is_zero(&self.staging[..STORE_BYTES])
            && is_zero(&self.store[..STORE_BYTES])
    }

    // What is in staging at a place.
    pub fn staged(&self, place: usize) -> u64 {
        self.staging.get(place).map_or(0, |byte| u64::from(*byte))
    }

    // What is in the line store at a place.
    pub fn drawn(&self, place: usize) -> u64 {
        self.line.get(place).map_or(0, |number| u64::from(*number))
    }
}

// What came of a case: what its call gave back, with the state, and the offer of the piece's rest after it.
#[derive(Clone, Copy)]
pub struct Tried {
    pub fed: Told,
    pub state: State,
    pub rest: Told,
    pub after: State,
}

// Performs a case's call in memory that is marked from a first number on, and offers the rest of the piece.
pub fn try_case(c: &Case, first: u8, space: &mut Space) -> Tried {
    space.mark(c.lent, first);
    let piece = c.sent();
    let mut state = c.state;
    let fed = if c.kind == Kind::Open {
        space.open(&mut state)
    } else {
        space.offer(&mut state, piece, 0)
    };
    let mut after = state;
    let rest = space.offer(&mut after, piece, fed.taken);
    Tried {
        fed,
        state,
        rest,
        after,
    }
}

// Feeds a piece to a state that came back, in blank memory that fits.
pub fn feed_next(state: &mut State, piece: &[u8], space: &mut Space) -> Told {
    space.mark(Sizes::exact(), BLANK);
    space.offer(state, piece, 0)
}

// What closing a state answers.
pub fn close_state(state: &State) -> Closing {
    close(held(state))
}
