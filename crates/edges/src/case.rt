// A case of the table: what is done, to which state, in which memory.
ghost use Rattle.std.specs.Prelude.{◌≤◌};
ghost use Rattle.edges.specs.declared.case.TheConstants.{LINE_SPACE, PAGE_SPACE, PIECE_BYTES, STORE_SPACE};

use printer::STORE_BYTES;
use sheet::sizes::LP2_LINE_NUMBERS;
use words::STATE_WORDS;

// A state, as the words of `words`.
pub type State = [u64; STATE_WORDS];

// The bytes of the page of a form of 1 line at 8 an inch.
pub const PAGE_BYTES: usize = 7425;

// The lengths of the page, the line store and the other stores, each one longer than it has to be.
pub const PAGE_SPACE: usize = PAGE_BYTES + 1;

pub const LINE_SPACE: usize = LP2_LINE_NUMBERS + 1;

pub const STORE_SPACE: usize = STORE_BYTES + 1;

// The most bytes of a piece.
const PIECE_BYTES: usize = 64;

// What a case does.
#[derive(Clone, Copy, PartialEq)]
pub enum Kind {
    Open,
    Compare,
    Unsound,
    Sound,
    Feed,
    Limit,
    Close,
}

impl Kind {
    // The kind that a word names.
    pub fn of(word: &[u8]) -> Option<Kind> {
        match word {
            b"open" => Some(Kind::Open),
            b"compare" => Some(Kind::Compare),
            b"unsound" => Some(Kind::Unsound),
            b"sound" => Some(Kind::Sound),
            b"feed" => Some(Kind::Feed),
            b"limit" => Some(Kind::Limit),
            b"close" => Some(Kind::Close),
            _ => None,
        }
    }
}

// How much of each part of the memory is lent.
#[derive(Clone, Copy)]
pub struct Sizes {
    pub page: usize,
    pub line: usize,
    pub staging: usize,
    pub store: usize,
    pub font: usize,
    ghost page_there: { page ≤ PAGE_SPACE },
    ghost line_there: { line ≤ LINE_SPACE },
    ghost staging_there: { staging ≤ STORE_SPACE },
    ghost store_there: { store ≤ STORE_SPACE },
    ghost font_there: { font ≤ STORE_SPACE },
}

impl Sizes {
    // The lengths that fit.
    pub fn exact() -> Sizes {
        Sizes {
            page: PAGE_BYTES,
            line: LP2_LINE_NUMBERS,
            staging: STORE_BYTES,
            store: STORE_BYTES,
            font: STORE_BYTES,
        }
    }
}

// A piece, the first of these bytes.
#[derive(Clone, Copy)]
pub struct Piece {
    bytes: [u8; PIECE_BYTES],
    count: usize,
    ghost room: { count ≤ PIECE_BYTES },
}

impl Piece {
    // The empty piece.
    pub fn new() -> Piece {
        Piece {
            bytes: [0; PIECE_BYTES],
            count: 0,
        }
    }

    // Puts a byte at its end, if there is room.
    pub fn push(&mut self, byte: u8) -> Option<()> {
        *self.bytes.get_mut(self.count)? = byte;
        self.count += 1;
        Some(())
    }

    // Its bytes.
    pub fn bytes(&self) -> &[u8] {
        &self.bytes[..self.count]
    }
}

// A part of the memory that is told of: staging or the line store.
#[derive(Clone, Copy)]
pub enum Shown {
    Staged,
    Drawn,
}

// What is told of the memory: what is in a part of it, from the first place to the last.
#[derive(Clone, Copy)]
pub struct View {
    pub shown: Shown,
    pub first: usize,
    pub last: usize,
}

// `other`: the state before the word `with`. `piece`: what stands after the word `send`, if it is there.
#[derive(Clone, Copy)]
pub struct Case {
    pub kind: Kind,
    pub state: State,
    pub other: State,
    pub lent: Sizes,
    pub piece: Option<Piece>,
    pub view: Option<View>,
}

impl Case {
    // The case of a kind before its settings: the state of a job just opened, a fresh line of a form of 1 line at 8 an inch, and the exact lengths.
    pub fn new(kind: Kind) -> Case {
        let mut state = [0; STATE_WORDS];
        state[1] = 1;
        state[2] = 8;
        state[3] = 1;
        state[4] = 1;
        state[8] = 1;
        Case {
            kind,
            state,
            other: state,
            lent: Sizes::exact(),
            piece: None,
            view: None,
        }
    }

    // The bytes of the piece, none where there is no piece.
    pub fn sent(&self) -> &[u8] {
        match &self.piece {
            Some(piece) => piece.bytes(),
            None => &[],
        }
    }
}
