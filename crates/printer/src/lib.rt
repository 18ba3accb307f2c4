// The printer: its state, what it can't obey, and what comes of a byte.
#![tactic(auto)]

use sheet::{Form, Model, Pitch, Row};

// The bytes of the staging store, of the download store and of the resident font.
pub const STORE_BYTES: usize = 2048;

// The most bytes that a job may have.
pub const JOB_LIMIT: u32 = 4294967295;

// Where the head stands, and what the line in progress is. `plotted`: a plot line; `plotting`: plot mode.
#[derive(Clone, Copy)]
pub struct Head {
    pub row: Row,
    pub column: usize,
    pub fresh: bool,
    pub plotted: bool,
    pub plotting: bool,
}

// How characters are entered: the pitch and the features.
#[derive(Clone, Copy)]
pub struct Style {
    pub pitch: Pitch,
    pub elongated: bool,
    pub underscore: bool,
    pub downloaded: bool,
}

// A download whose payload is coming: how much was announced, for which address, how much is there and what it sums to.
#[derive(Clone, Copy)]
pub struct Load {
    pub count: u16,
    pub address: u16,
    pub taken: u16,
    pub sum: u8,
}

// The numbers of a command that ESC [ begins, as far as they came, an omitted one as none, and the semicolons among them.
#[derive(Clone, Copy)]
pub struct Settings {
    pub first: Option<u16>,
    pub second: Option<u16>,
    pub third: Option<u16>,
    pub semicolons: u8,
}

// The command whose last byte has not come, with the place of its first byte and all that is needed of its bytes so far.
#[derive(Clone, Copy)]
pub enum Pending {
    Nothing,
    Escape(u32),
    Tabs(u32),
    Reset(u32),
    Select(u32),
    SelectLow(u32, u8),
    CountHigh(u32),
    CountLow(u32, u8),
    AddressHigh(u32, u16),
    AddressLow(u32, u16, u8),
    Payload(u32, Load),
    Bracket(u32, Settings),
}

// The vertical tabs: bit n − 1 of the two words, counted from the low one's lowest, is line n's.
#[derive(Clone, Copy)]
pub struct TabSet {
    pub low: u64,
    pub high: u64,
}

// The state. `job` counts the bytes of the job so far.
#[derive(Clone, Copy)]
pub struct Printer {
    pub model: Model,
    pub form: Form,
    pub job: u32,
    pub pending: Pending,
    pub head: Head,
    pub style: Style,
    pub tabs: TabSet,
}

// What a caller lends: the page, the stores, and the resident font.
#[derive(Drop)]
pub struct Memory<'a> {
    pub page: &'a mut [u8],
    pub line: &'a mut [u16],
    pub staging: &'a mut [u8],
    pub store: &'a mut [u8],
    pub font: &'a [u8],
}

// What came of a byte or a command: the state after it, and the event.
#[derive(Clone, Copy)]
pub struct Stepped {
    pub printer: Printer,
    pub event: Event,
}

// Why a byte or a command can't be obeyed.
#[derive(Clone, Copy)]
pub enum Fault {
    UnknownCommand,
    LineFull,
    Checksum,
    UnnamedControl,
    HighByte,
    OutOfTurn,
    WrongBytes,
    PlotLine,
    DownloadRange,
    TabLine,
    IllFormed,
    FormSetting,
}

// What comes of a byte: nothing to tell, a finished form, or a note with its fault and place.
#[derive(Clone, Copy)]
pub enum Event {
    Quiet,
    Finished,
    Noted(Fault, u32),
}

// What closing answers: the state is unsound, a command is unfinished that began at a place, the line is unprinted, or the job is clean.
#[derive(Clone, Copy)]
pub enum Closing {
    Unsound,
    Unfinished(u32),
    Unprinted,
    Clean,
}
