// The sheet: a form's lines, its rows of dots, and the positions in a row. Document 01, "The sheet".
#![tactic(auto)]

// A line of a form, counted from 1.
#[derive(Clone, Copy, PartialEq, Eq, PartialOrd, Ord)]
pub struct Line(pub usize);

// A row of dots of a form, counted from 0 at the top.
#[derive(Clone, Copy, PartialEq, Eq, PartialOrd, Ord)]
pub struct Row(pub usize);

// A position in a row of dots, counted from 0 at the left.
#[derive(Clone, Copy, PartialEq, Eq)]
pub struct Grid(pub usize);

// A form: how many lines it has, how many lines stand in an inch, and the lines of its margins, the first and the last to print on.
#[derive(Clone, Copy, PartialEq, Eq)]
pub struct Form {
    pub lines: usize,
    pub spacing: usize,
    pub top: Line,
    pub bottom: Line,
}

// The editions of the printer.
#[derive(Clone, Copy, PartialEq, Eq)]
pub enum Model {
    Lp2,
    Dg6215,
}

// How far apart the columns of a line stand.
#[derive(Clone, Copy, PartialEq, Eq)]
pub enum Pitch {
    Normal,
    Compressed,
}

pub mod counts;
pub mod sizes;
