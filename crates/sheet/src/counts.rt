// The three counts kept apart, line, row and grid position, and the named rules that lead to plain numbers and back.
ghost use Rattle.std.specs.Prelude.{◌+◌, ◌*◌, ◌≤◌, ◌≡◌};
ghost use Rattle.sheet.specs.Edition.{described};
ghost use Rattle.sheet.specs.Form.{line, lines_above, lines_through, row, rows_above};
ghost use Rattle.sheet.specs.Dots.{page_byte};

use crate::sizes::row_bytes;
use crate::{Grid, Line, Model, Row};

// Line n of a form.
pub fn line(n: usize) -> Line
    ensures { result ≡ line n }
{
    Line(n)
}

// How many lines stand above a line.
pub fn lines_above(line: Line) -> usize
    requires { 1 ≤ line.0 }
    ensures { result ≡ lines_above line }
{
    line.0 - 1
}

// How many lines stand from the top through a line.
pub fn lines_through(line: Line) -> usize
    ensures { result ≡ lines_through line }
{
    line.0
}

// The row that has n rows above it.
pub fn row(n: usize) -> Row
    ensures { result ≡ row n }
{
    Row(n)
}

// How many rows stand above a row.
pub fn rows_above(row: Row) -> usize
    ensures { result ≡ rows_above row }
{
    row.0
}

// The byte of a page that has the dot at a position of a row.
#[tactic(auto, unfolding(crate::specs::Dots::page_byte))]
pub fn page_byte(model: Model, row: Row, position: Grid) -> usize
    requires model_bound { (row.0 + 1) * (described model).bytes ≤ 18446744073709551615 }
    requires position_bound { position.0 ≤ 8 * (described model).bytes }
    ensures { result ≡ page_byte (described model) row position }
{
    row.0 * row_bytes(model) + position.0 / 8
}
