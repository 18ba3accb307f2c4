// Striking a line onto a page.
ghost use Rattle.std.specs.Prelude.{◌≡◌};
ghost use Rattle.sheet.specs.Edition.{described, dg6215, lp2};
ghost use Rattle.sheet.specs.Form.{empty_line};
ghost use Rattle.sheet.specs.Dots.{struck};
ghost use Rattle.striking.specs.Room.{Room};

use crate::groups::eight_columns;
use crate::positions::eighty_positions;
use sheet::sizes::width;
use sheet::{Model, Pitch, Row};

// Strikes the columns below W of a line of LP2, eight at a time: W is a multiple of eight.
fn columns(page: &mut [u8], line: &[u16], row: Row, pitch: Pitch)
    requires { Room lp2 page.old line.now row }
    ensures { page.new ≡ struck lp2 page.old line.now row pitch }
{
    let w = width(Model::Lp2, pitch);
    for column in (0..w).step_by(8) {
        eight_columns(page, line, row, pitch, column);
    }
}

// Strikes the positions below W of a line of the 6215, eighty at a time: W is a multiple of eighty.
fn positions(page: &mut [u8], line: &[u16], row: Row, pitch: Pitch)
    requires { Room dg6215 page.old line.now row }
    ensures { page.new ≡ struck dg6215 page.old line.now row pitch }
{
    let w = width(Model::Dg6215, pitch);
    for position in (0..w).step_by(80) {
        eighty_positions(page, line, row, pitch, position);
    }
}

// Strikes a line onto the page from `row` on.
fn onto(model: Model, page: &mut [u8], line: &[u16], row: Row, pitch: Pitch)
    requires { Room (described model) page.old line.now row }
    ensures { page.new ≡ struck (described model) page.old line.now row pitch }
{
    match model {
        Model::Lp2 => columns(page, line, row, pitch),
        Model::Dg6215 => positions(page, line, row, pitch),
    }
}

// Strikes the line in progress onto the page from `row` on, and empties it.
pub fn strike(model: Model, page: &mut [u8], line: &mut [u16], row: Row, pitch: Pitch)
    requires { Room (described model) page.old line.old row }
    ensures page_after { page.new ≡ struck (described model) page.old line.old row pitch }
    ensures line_after { line.new ≡ empty_line (described model) }
{
    onto(model, page, line, row, pitch);
    line.fill(0);
}
