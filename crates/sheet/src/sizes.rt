// The sizes of a form, and the rules that lead from a line to a row and back, and from a column to the place where it stands.
#![tactic(auto, unfolding(crate::specs::Edition::lp2, crate::specs::Edition::dg6215))]

ghost use Rattle.std.specs.Prelude.{◌≤◌, ◌≡◌};
ghost use Rattle.sheet.specs.Edition.{apart_by, described, longest_page};
ghost use Rattle.sheet.specs.Form.{TopFits, below_top, first_row, fits, form_rows, line_of};
ghost use Rattle.sheet.specs.Form.{lines_allowed, lower, margins_allowed, new_form, page_bytes, page_size};
ghost use Rattle.sheet.specs.Form.{rows_per_line, spacing_allowed, top_row, unmargined};

use crate::{Form, Grid, Line, Model, Pitch, Row};

// The lines of the longest form.
pub const LP2_LONGEST: usize = 99;

pub const DG6215_LONGEST: usize = 112;

// The bytes of a row.
pub const LP2_ROW_BYTES: usize = 825;

pub const DG6215_ROW_BYTES: usize = 850;

// The numbers of the line store.
pub const LP2_LINE_NUMBERS: usize = 2200;

pub const DG6215_LINE_NUMBERS: usize = 6800;

// The bytes of the longest page of any model.
pub const LONGEST_PAGE: usize = 1142400;

// The lines of a model's longest form.
fn longest(model: Model) -> usize
    ensures { result ≡ (described model).longest }
{
    match model {
        Model::Lp2 => LP2_LONGEST,
        Model::Dg6215 => DG6215_LONGEST,
    }
}

// The bytes of a row.
pub fn row_bytes(model: Model) -> usize
    ensures { result ≡ (described model).bytes }
{
    match model {
        Model::Lp2 => LP2_ROW_BYTES,
        Model::Dg6215 => DG6215_ROW_BYTES,
    }
}

// The numbers of the line store.
pub fn line_numbers(model: Model) -> usize
    ensures { result ≡ (described model).columns }
{
    match model {
        Model::Lp2 => LP2_LINE_NUMBERS,
        Model::Dg6215 => DG6215_LINE_NUMBERS,
    }
}

// Whether a form can have so many lines.
#[tactic(auto, unfolding(crate::specs::Form::lines_allowed))]
pub fn lines_allowed(model: Model, lines: usize) -> bool
    ensures { result ≡ lines_allowed (described model) lines }
{
    (1..=longest(model)).contains(&lines)
}

// Whether so many lines can stand in an inch.
#[tactic(auto, unfolding(crate::specs::Form::spacing_allowed))]
pub fn spacing_allowed(spacing: usize) -> bool
    ensures { result ≡ spacing_allowed spacing }
{
    matches!(spacing, 6 | 8)
}

// R, the rows of a line.
#[tactic(auto, unfolding(crate::specs::Form::rows_per_line))]
pub fn rows_per_line(spacing: usize) -> usize
    ensures { result ≡ rows_per_line spacing }
{
    if spacing == 6 { 12 } else { 9 }
}

// L × R, the rows of a form.
#[tactic(auto, unfolding(crate::specs::Form::form_rows, crate::specs::Form::rows_per_line))]
fn form_rows(form: Form) -> usize
    requires { form.lines ≤ 112 }
    ensures value { result ≡ form_rows form }
    ensures upper_bound { result ≤ 1344 }
{
    form.lines * rows_per_line(form.spacing)
}

// The bytes of a form's page.
#[tactic(auto, unfolding(crate::specs::Edition::lp2, crate::specs::Edition::dg6215, crate::specs::Form::page_bytes))]
pub fn page_bytes(model: Model, form: Form) -> usize
    requires { form.lines ≤ 112 }
    ensures { result ≡ page_bytes (described model) form }
{
    form_rows(form) * row_bytes(model)
}

// The bytes of the page that so many lines at a spacing need, 0 where there is no such form.
#[tactic(auto, unfolding(crate::specs::Edition::lp2, crate::specs::Edition::dg6215, crate::specs::Form::page_size, crate::specs::Form::lines_allowed))]
pub fn page_size(model: Model, lines: usize, spacing: usize) -> usize
    ensures value { result ≡ page_size (described model) lines spacing }
    ensures upper_bound { result ≤ longest_page }
{
    if lines_allowed(model, lines) && spacing_allowed(spacing) {
        page_bytes(model, new_form(lines, spacing))
    } else {
        0
    }
}

// A form just opened: its margins are its own ends.
pub fn new_form(lines: usize, spacing: usize) -> Form
    ensures { result ≡ new_form lines spacing }
{
    Form {
        lines,
        spacing,
        top: Line(1),
        bottom: Line(lines),
    }
}

// Whether the margins lie on the form.
#[tactic(auto, unfolding(crate::specs::Form::margins_allowed))]
pub fn margins_allowed(form: Form) -> bool
    ensures { result ≡ margins_allowed form }
{
    Line(1) <= form.top && form.top <= form.bottom && form.bottom <= Line(form.lines)
}

// Whether the margins are the form's own ends.
#[tactic(auto, unfolding(crate::specs::Form::unmargined))]
pub fn unmargined(form: Form) -> bool
    ensures { result ≡ unmargined form }
{
    form.top == Line(1) && form.bottom == Line(form.lines)
}

// The first row of a line.
#[tactic(auto, unfolding(crate::specs::Form::first_row, crate::specs::Form::rows_per_line))]
pub fn first_row(form: Form, line: Line) -> Row
    requires le_line { 1 ≤ line.0 }
    requires line_bound { line.0 ≤ 128 }
    ensures { result ≡ first_row form line }
{
    Row((line.0 - 1) * rows_per_line(form.spacing))
}

// The line that a row lies in.
#[tactic(auto, unfolding(crate::specs::Form::line_of, crate::specs::Form::rows_per_line))]
pub fn line_of(form: Form, row: Row) -> Line
    ensures { result ≡ line_of form row }
{
    Line(1 + row.0 / rows_per_line(form.spacing))
}

// The row that stands some rows lower.
pub fn lower(row: Row, rows: usize) -> Row
    requires row_bound { row.0 ≤ 1344 }
    requires rows_bound { rows ≤ 12 }
    ensures { result ≡ lower rows row }
{
    Row(row.0 + rows)
}

// The row that a form starts at.
#[tactic(auto, unfolding(crate::specs::Form::top_row))]
pub fn top_row(form: Form) -> Row
    requires { TopFits form }
    ensures { result ≡ top_row form }
{
    first_row(form, form.top)
}

// Whether a row is none above the top margin.
#[tactic(auto, unfolding(crate::specs::Form::below_top))]
pub fn below_top(form: Form, row: Row) -> bool
    requires { TopFits form }
    ensures { result ≡ below_top form row }
{
    top_row(form) <= row
}

// Whether the nine wires of a line struck at a row stay above the bottom margin's end.
#[tactic(auto, unfolding(crate::specs::Form::fits, crate::specs::Form::rows_per_line))]
pub fn fits(form: Form, row: Row) -> bool
    requires { form.bottom.0 ≤ 112 }
    ensures { result ≡ fits form row }
{
    let rows = form.bottom.0 * rows_per_line(form.spacing);
    9 <= rows && row.0 <= rows - 9
}

// Whether the pitch may change anywhere in a line.
pub fn mixed(model: Model) -> bool
    ensures { result ≡ (described model).mixed }
{
    model == Model::Dg6215
}

// Whether ESC [ begins a command.
pub fn brackets(model: Model) -> bool
    ensures { result ≡ (described model).brackets }
{
    model == Model::Dg6215
}

// W, the positions of a text line.
pub fn width(model: Model, pitch: Pitch) -> usize
    ensures { result ≡ (described model).width pitch }
{
    match model {
        Model::Lp2 => match pitch {
            Pitch::Normal => 1320,
            Pitch::Compressed => 2200,
        },
        Model::Dg6215 => 6800,
    }
}

// How many grid positions apart the columns of a line stand.
fn apart_by(pitch: Pitch) -> usize
    ensures { result ≡ apart_by pitch }
{
    match pitch {
        Pitch::Normal => 5,
        Pitch::Compressed => 3,
    }
}

// The positions that a column takes.
pub fn stride(model: Model, pitch: Pitch) -> usize
    ensures { result ≡ (described model).stride pitch }
{
    match model {
        Model::Lp2 => 1,
        Model::Dg6215 => apart_by(pitch),
    }
}

// The grid position at which a position of a line stands.
pub fn grid(model: Model, pitch: Pitch, position: usize) -> Grid
    requires { position ≤ 6800 }
    ensures { result ≡ (described model).grid pitch position }
{
    match model {
        Model::Lp2 => Grid(apart_by(pitch) * position),
        Model::Dg6215 => Grid(position),
    }
}
