// A character entered into the line store. Document 01, "Bytes outside plot mode", printing.
ghost use Rattle.std.specs.Prelude.{◌+◌, ◌*◌, ◌/◌, ◌≤◌, ◌<◌, ◌≡◌, length};
ghost use Rattle.glyph.specs.Entering.{cell, or_in, enter_narrow, enter_wide, underscore, enter_glyph, enter};
ghost use Rattle.glyph.specs.Room.{Room};

use crate::words::column;

// How many columns a character takes up.
#[tactic(auto, unfolding(crate::specs::Entering::cell))]
pub fn cell(elongated: bool) -> usize
    ensures { result ≡ cell elongated }
{
    if elongated { 20 } else { 10 }
}

// Sets wires at one position of the line store; those set already stay set.
#[tactic(auto, unfolding(crate::specs::Entering::or_in))]
pub fn or_in(line: &mut [u16], at: usize, wires: u16)
    requires { at < length line.old }
    ensures { line.new ≡ or_in at wires line.old }
{
    line[at] = wires | line[at];
}

// Enters the seven columns of glyph n, each once.
fn enter_narrow(line: &mut [u16], glyphs: &[u8], n: usize, at: usize, stride: usize)
    requires { (1 ≤ stride) × (at + stride * 7 ≤ length line.old) × (16 * n + 16 ≤ length glyphs.now) }
    ensures { line.new ≡ enter_narrow 7 glyphs.now n at stride line.old }
{
    for k in 0..7 {
        or_in(line, at + stride * k, column(glyphs, n, k));
    }
}

// Enters the seven columns of glyph n elongated, each twice.
fn enter_wide(line: &mut [u16], glyphs: &[u8], n: usize, at: usize, stride: usize)
    requires { (1 ≤ stride) × (at + stride * 14 ≤ length line.old) × (16 * n + 16 ≤ length glyphs.now) }
    ensures { line.new ≡ enter_wide 7 glyphs.now n at stride line.old }
{
    for k in 0..7 {
        let to = at + stride * (2 * k);
        let wires = column(glyphs, n, k);
        or_in(line, to, wires);
        or_in(line, to + stride, wires);
    }
}

// Sets wire 9 in every second column, k times.
fn underscore(line: &mut [u16], k: usize, at: usize, stride: usize)
    requires { (1 ≤ stride) × (stride ≤ 5) × (at + stride * (2 * k) ≤ length line.old) }
    ensures { line.new ≡ underscore k at stride line.old }
{
    for j in 0..k {
        or_in(line, at + stride * (2 * j), 1);
    }
}

// Enters glyph n, narrow or elongated. Where narrow columns stand side by side, as an LP2's, a call of its own has the stride as a constant, so that
// the compiler knows the places beforehand.
#[tactic(auto, unfolding(crate::specs::Entering::enter_glyph, crate::specs::Entering::cell))]
fn enter_glyph(line: &mut [u16], glyphs: &[u8], n: usize, elongated: bool, at: usize, stride: usize)
    requires { Room line.old glyphs.now n elongated at stride }
    ensures { line.new ≡ enter_glyph glyphs.now n elongated at stride line.old }
{
    if elongated {
        enter_wide(line, glyphs, n, at, stride);
    } else if stride == 1 {
        enter_narrow(line, glyphs, n, at, 1);
    } else {
        enter_narrow(line, glyphs, n, at, stride);
    }
}

// Underscores a whole cell. Each call has its own constant, so that the compiler unrolls the loop.
#[tactic(auto, unfolding(crate::specs::Entering::cell))]
fn underscore_cell(line: &mut [u16], elongated: bool, at: usize, stride: usize)
    requires { (1 ≤ stride) × (stride ≤ 5) × (at + stride * cell elongated ≤ length line.old) }
    ensures { line.new ≡ underscore (cell elongated / 2) at stride line.old }
{
    if elongated {
        underscore(line, 10, at, stride);
    } else {
        underscore(line, 5, at, stride);
    }
}

// Enters a character: glyph n in the cell that begins at position `at`, where a column takes `stride` positions.
#[tactic(auto, unfolding(crate::specs::Entering::enter))]
pub fn enter(
    line: &mut [u16],
    glyphs: &[u8],
    n: usize,
    elongated: bool,
    underscored: bool,
    at: usize,
    stride: usize,
)
    requires { Room line.old glyphs.now n elongated at stride }
    ensures { line.new ≡ enter glyphs.now n elongated underscored at stride line.old }
{
    enter_glyph(line, glyphs, n, elongated, at, stride);
    if underscored {
        underscore_cell(line, elongated, at, stride);
    }
}
