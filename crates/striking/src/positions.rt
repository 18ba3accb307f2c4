// Striking a line of the 6215 sixteen positions at a time. The line store has a number for each grid position, so that sixteen positions are two bytes
// of a row: sixteen columns are turned into nine pairs of bytes, one for each wire. Most positions are empty, since a column takes 5 or 3 and stands
// at the first, and past the end of the text all are: eighty empty ones are passed over at once.
ghost use Rattle.std.specs.Prelude.{ℕ, ◌+◌, ◌*◌, ◌%◌, ◌^◌, ◌≤◌, ◌<◌, ◌≡◌, List, [], ◌∷◌, length, take, drop, get_or};
ghost use Rattle.sheet.specs.declared.Pitch.{Pitch};
ghost use Rattle.sheet.specs.declared.Row.{Row};
ghost use Rattle.sheet.specs.Edition.{dg6215};
ghost use Rattle.sheet.specs.Dots.{blacken_all, dot_at, line_marks};
ghost use Rattle.striking.specs.Groups.{any_wires, join, swapped};
ghost use Rattle.striking.specs.Turning.{number, made, turn, turned, paired, two_to_five, six_to_nine, topmost, fours};
ghost use Rattle.striking.specs.Room.{Room};

use crate::groups::four;
use sheet::counts::page_byte;
use sheet::sizes::{DG6215_ROW_BYTES, grid};
use sheet::{Model, Pitch, Row};

// Exchanges bits of a number: those that `moved` names and those `up` times as high.
fn exchanged(f: u64, moved: u64, up: u64) -> u64
    requires { (1 ≤ up) × (moved * up < 2 ^ 64) }
    ensures { (s : ℕ) → up ≡ 2 ^ s → result ≡ made (f ∷ []) (turn moved s (number 0)) }
{
    let differing = (f ^ (f / up)) & moved;
    f ^ differing ^ (differing * up)
}

// The eight lowest wires of four columns and of the four that stand eight further on: a byte for each column, and above it that of the column
// eight further on.
#[tactic(auto, using(crate::proofs::Grouping::masked_fits), unfolding(crate::specs::Turning::made, crate::specs::Turning::paired))]
fn paired(four: u64, further: u64) -> u64
    ensures { result ≡ made (four ∷ further ∷ []) (paired (number 0) (number 1)) }
{
    (four & 0x00FF00FF00FF00FF) ^ ((further & 0x00FF00FF00FF00FF) * 0x100)
}

// Four wires of sixteen columns, turned: two bytes for each wire, the wire of the highest bits lowest. Of a wire's bytes the lower one has the first
// eight columns, the first column's bit highest, and the other one the other eight.
fn turned(wires: u64) -> u64
    ensures { result ≡ made (wires ∷ []) (turned (number 0)) }
{
    let once = exchanged(wires, 0x0000000033333333, 0x400000000);
    exchanged(once, 0x0000555500005555, 0x20000)
}

// Wire 1 of sixteen columns, four of which stand side by side in each number: in the two lowest bytes, as each of four wires turned.
#[tactic(auto, using(crate::proofs::Grouping::masked_fits), unfolding(crate::specs::Turning::made, crate::specs::Turning::topmost))]
fn topmost(first: u64, second: u64, third: u64, fourth: u64) -> u64
    ensures { result ≡ made (first ∷ second ∷ third ∷ fourth ∷ []) topmost }
{
    let apart = ((first & 0x0100010001000100) / 0x2)
        ^ ((second & 0x0100010001000100) / 0x20)
        ^ ((third & 0x0100010001000100) * 0x80)
        ^ ((fourth & 0x0100010001000100) * 0x8);
    let near = apart ^ (apart / 0x20000);
    near ^ (near / 0x400000000)
}

// Joins the two lowest bytes of `dots` to bytes i and i + 1 of the page, the lowest first. They are read and stored as one number, so that the
// compiler joins both at once.
fn join_two(page: &mut [u8], i: usize, dots: u64)
    requires { i + 2 ≤ length page.old }
    ensures { page.new ≡ join page.old i 2 (swapped 2 dots 0) }
{
    let old = page[i] as u64 + page[i + 1] as u64 * 0x100;
    let new = old | dots % 0x10000;
    page[i] = (new % 256) as u8;
    page[i + 1] = (new / 256) as u8;
}

// Strikes the nine wires of sixteen columns, each a row below the one before: wire 1 is in `top`, wires 2 to 5 in `upper`, 6 to 9 in `lower`.
fn nine_wires(page: &mut [u8], at: usize, top: u64, upper: u64, lower: u64)
    requires { at + 6802 ≤ length page.old }
    ensures { (line : List ℕ) (pitch : Pitch) (r : Row) (c : ℕ) → c + 16 ≤ length line → ((k : ℕ) → get_or line k 0 < 2 ^ 16)
        → top ≡ made (fours line c) topmost → upper ≡ made (fours line c) two_to_five → lower ≡ made (fours line c) six_to_nine
        → at * 8 ≡ dot_at dg6215 r (dg6215.grid pitch c)
        → page.new ≡ blacken_all page.old (line_marks dg6215 (take 16 (drop c line)) pitch r c) }
{
    join_two(page, at, top);
    join_two(page, at + DG6215_ROW_BYTES, upper);
    join_two(page, at + 2 * DG6215_ROW_BYTES, upper / 0x10000);
    join_two(page, at + 3 * DG6215_ROW_BYTES, upper / 0x100000000);
    join_two(page, at + 4 * DG6215_ROW_BYTES, upper / 0x1000000000000);
    join_two(page, at + 5 * DG6215_ROW_BYTES, lower);
    join_two(page, at + 6 * DG6215_ROW_BYTES, lower / 0x10000);
    join_two(page, at + 7 * DG6215_ROW_BYTES, lower / 0x100000000);
    join_two(page, at + 8 * DG6215_ROW_BYTES, lower / 0x1000000000000);
}

// Strikes sixteen columns, four of which stand side by side in each number. The higher half of a column's byte is wires 2 to 5, the lower one 6 to 9:
// the lower halves on the left and the higher ones on the right change places where they differ.
fn sixteen_columns(page: &mut [u8], at: usize, first: u64, second: u64, third: u64, fourth: u64)
    requires { at + 6802 ≤ length page.old }
    ensures { (line : List ℕ) (pitch : Pitch) (r : Row) (c : ℕ) → c + 16 ≤ length line → ((k : ℕ) → get_or line k 0 < 2 ^ 16)
        → first ∷ second ∷ third ∷ fourth ∷ [] ≡ fours line c → at * 8 ≡ dot_at dg6215 r (dg6215.grid pitch c)
        → page.new ≡ blacken_all page.old (line_marks dg6215 (take 16 (drop c line)) pitch r c) }
{
    let left = paired(first, third);
    let right = paired(second, fourth);
    let differing = (left ^ (right / 0x10)) & 0x0F0F0F0F0F0F0F0F;
    let top = topmost(first, second, third, fourth);
    let upper = turned(left ^ differing);
    let lower = turned(right ^ (differing * 0x10));
    nine_wires(page, at, top, upper, lower);
}

// Strikes the sixteen positions from c on, with wire 1 in `row`. As c is a multiple of sixteen, they are two bytes of the row.
fn sixteen_positions(page: &mut [u8], line: &[u16], row: Row, pitch: Pitch, c: usize)
    requires room { Room dg6215 page.old line.now row }
    requires c_value { (c % 16 ≡ 0) × (c < dg6215.width pitch) }
    ensures { page.new ≡ blacken_all page.old (line_marks dg6215 (take 16 (drop c line.now)) pitch row c) }
{
    let first = four(line, c);
    let second = four(line, c + 4);
    let third = four(line, c + 8);
    let fourth = four(line, c + 12);
    let at = page_byte(Model::Dg6215, row, grid(Model::Dg6215, pitch, c));
    sixteen_columns(page, at, first, second, third, fourth);
}

// The wires that any of some columns has.
fn any_wires(columns: &[u16]) -> u16
    ensures { result ≡ any_wires columns.now }
{
    let mut any = 0;
    for column in columns {
        any |= *column;
    }
    any
}

// Strikes the eighty positions from c on, sixteen at a time. Eighty empty ones are passed over.
pub(crate) fn eighty_positions(page: &mut [u8], line: &[u16], row: Row, pitch: Pitch, c: usize)
    requires room { Room dg6215 page.old line.now row }
    requires c_value { (c % 80 ≡ 0) × (c < dg6215.width pitch) }
    ensures { page.new ≡ blacken_all page.old (line_marks dg6215 (take 80 (drop c line.now)) pitch row c) }
{
    if any_wires(&line[c..c + 80]) == 0 {
        return;
    }
    for k in (0..80).step_by(16) {
        sixteen_positions(page, line, row, pitch, c + k);
    }
}
