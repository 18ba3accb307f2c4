// Striking a line of LP2 eight columns at a time. Eight columns fill whole bytes of a row, five in normal pitch and three in compressed. So the
// dots of one wire of eight columns are the bytes of one number, and that wire of all eight is struck by joining those bytes to the page's.
ghost use Rattle.std.specs.Prelude.{ℕ, ◌+◌, ◌*◌, ◌%◌, ◌^◌, ◌≤◌, ◌<◌, ◌≡◌, List, length, take, drop, get_or};
ghost use Rattle.sheet.specs.declared.Row.{Row};
ghost use Rattle.sheet.specs.declared.Pitch.{Pitch};
ghost use Rattle.sheet.specs.Edition.{apart_by, lp2};
ghost use Rattle.sheet.specs.Dots.{blacken_all, dot_at, line_marks};
ghost use Rattle.striking.specs.Groups.{fields, join, ones, side_by_side, wire_dots};
ghost use Rattle.striking.specs.Room.{Room};

use sheet::counts::page_byte;
use sheet::sizes::{LP2_ROW_BYTES, grid};
use sheet::{Model, Pitch, Row};

// The four columns from c on side by side in one number, the first lowest.
pub(crate) fn four(line: &[u16], c: usize) -> u64
    requires { c + 4 ≤ length line.now }
    ensures { result ≡ side_by_side (take 4 (drop c line.now)) }
{
    let low = line[c] as u64 + line[c + 1] as u64 * 0x10000;
    let high = line[c + 2] as u64 + line[c + 3] as u64 * 0x10000;
    low + high * 0x100000000
}

// Puts N wires of each of eight columns into one number, side by side in fields of N bits, the first column's field highest. A field has the
// column's bits from bit `skip` on.
fn fields<const N: usize>(columns: &[u16], skip: usize) -> u64
    requires { (length columns.now ≡ 8) × (N ≤ 5) × (skip < 16) }
    ensures { result ≡ fields (2 ^ N) skip columns.now 0 }
{
    let mut f = 0;
    for column in columns {
        f = f * (1 << N) + u64::from(*column >> skip) % (1 << N);
    }
    f
}

// A 1 in each of eight fields of N bits.
fn ones<const N: usize>() -> u64
    requires { (1 ≤ N) × (N ≤ 5) }
    ensures value { result ≡ ones (2 ^ N) 8 }
    ensures below { result < 2 ^ 40 }
{
    let mut all = 0;
    for _ in 0..8usize {
        all = all * (1 << N) + 1;
    }
    all
}

// Joins the N lowest bytes of `dots` to those of the page from `at` on, the highest first.
fn join<const N: usize>(page: &mut [u8], at: usize, dots: u64)
    requires { (at + N ≤ length page.old) × (N ≤ 8) }
    ensures { page.new ≡ join page.old at N dots }
{
    for i in 0..N {
        page[at + i] |= ((dots >> (8 * (N - 1 - i))) % 256) as u8;
    }
}

// Strikes one wire of eight columns that stand N positions apart: the one at bit `wire` of each field. Its dots are in the N bytes from `at` on.
// The mask keeps one bit of each field, and a column's dot is at the top of its N positions.
fn wire<const N: usize>(page: &mut [u8], at: usize, fields: u64, wire: usize)
    requires { (at + N ≤ length page.old) × (1 ≤ N) × (N ≤ 5) × (wire < N) }
    ensures { page.new ≡ join page.old at N (wire_dots (2 ^ N) fields wire) }
{
    let dots = ((fields >> wire) & ones::<N>()) << (N - 1);
    join::<N>(page, at, dots);
}

// Strikes the nine wires of eight columns that stand N positions apart, each a row below the one before: a column's bit k is bit k % N of its
// field in `held[k / N]`.
fn wires<const N: usize>(page: &mut [u8], at: usize, held: [u64; 3])
    requires { (at + 6600 + N ≤ length page.old) × (3 ≤ N) × (N ≤ 5) }
    ensures { (pitch : Pitch) (columns : List ℕ) (r : Row) (c : ℕ) → N ≡ apart_by pitch → length columns ≡ 8
        → ((k : ℕ) → k < 3 → get_or held k 0 ≡ fields (2 ^ N) (k * N) columns 0) → at * 8 ≡ dot_at lp2 r (lp2.grid pitch c)
        → page.new ≡ blacken_all page.old (line_marks lp2 columns pitch r c) }
{
    for row in 0..9 {
        let k = 8 - row;
        wire::<N>(page, at + row * LP2_ROW_BYTES, held[k / N], k % N);
    }
}

// Strikes eight columns that stand N positions apart, the topmost wire of the first at the top of byte `at`.
fn eight<const N: usize>(page: &mut [u8], columns: &[u16], at: usize)
    requires { (at + 6600 + N ≤ length page.old) × (3 ≤ N) × (N ≤ 5) × (length columns.now ≡ 8) }
    ensures { (pitch : Pitch) (r : Row) (c : ℕ) → N ≡ apart_by pitch → at * 8 ≡ dot_at lp2 r (lp2.grid pitch c)
        → page.new ≡ blacken_all page.old (line_marks lp2 columns.now pitch r c) }
{
    let low = fields::<N>(columns, 0);
    let middle = fields::<N>(columns, N);
    let high = fields::<N>(columns, 2 * N);
    wires::<N>(page, at, [low, middle, high]);
}

// Strikes the eight columns from c on, with wire 1 in `row`. As c is a multiple of eight, their dots begin at the top of a byte. Eight
// empty columns are passed over.
pub(crate) fn eight_columns(page: &mut [u8], line: &[u16], row: Row, pitch: Pitch, c: usize)
    requires room { Room lp2 page.old line.now row }
    requires c_value { (c % 8 ≡ 0) × (c < lp2.width pitch) }
    ensures { page.new ≡ blacken_all page.old (line_marks lp2 (take 8 (drop c line.now)) pitch row c) }
{
    if four(line, c) | four(line, c + 4) == 0 {
        return;
    }
    let at = page_byte(Model::Lp2, row, grid(Model::Lp2, pitch, c));
    let columns = &line[c..c + 8];
    match pitch {
        Pitch::Normal => eight::<5>(page, columns, at),
        Pitch::Compressed => eight::<3>(page, columns, at),
    }
}
