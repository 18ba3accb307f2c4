// Runs the edges of the library's calls: performs each case of the table that comes on standard input, and writes a line for each. Document 01, "What a call
// gives back". The table's head says how it is written.
#![tactic(auto)]

ghost use Rattle.std.specs.Prelude.{◌≤◌, length};

use memory::Space;
use report::{Unwritten, say, unread};
use std::io::Read;
use walk::walk;

mod case;
mod lines;
mod memory;
mod perform;
mod setting;
mod walk;

// The bytes that hold a table, and one more.
const TABLE_SPACE: usize = 65536;

// Performs a table, or says that it fills its store, and may be longer.
fn perform_table(
    rt: &(impl Print + Eprint),
    table: &[u8],
    space: &mut Space,
) -> Result<(), Unwritten> {
    if table.len() < TABLE_SPACE {
        walk(rt, table, space)
    } else {
        say(rt, b"EDGE table too long\n")
    }
}

// Reads until the bytes are full, the input ends or can't be read, and answers how many bytes came.
fn read_full(input: &mut impl Read, bytes: &mut [u8]) -> usize
    ensures { result ≤ length bytes.new }
{
    let mut done = 0;
    while let Ok(more @ 1..) = input.read(&mut bytes[done..]) {
        done += more;
    }
    done
}

// Reads the table whole, and performs it. Where it can't be written, that is told already.
fn main(rt: HostRuntime) {
    let mut table = [0u8; TABLE_SPACE];
    let count = read_full(&mut rt.stdin(), &mut table);
    if count == 0 {
        unread(&rt);
    }
    let _ = perform_table(&rt, &table[..count], &mut Space::new());
}
