// Downloads: the payload staged as it comes, and the checksum byte, at which it is tested and stored.
ghost use Rattle.std.specs.Prelude.{◌≡◌, ℕ, ◌+◌, ◌<◌, ◌≤◌, List, ◌++◌, length, take, drop, slice_set};
ghost use Rattle.printer.specs.Bytes.{loaded, payload_byte};
ghost use Rattle.printer.specs.Downloads.{download, out_of_range, replaced};
ghost use Rattle.printer.specs.Given.{given, machine};
ghost use Rattle.printer.specs.Machine.{store_size};

use glyph::words::all_well_formed;
use printer::{Fault, Load, Pending, Printer, Stepped};
use state::parts::{noted, quiet, with_pending};

// Stages payload byte k, where the staging store has room for it.
pub fn stage(staging: &mut [u8], k: u16, b: u8)
    ensures { staging.new ≡ slice_set staging.old k b }
{
    let i = usize::from(k);
    if i < staging.len() {
        staging[i] = b;
    }
}

// The download with one payload byte more. Its sum wraps, as the rule's does modulo 256.
pub fn loaded(l: Load, b: u8) -> Load
    requires { l.taken < l.count }
    ensures { result ≡ loaded l b }
{
    Load {
        taken: l.taken + 1,
        sum: l.sum.wrapping_add(b),
        ..l
    }
}

// Copies the first n bytes of `from` over the first n of `to`. By a loop, so that the library for C needs no copier from outside.
fn copy(to: &mut [u8], from: &[u8], n: usize)
    requires { (n ≤ length to.old) × (n ≤ length from.now) }
    ensures { to.new ≡ take n from.now ++ drop n to.old }
{
    for i in 0..n {
        to[i] = from[i];
    }
}

// Puts the first n staged bytes into the download store from byte `at` on.
fn replace(store: &mut [u8], staging: &[u8], at: usize, n: usize)
    requires { (at + n ≤ length store.old) × (n ≤ length staging.now) }
    ensures { store.new ≡ replaced at n staging.now store.old }
{
    copy(&mut store[at..], staging, n);
}

// The addresses of the download store: its first, and the one past its last.
const FIRST_ADDRESS: usize = 2048;

const PAST_ADDRESS: usize = 4096;

// The payload is not whole glyphs within the download store, or there is none.
#[tactic(auto, unfolding(printer::specs::Downloads::out_of_range))]
fn out_of_range(count: u16, address: u16) -> bool
    ensures { result ≡ out_of_range count address }
{
    let first = address as usize;
    if first < FIRST_ADDRESS {
        return true;
    }
    let end = first + (count as usize);
    if PAST_ADDRESS < end {
        return true;
    }
    if count == 0 {
        return true;
    }
    if count % 16 != 0 {
        return true;
    }
    address % 16 != 0
}

// The checksum byte.
#[tactic(auto, using(printer::proofs::StaysSound::in_range), unfolding(printer::specs::Downloads::download))]
fn download(
    p: Printer,
    l: Load,
    checksum: u8,
    place: u32,
    staging: &[u8],
    store: &mut [u8],
) -> Stepped
    requires { (length staging.now ≡ store_size) × (length store.old ≡ store_size) }
    ensures { (page line : List ℕ) → given result page line staging.now store.new
        ≡ download l.count l.address l.sum checksum place (machine p page line staging.now store.old) }
{
    if l.sum.wrapping_add(checksum) != 0 {
        return noted(p, Fault::Checksum, place);
    }
    if out_of_range(l.count, l.address) {
        return noted(p, Fault::DownloadRange, place);
    }
    let n = l.count as usize;
    if !all_well_formed(staging, n / 16) {
        return noted(p, Fault::IllFormed, place);
    }
    let at = (l.address as usize) - FIRST_ADDRESS;
    replace(store, staging, at, n);
    quiet(p)
}

// A payload byte, or the checksum once all of the payload is there.
#[tactic(auto, unfolding(printer::specs::Bytes::payload_byte))]
pub fn payload_byte(
    p: Printer,
    l: Load,
    b: u8,
    place: u32,
    staging: &mut [u8],
    store: &mut [u8],
) -> Stepped
    requires { (length staging.old ≡ store_size) × (length store.old ≡ store_size) }
    ensures { (page line : List ℕ) → given result page line staging.new store.new
        ≡ payload_byte l b place (machine p page line staging.old store.old) }
{
    if l.taken < l.count {
        let k = l.taken;
        stage(staging, k, b);
        quiet(with_pending(p, Pending::Payload(place, loaded(l, b))))
    } else {
        let q = with_pending(p, Pending::Nothing);
        download(q, l, b, place, staging, store)
    }
}
