// The run that a piece begins with.
ghost use Rattle.std.specs.Prelude.{◌≡◌, List, ℕ, ◌-◌};
ghost use Rattle.printer.specs.declared.Pending.TheVariants.{Nothing};
ghost use Rattle.printer.specs.Given.{machine};
ghost use Rattle.printer.specs.Room.{Writable};
ghost use Rattle.printer.specs.Machine.{edition_of, limit};
ghost use Rattle.runs.specs.Runs.{fitting, given_run, running};

use crate::Ran;
use crate::payload::payload_run;
use crate::plots::plot_run;
use crate::text::text_run;
use printer::{JOB_LIMIT, Pending, Printer};

// No run: the first byte of the piece is for a step of its own.
fn none(p: Printer) -> Ran
    ensures { result ≡ record { printer = p; taken = 0 } }
{
    Ran {
        printer: p,
        taken: 0,
    }
}

// How many more bytes the job can have.
fn room(job: u32) -> usize
    ensures { result ≡ limit - job }
{
    (JOB_LIMIT - job) as usize
}

// How many bytes of a piece fit the job.
fn fitting(job: u32, piece: &[u8]) -> usize
    ensures { result ≡ fitting job piece.now }
{
    let most = room(job);
    if piece.len() < most {
        piece.len()
    } else {
        most
    }
}

// With nothing pending: columns in plot mode, characters outside it, and none on a plot line that plot mode has left.
#[tactic(auto, using(crate::proofs::Running::between), unfolding(crate::specs::Runs::goes_on))]
fn plain_run(p: Printer, piece: &[u8], n: usize, line: &mut [u16], store: &[u8], font: &[u8]) -> Ran
    requires { (p.pending ≡ Nothing) × Writable (edition_of p) p line.old store.now font.now × (n ≡ fitting p.job piece.now) }
    ensures { (page staging : List ℕ)
        → given_run result page line.new staging store.now
        ≡ running (edition_of p) font.now piece.now (machine p page line.old staging store.now) }
{
    if p.head.plotting {
        return plot_run(p, piece, n, line);
    }
    if p.head.plotted {
        return none(p);
    }
    text_run(p, piece, n, line, store, font)
}

// The run that a piece begins with, by what is pending.
#[tactic(auto, using(crate::proofs::Running::between, crate::proofs::Running::half_command))]
pub fn run(
    p: Printer,
    piece: &[u8],
    line: &mut [u16],
    staging: &mut [u8],
    store: &[u8],
    font: &[u8],
) -> Ran
    requires { Writable (edition_of p) p line.old store.now font.now }
    ensures { (page : List ℕ)
        → given_run result page line.new staging.new store.now
        ≡ running (edition_of p) font.now piece.now (machine p page line.old staging.old store.now) }
{
    let n = fitting(p.job, piece);
    match p.pending {
        Pending::Nothing => plain_run(p, piece, n, line, store, font),
        Pending::Payload(place, load) => payload_run(p, place, load, piece, n, staging),
        _ => none(p),
    }
}
