// A run of payload.
ghost use Rattle.std.specs.Prelude.{◌≡◌, List, ℕ};
ghost use Rattle.printer.specs.Machine.{edition_of};
ghost use Rattle.printer.specs.declared.Pending.TheVariants.{Payload};
ghost use Rattle.printer.specs.Given.{machine};
ghost use Rattle.runs.specs.Runs.{fitting, given_run, loading, running};

use crate::Ran;
use commands::downloads::{loaded, stage};
use printer::{Load, Pending, Printer};

// A download of which so much is staged, in a job of so many bytes.
fn staged(p: Printer, place: u32, load: Load, job: u32, taken: usize) -> Ran
    ensures { result ≡ record { printer = loading place load job p; taken = taken } }
{
    let printer = Printer {
        job,
        pending: Pending::Payload(place, load),
        ..p
    };
    Ran { printer, taken }
}

// The payload that a piece begins with, among its first n bytes, staged as far as the download lacks it.
#[tactic(auto, using(crate::proofs::Staged::staged_out, crate::proofs::Running::runs_over))]
pub(crate) fn payload_run(
    p: Printer,
    place: u32,
    load: Load,
    piece: &[u8],
    n: usize,
    staging: &mut [u8],
) -> Ran
    requires { (p.pending ≡ Payload place load) × (n ≡ fitting p.job piece.now) }
    ensures { (font page line store : List ℕ)
        → given_run result page line staging.new store
        ≡ running (edition_of p) font piece.now (machine p page line staging.old store) }
{
    let mut l = load;
    let mut job = p.job;
    for (k, &b) in piece[..n].iter().enumerate() {
        if l.count <= l.taken {
            return staged(p, place, l, job, k);
        }
        stage(staging, l.taken, b);
        l = loaded(l, b);
        job += 1;
    }
    staged(p, place, l, job, n)
}
