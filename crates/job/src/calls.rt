// Opening, feeding and closing a job. Each call takes whatever it is handed, and refuses by number what doesn't fit.
ghost use Rattle.std.specs.Prelude.{◌≡◌, ◌≤◌, drop, length};
ghost use Rattle.sheet.specs.declared.Form.{Form};
ghost use Rattle.sheet.specs.Edition.{described, longest_page};
ghost use Rattle.sheet.specs.Form.{TopFits};
ghost use Rattle.printer.specs.declared.Printer.{Printer};
ghost use Rattle.printer.specs.Closing.{closing};
ghost use Rattle.printer.specs.Given.{LentOn, machine_in};
ghost use Rattle.printer.specs.Machine.{edition_of, opened, store_size};
ghost use Rattle.printer.specs.Room.{Ready, SizedIn};
ghost use Rattle.protocol.specs.Calls.{feeding, opening, page_due, take_bytes};
ghost use Rattle.protocol.specs.Given.{feeding_in, more, opening_in};

use answers::{admit, answer_to, counted, fit, given, is_quiet, new_printer, unopened};
use printer::{Closing, JOB_LIMIT, Memory, Printer};
use protocol::numbers::refusal;
use protocol::{Answer, Fed, Opened};
use reader::step;
use runs::run;
use sheet::sizes::{new_form, page_bytes};
use sheet::{Form, Model};
use state::{closing, form_sound, rest_sound, sound};

// Zeroes the page and the stores, and starts a job of a form.
#[tactic(auto, using(sheet::proofs::Emptying::line_emptied, sheet::proofs::Emptying::page_emptied, printer::proofs::Ready::store_emptied))]
fn start(model: Model, form: Form, memory: &mut Memory<'_>) -> Opened
    requires top { TopFits form }
    requires sized { SizedIn model form memory.old }
    ensures opened { opening_in result memory.new
        ≡ record { answer = Answer.Done; machine = opened model form } }
    ensures lent { LentOn memory.old memory.new }
{
    memory.page.fill(0);
    memory.line.fill(0);
    memory.staging.fill(0);
    memory.store.fill(0);
    Opened {
        printer: new_printer(model, form),
        answer: Answer::Done,
    }
}

// Opens a job.
#[tactic(auto, using(protocol::proofs::Ways::open_refused, protocol::proofs::Ways::open_admitted))]
pub fn open(model: Model, lines: usize, spacing: usize, memory: &mut Memory<'_>) -> Opened
    ensures opened { (p : Printer) → opening_in result memory.new
        ≡ opening model lines spacing memory.old.font.now (machine_in p memory.old) }
    ensures lent { LentOn memory.old memory.new }
{
    let font = memory.font;
    let answer = admit(
        model,
        lines,
        spacing,
        &mut *memory.page,
        &mut *memory.line,
        &mut *memory.staging,
        &mut *memory.store,
        font,
    );
    if refusal(answer) {
        return unopened(model, answer);
    }
    start(model, new_form(lines, spacing), memory)
}

// Takes the bytes of a piece, up to one that has something to tell, or to the job's limit: runs of like bytes at one go, every other byte by a step.
fn take_bytes(p: Printer, piece: &[u8], memory: &mut Memory<'_>) -> Fed
    requires { Ready (edition_of p) (machine_in p memory.old) × (length memory.old.font.now ≡ store_size) }
    ensures fed { feeding_in result memory.new
        ≡ take_bytes (edition_of p) memory.old.font.now piece.now (machine_in p memory.old) }
    ensures lent { LentOn memory.old memory.new }
{
    let mut q = p;
    let mut i = 0;
    while i < piece.len() {
        let font = memory.font;
        let ran = run(
            q,
            &piece[i..],
            &mut *memory.line,
            &mut *memory.staging,
            &mut *memory.store,
            font,
        );
        let after = ran.printer;
        let at = i + ran.taken;
        if at == piece.len() {
            return given(after, Answer::Done, at);
        }
        if after.job == JOB_LIMIT {
            return given(after, Answer::JobFull, at);
        }
        let s = step(after, piece[at], memory);
        if !is_quiet(s.event) {
            return answer_to(s, at);
        }
        q = s.printer;
        i = at + 1;
    }
    given(q, Answer::Done, i)
}

// Feeds a piece of the job.
#[tactic(auto, using(protocol::proofs::Ways::feed_misfit), unfolding(protocol::specs::Calls::feeding, printer::specs::Sound::sound, printer::specs::Sound::form_sound, sheet::specs::Form::lines_allowed, sheet::specs::Edition::lp2, sheet::specs::Edition::dg6215))]
pub fn feed(p: Printer, piece: &[u8], memory: &mut Memory<'_>) -> Fed
    ensures fed { feeding_in result memory.new
        ≡ feeding (edition_of p) memory.old.font.now piece.now (machine_in p memory.old) }
    ensures lent { LentOn memory.old memory.new }
{
    // In two parts, each small enough to be compiled into the call.
    if !form_sound(p.model, p.form) {
        return given(p, Answer::Unsound, 0);
    }
    if !rest_sound(p) {
        return given(p, Answer::Unsound, 0);
    }
    let font = memory.font;
    match fit(
        p.model,
        p.form,
        &mut *memory.page,
        &mut *memory.line,
        &mut *memory.staging,
        &mut *memory.store,
        font,
    ) {
        Err(lent) => given(p, Answer::Misfit(lent), 0),
        Ok(()) => take_bytes(p, piece, memory),
    }
}

// Offers the rest of a piece of which so many bytes were taken; the count that comes back is the piece's. Of a count past the piece's end the rest is empty.
#[tactic(auto, using(crate::proofs::Offering::rest_fits, crate::proofs::Offering::none_taken))]
pub fn offer(p: Printer, piece: &[u8], taken: usize, memory: &mut Memory<'_>) -> Fed
    ensures fed { feeding_in result memory.new
        ≡ more taken (feeding (edition_of p) memory.old.font.now (drop taken piece.now) (machine_in p memory.old)) }
    ensures lent { LentOn memory.old memory.new }
{
    if taken < piece.len() {
        let f = feed(p, &piece[taken..], memory);
        return counted(f, taken);
    }
    let f = feed(p, &[], memory);
    counted(f, taken)
}

// The bytes of the page that the next feeding takes, 0 where the state is unsound.
#[tactic(auto, using(printer::proofs::Soundness::sound_facts, sheet::proofs::Editions::described_bounded), unfolding(protocol::specs::Calls::page_due, printer::specs::Sound::sound, printer::specs::Sound::form_sound, sheet::specs::Form::lines_allowed, sheet::specs::Edition::lp2, sheet::specs::Edition::dg6215, sheet::specs::Form::page_bytes, sheet::specs::Form::form_rows, sheet::specs::Form::rows_per_line))]
pub fn page_due(p: Printer) -> usize
    ensures value { result ≡ page_due (edition_of p) p }
    ensures upper_bound { result ≤ longest_page }
{
    if !sound(p) {
        return 0;
    }
    page_bytes(p.model, p.form)
}

// Closes a job.
pub fn close(p: Printer) -> Closing
    ensures { result ≡ closing (edition_of p) p }
{
    closing(p)
}
