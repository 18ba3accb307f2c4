// The desk that a program does a job on: memory that is enough for any model, of which each call is lent what it measures.
#![tactic(auto)]

ghost use Rattle.std.specs.Prelude.{◌≡◌, ◌≤◌, ◌++◌, drop, replicate, take};
ghost use Rattle.sheet.specs.Edition.{described};
ghost use Rattle.printer.specs.declared.Printer.{Printer};
ghost use Rattle.printer.specs.Given.{machine};
ghost use Rattle.printer.specs.Machine.{edition_of};
ghost use Rattle.protocol.specs.Calls.{feeding, opening, page_due};
ghost use Rattle.protocol.specs.Given.{given_feeding, given_opening, more};
ghost use Rattle.sheet.specs.Form.{page_size};
ghost use Rattle.desk.specs.Lending.{KeepsRest, fed_on, lent, opened_on};

use job::calls;
use printer::{Memory, Printer, STORE_BYTES};
use protocol::{Fed, Opened};
use sheet::Model;
use sheet::sizes::{DG6215_LINE_NUMBERS, LONGEST_PAGE, line_numbers, page_size};

// The longest page, the longest line store and both stores.
#[derive(Drop)]
pub struct Desk {
    page: [u8; LONGEST_PAGE],
    line: [u16; DG6215_LINE_NUMBERS],
    staging: [u8; STORE_BYTES],
    store: [u8; STORE_BYTES],
}

// What a job may read of a desk between its calls: the page that is due, the model's line store, and both stores.
#[derive(Clone, Copy)]
pub struct Due<'a> {
    pub page: &'a [u8],
    pub line: &'a [u16],
    pub staging: &'a [u8],
    pub store: &'a [u8],
}

// The numbers of a model's line store.
#[tactic(auto, using(sheet::proofs::Editions::described_bounded))]
fn line_due(model: Model) -> usize
    ensures value { result ≡ (described model).columns }
    ensures upper_bound { result ≤ 6800 }
{
    line_numbers(model)
}

// Opens a job on the parts of a desk that are lent.
fn open_on(
    model: Model,
    lines: usize,
    spacing: usize,
    page: &mut [u8],
    line: &mut [u16],
    staging: &mut [u8],
    store: &mut [u8],
    font: &[u8],
) -> Opened
    ensures { (p : Printer) → given_opening result page.new line.new staging.new store.new
        ≡ opening model lines spacing font.now (machine p page.old line.old staging.old store.old) }
{
    let mut memory = Memory {
        page,
        line,
        staging,
        store,
        font,
    };
    calls::open(model, lines, spacing, &mut memory)
}

// Offers the rest of a piece on the parts of a desk that are lent.
fn offer_on(
    p: Printer,
    piece: &[u8],
    taken: usize,
    page: &mut [u8],
    line: &mut [u16],
    staging: &mut [u8],
    store: &mut [u8],
    font: &[u8],
) -> Fed
    ensures { given_feeding result page.new line.new staging.new store.new
        ≡ more taken (feeding (edition_of p) font.now (drop taken piece.now) (machine p page.old line.old staging.old store.old)) }
{
    let mut memory = Memory {
        page,
        line,
        staging,
        store,
        font,
    };
    calls::offer(p, piece, taken, &mut memory)
}

impl Desk {
    // A desk with nothing on it.
    pub fn new() -> Desk
        ensures page { result.page ≡ replicate LONGEST_PAGE 0 }
        ensures line { result.line ≡ replicate DG6215_LINE_NUMBERS 0 }
        ensures staging { result.staging ≡ replicate STORE_BYTES 0 }
        ensures store { result.store ≡ replicate STORE_BYTES 0 }
    {
        Desk {
            page: [0; LONGEST_PAGE],
            line: [0; DG6215_LINE_NUMBERS],
            staging: [0; STORE_BYTES],
            store: [0; STORE_BYTES],
        }
    }

    // Opens a job on a page of the form's size.
    pub fn open(&mut self, model: Model, lines: usize, spacing: usize, font: &[u8]) -> Opened
        ensures opened { (p : Printer) → let e = described model in let bytes = page_size e lines spacing in
            opened_on e bytes self.new result ≡ opening model lines spacing font.now (lent e bytes self.old p) }
        ensures rest { let e = described model in KeepsRest e (page_size e lines spacing) self.old self.new }
    {
        let size = page_size(model, lines, spacing);
        let numbers = line_due(model);
        let Desk {
            page,
            line,
            staging,
            store,
        } = self;
        let (page, _) = page.split_at_mut(size);
        let (line, _) = line.split_at_mut(numbers);
        open_on(model, lines, spacing, page, line, staging, store, font)
    }

    // Offers the rest of a piece on the page that is due.
    pub fn offer(&mut self, p: Printer, piece: &[u8], taken: usize, font: &[u8]) -> Fed
        ensures fed { let e = edition_of p in let bytes = page_due e p in
            fed_on e bytes self.new result ≡ more taken (feeding e font.now (drop taken piece.now) (lent e bytes self.old p)) }
        ensures rest { let e = edition_of p in KeepsRest e (page_due e p) self.old self.new }
    {
        let size = calls::page_due(p);
        let numbers = line_due(p.model);
        let Desk {
            page,
            line,
            staging,
            store,
        } = self;
        let (page, _) = page.split_at_mut(size);
        let (line, _) = line.split_at_mut(numbers);
        offer_on(p, piece, taken, page, line, staging, store, font)
    }

    // Lends a blank page of the size that is due.
    pub fn blank_due(&mut self, p: Printer)
        ensures { let bytes = page_due (edition_of p) p in
            self.new ≡ record self.old { page = replicate bytes 0 ++ drop bytes self.old.page } }
    {
        let size = calls::page_due(p);
        self.page[..size].fill(0);
    }

    // The parts that are due.
    pub fn due(&self, p: Printer) -> Due<'_>
        ensures page { result.page.now ≡ take (page_due (edition_of p) p) self.now.page }
        ensures line { result.line.now ≡ take (edition_of p).columns self.now.line }
        ensures staging { result.staging.now ≡ self.now.staging }
        ensures store { result.store.now ≡ self.now.store }
    {
        let size = calls::page_due(p);
        let numbers = line_due(p.model);
        Due {
            page: &self.page[..size],
            line: &self.line[..numbers],
            staging: &self.staging,
            store: &self.store,
        }
    }
}
