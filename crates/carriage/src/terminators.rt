// The line terminators.
ghost use Rattle.std.specs.Prelude.{◌≡◌, cond, List, ℕ, ◌+◌, ◌≤◌, drop, take};
ghost use Rattle.sheet.specs.Form.{line, rows_per_line};
ghost use Rattle.printer.specs.Given.{given, machine};
ghost use Rattle.printer.specs.Machine.{edition_of};
ghost use Rattle.printer.specs.Room.{Kept, Strikable};
ghost use Rattle.printer.specs.Steps.{finished, quiet};
ghost use Rattle.printer.specs.Tabs.{line_tabs};
ghost use Rattle.printer.specs.Terminators.{carriage_return, first_tab, form_feed, newline, strike, tab_to, vertical_tab};

use printer::{Printer, Stepped, TabSet};
use sheet::counts::{line, lines_above, lines_through};
use sheet::sizes::{first_row, fits, line_of, lower, rows_per_line, top_row};
use sheet::{Line, Row};
use state::parts::{finished, fresh, quiet};
use state::tabs::tabbed;
use striking::strike;

// Strikes the line in progress at the current row; the head goes to a fresh line at row `next`.
#[tactic(auto, using(crate::proofs::Rooms::rows_on_page), unfolding(printer::specs::Terminators::strike))]
fn line_done(p: Printer, next: Row, page: &mut [u8], line: &mut [u16]) -> Stepped
    requires { Strikable (edition_of p) p page.old line.old }
    ensures { (staging store : List ℕ)
        → given result page.new line.new staging store
        ≡ quiet (strike (edition_of p) next (machine p page.old line.old staging store)) }
{
    let model = p.model;
    let row = p.head.row;
    let style = p.style;
    let pitch = style.pitch;
    strike(model, page, line, row, pitch);
    quiet(fresh(p, next))
}

// The same, and with it the form is finished: row `next` is on the form that follows.
fn form_done(p: Printer, next: Row, page: &mut [u8], line: &mut [u16]) -> Stepped
    requires { Strikable (edition_of p) p page.old line.old }
    ensures { (staging store : List ℕ)
        → given result page.new line.new staging store
        ≡ finished (strike (edition_of p) next (machine p page.old line.old staging store)) }
{
    let s = line_done(p, next, page, line);
    let after = s.printer;
    finished(after)
}

// The rows that a newline moves down.
#[tactic(auto, using(sheet::proofs::Units::twelve_rows))]
fn advance(p: Printer) -> usize
    ensures { (result ≡ cond p.head.plotted 7 (rows_per_line p.form.spacing)) × (result ≤ 12) }
{
    if p.head.plotted {
        7
    } else {
        let form = p.form;
        rows_per_line(form.spacing)
    }
}

// 0A.
#[tactic(auto, using(crate::proofs::Rooms::row_bound, state::proofs::Forms::bottom_bounded), unfolding(printer::specs::Terminators::newline))]
pub fn newline(p: Printer, page: &mut [u8], line: &mut [u16]) -> Stepped
    requires { Strikable (edition_of p) p page.old line.old }
    ensures { (staging store : List ℕ)
        → given result page.new line.new staging store
        ≡ newline (edition_of p) (machine p page.old line.old staging store) }
{
    let form = p.form;
    let row = p.head.row;
    let next = lower(row, advance(p));
    if fits(form, next) {
        line_done(p, next, page, line)
    } else {
        form_done(p, top_row(form), page, line)
    }
}

// 0C.
#[tactic(auto, using(state::proofs::Forms::top_bounded), unfolding(printer::specs::Terminators::form_feed))]
pub fn form_feed(p: Printer, page: &mut [u8], line: &mut [u16]) -> Stepped
    requires { Strikable (edition_of p) p page.old line.old }
    ensures { (staging store : List ℕ)
        → given result page.new line.new staging store
        ≡ form_feed (edition_of p) (machine p page.old line.old staging store) }
{
    let form = p.form;
    form_done(p, top_row(form), page, line)
}

// 0D.
#[tactic(auto, unfolding(printer::specs::Terminators::carriage_return))]
pub fn carriage_return(p: Printer, page: &mut [u8], line: &mut [u16]) -> Stepped
    requires { Strikable (edition_of p) p page.old line.old }
    ensures { (staging store : List ℕ)
        → given result page.new line.new staging store
        ≡ carriage_return (edition_of p) (machine p page.old line.old staging store) }
{
    let row = p.head.row;
    line_done(p, row, page, line)
}

// The first tabbed line of those below the first `above`, down to line `last`.
#[tactic(auto, using(crate::proofs::TabsBelow::found, crate::proofs::TabsBelow::passed_by, crate::proofs::TabsBelow::none_below))]
fn first_tab(tabs: TabSet, above: usize, last: usize) -> Option<Line>
    requires { (above ≤ 2000) × (last ≤ 128) }
    ensures { (result ≡ first_tab (line (above + 1)) (drop above (take last (line_tabs tabs)))) × Kept result }
{
    for i in above..last {
        if tabbed(tabs, i) {
            return Some(line(i + 1));
        }
    }
    None
}

// To the tabbed line below, to the lowest-numbered on the next form, or nowhere.
#[tactic(auto, unfolding(printer::specs::Terminators::tab_to))]
fn tab_to(
    p: Printer,
    below: Option<Line>,
    lowest: Option<Line>,
    page: &mut [u8],
    line: &mut [u16],
) -> Stepped
    requires { Strikable (edition_of p) p page.old line.old × Kept below × Kept lowest }
    ensures { (staging store : List ℕ)
        → given result page.new line.new staging store
        ≡ tab_to (edition_of p) below lowest (machine p page.old line.old staging store) }
{
    let form = p.form;
    match below {
        Some(n) => line_done(p, first_row(form, n), page, line),
        None => match lowest {
            Some(n) => form_done(p, first_row(form, n), page, line),
            None => carriage_return(p, page, line),
        },
    }
}

// 0B.
#[tactic(auto, using(state::proofs::Forms::bottom_bounded, crate::proofs::Rooms::line_bound), unfolding(printer::specs::Terminators::vertical_tab))]
pub fn vertical_tab(p: Printer, page: &mut [u8], line: &mut [u16]) -> Stepped
    requires { Strikable (edition_of p) p page.old line.old }
    ensures { (staging store : List ℕ)
        → given result page.new line.new staging store
        ≡ vertical_tab (edition_of p) (machine p page.old line.old staging store) }
{
    let form = p.form;
    let row = p.head.row;
    let top = form.top;
    let bottom = form.bottom;
    let last = lines_through(bottom);
    let below = first_tab(p.tabs, lines_through(line_of(form, row)), last);
    let lowest = first_tab(p.tabs, lines_above(top), last);
    tab_to(p, below, lowest, page, line)
}
