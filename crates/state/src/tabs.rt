// The vertical tabs, each a bit of one of two words.
ghost use Rattle.std.specs.Prelude.{◌≤◌, ◌<◌, false, ◌≡◌, get_or};
ghost use Rattle.printer.specs.Tabs.{line_tabs, put_bit, tabs_through, with_tab};

use printer::TabSet;

// Whether the line that has `above` lines above it has a tab.
#[tactic(auto, using(printer::proofs::TabBits::high_tab, printer::proofs::TabBits::low_tab, printer::proofs::TabBits::past_tab, std::proofs::lemmas::Nat::Bits::shr_and_one))]
pub fn tabbed(tabs: TabSet, above: usize) -> bool
    ensures { result ≡ get_or (line_tabs tabs) above false }
{
    if above < 64 {
        return (tabs.low >> above) & 1 == 1;
    }
    if above < 128 {
        return (tabs.high >> (above - 64)) & 1 == 1;
    }
    false
}

// A word with one bit on or off.
#[tactic(auto, using(crate::proofs::Words::shifted, printer::proofs::TabBits::put_or, printer::proofs::TabBits::put_weight))]
fn put_bit(word: u64, k: usize, on: bool) -> u64
    requires { k < 64 }
    ensures { result ≡ put_bit on k word }
{
    let bit: u64 = 1 << k;
    let set = word | bit;
    if on { set } else { set - bit }
}

// The tab on or off of the line that has `above` lines above it. A line past the 128th has no place.
#[tactic(auto, unfolding(printer::specs::Tabs::with_tab))]
pub fn with_tab(tabs: TabSet, above: usize, on: bool) -> TabSet
    ensures { result ≡ with_tab on above tabs }
{
    if above < 64 {
        return TabSet {
            low: put_bit(tabs.low, above, on),
            high: tabs.high,
        };
    }
    if above < 128 {
        return TabSet {
            low: tabs.low,
            high: put_bit(tabs.high, above - 64, on),
        };
    }
    tabs
}

// The tabs of the first n lines alone.
#[tactic(auto, unfolding(printer::specs::Tabs::tabs_through))]
pub fn tabs_through(tabs: TabSet, n: usize) -> TabSet
    requires { n ≤ 112 }
    ensures { result ≡ tabs_through n tabs }
{
    let one: u64 = 1;
    if n < 64 {
        return TabSet {
            low: tabs.low % (one << n),
            high: 0,
        };
    }
    TabSet {
        low: tabs.low,
        high: tabs.high % (one << (n - 64)),
    }
}
