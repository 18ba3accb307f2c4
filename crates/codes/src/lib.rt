// What a byte is by itself: which print, which are columns in plot mode, and which go on with ESC [.
#![tactic(auto)]

ghost use Rattle.std.specs.Prelude.{◌≡◌};
ghost use Rattle.printer.specs.Alone.{prints};
ghost use Rattle.printer.specs.Brackets.{continues};
ghost use Rattle.printer.specs.Plotting.{plots};

// Whether a byte prints, outside plot mode.
#[tactic(auto, unfolding(printer::specs::Alone::prints))]
pub fn prints(b: u8) -> bool
    ensures { result ≡ prints b }
{
    matches!(b, 0x20..=0x7e)
}

// Whether a byte is by itself a column, in plot mode.
#[tactic(auto, unfolding(printer::specs::Plotting::plots))]
pub fn plots(b: u8) -> bool
    ensures { result ≡ plots b }
{
    matches!(b, 0x00..=0x7f) && b != 0x1b
}

// Whether a byte goes on with a command that ESC [ begins: a digit or a semicolon.
#[tactic(auto, unfolding(printer::specs::Brackets::continues))]
pub fn continues(b: u8) -> bool
    ensures { result ≡ continues b }
{
    matches!(b, 0x3b | 0x30..=0x39)
}
