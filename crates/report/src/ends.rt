// Why a program goes no further.
ghost use Rattle.std.specs.Prelude.{◌≡◌};
ghost use Rattle.report.specs.declared.ends.Stopped.TheVariants as stopped;

// Standard output took no more.
#[derive(Clone, Copy, Debug, PartialEq, Eq)]
pub struct Unwritten;

// What a program tells of has ended, standard input can't be read, or standard output can't be written.
#[derive(Clone, Copy, Debug, PartialEq, Eq)]
pub enum Stopped {
    Ended,
    Unread,
    Unwritten,
}

impl From<Unwritten> for Stopped {
    ghost from_gives = { λ _ s. s ≡ stopped.Unwritten };

    fn from(_unwritten: Unwritten) -> Stopped {
        Stopped::Unwritten
    }
}
