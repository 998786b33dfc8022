ghost use Rattle.std.specs.Prelude.{◌≡◌, ◌↔◌, IsTrue, Some, None};
ghost use Rattle.ext_cli.specs.Pace.{IsApart, IsDue};

use std::time::Instant;

// In nanoseconds: for how long a command tells nothing, and how long two lines are apart at the least.
const PATIENCE: u128 = 500_000_000;

const PAUSE: u128 = 200_000_000;

/// When a line of progress is due.
#[derive(Clone, Copy)]
pub(crate) struct Pace {
    // When the command began to work.
    begun: Instant,
    // When the last line was written.
    shown: Option<Instant>,
}

impl Pace {
    /// That of a command that began to work at this moment.
    pub(crate) fn from(begun: Instant) -> Pace
        ensures { result ≡ record { begun = begun; shown = None } }
    {
        Pace { begun, shown: None }
    }

    /// Whether a line is due at a moment: the command works for more than half a second, and the last line, if there was one,
    /// is a fifth of a second old.
    pub(crate) fn is_due(&self, moment: Instant) -> bool
        ensures { IsTrue result ↔ IsDue self.now moment }
    {
        moment.duration_since(self.begun).as_nanos() > PATIENCE && is_apart(self.shown, moment)
    }

    /// What it is after a line that was written at this moment.
    pub(crate) fn after_line(self, moment: Instant) -> Pace
        ensures { result ≡ record self { shown = Some moment } }
    {
        Pace {
            begun: self.begun,
            shown: Some(moment),
        }
    }
}

// Whether the last line, if there was one, is old enough.
fn is_apart(shown: Option<Instant>, moment: Instant) -> bool
    ensures { IsTrue result ↔ IsApart shown moment }
{
    match shown {
        Some(shown) => moment.duration_since(shown).as_nanos() >= PAUSE,
        None => true,
    }
}
