// Who is told of refusals.
ghost use Rattle.std.specs.Prelude.{◌≡◌, ◌++◌, ◌∷◌, [], ℕ, List, Option, Some, OnOk};
ghost use Rattle.ext_cmd.specs.Refusals.{refusal_line};
ghost use Rattle.ext_top.specs.Observing.{IsToldOf};

use ext_cmd::{Command, Refusal, refusal_text};
use ext_host::Host;
use ext_text::{OutOfMemory, Words};
use std::alloc::Global;

/// A device that is told of each refusal. It promises nothing but that, and can't stop a run.
pub trait Observer {
    /// The lines of the refusals that it was told of, the first of them first, where it tells them.
    ghost state: { Self → Option (List (List ℕ)) };

    /// Tells it that this command was refused, so, once the refusal's line was written. Of a batch, `at` is the number of the line of its
    /// source, counted from 1, and else none. The host is the one that the store had, and none where it has none, or where the
    /// command looks at no store.
    fn refused(
        &mut self,
        at: Option<u64>,
        command: &Command,
        refusal: &Refusal,
        host: Option<&Host>,
    )
        ensures { IsToldOf (Some refusal.now) (state self.old) (state self.new) };
}

/// An observer that keeps the lines of the refusals that it is told of, and tells them as long as there was memory for each.
#[derive(Drop)]
pub struct MemoryObserver {
    alloc: Global,
    lines: Words,
    starved: bool,
}

impl MemoryObserver {
    /// One that was told of nothing.
    pub fn new(alloc: Global) -> MemoryObserver {
        MemoryObserver {
            alloc,
            lines: Words::new(alloc),
            starved: false,
        }
    }

    /// The lines of the refusals that it was told of, each with its newline; none where there was no memory for one.
    pub fn lines(&self) -> Option<&Words> {
        if self.starved {
            None
        } else {
            Some(&self.lines)
        }
    }

    // Keeps the line of a refusal.
    fn keep(&mut self, refusal: &Refusal) -> Result<(), OutOfMemory>
        ensures starved { self.new.starved ≡ self.old.starved }
        ensures lines { OnOk result (self.new.lines ≡ self.old.lines ++ refusal_line refusal.now ∷ []) }
    {
        let line = refusal_text(self.alloc, refusal)?;
        self.lines.push(line)?;
        Ok(())
    }
}

impl Observer for MemoryObserver {
    ghost use Rattle.std.specs.Prelude.{None, Some, if◌then◌else◌};

    ghost state = { λ o. if o.starved then None else Some o.lines };

    fn refused(
        &mut self,
        _at: Option<u64>,
        _command: &Command,
        refusal: &Refusal,
        _host: Option<&Host>,
    ) {
        match self.keep(refusal) {
            Ok(()) => {}
            Err(OutOfMemory) => self.starved = true,
        }
    }
}
