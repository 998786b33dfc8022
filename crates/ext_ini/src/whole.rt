// Whole lines: what lines that go on make.
ghost use Rattle.std.specs.Prelude.{◌≡◌, IfOk};
ghost use Rattle.ext_ini.specs.Whole.{begun, extended, with_fault};

use ext_text::{OutOfMemory, Text};
use std::alloc::Global;

/// A whole line that goes on: the number of its first line, its text so far, and the number of the first of its lines
/// that is no text, if one is none.
#[derive(Drop)]
pub(crate) struct Whole {
    pub(crate) number: u64,
    pub(crate) text: Text,
    pub(crate) fault: Option<u64>,
}

impl Whole {
    // The whole line that goes on, or else one that begins at this line.
    pub(crate) fn begun(alloc: Global, pending: Option<Whole>, number: u64) -> Whole
        ensures { result ≡ begun pending number }
    {
        match pending {
            Some(whole) => whole,
            None => Whole {
                number,
                text: Text::new(alloc),
                fault: None,
            },
        }
    }

    // With the fault of a line more, and its text at the end. Only that is copied.
    pub(crate) fn extended(self, fault: Option<u64>, more: &[u8]) -> Result<Whole, OutOfMemory>
        ensures { IfOk result (λ whole. whole ≡ extended self fault more.now) }
    {
        let mut whole = self.with_fault(fault);
        whole.text.append(more)?;
        Ok(whole)
    }

    // With the fault of a line more.
    pub(crate) fn with_fault(self, fault: Option<u64>) -> Whole
        ensures { result ≡ with_fault self fault }
    {
        let Whole {
            number,
            text,
            fault: first,
        } = self;
        let fault = first.or(fault);
        Whole {
            number,
            text,
            fault,
        }
    }
}
