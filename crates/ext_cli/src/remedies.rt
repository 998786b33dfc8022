use crate::progress::Progress;
use crate::remedy::remedy_of;
use ext_cmd::{Command, Refusal};
use ext_host::Host;
use ext_lines::allocated;
use ext_reasons::has_value;
use ext_text::OutOfMemory;
use ext_top::Observer;
use std::io::IsTerminal;

/// Tells a person on standard error, of each refusal, what was looked for and what helps. It does where that is a terminal, or where
/// the environment asks for it, by `HOSTEXT_EXPLAIN=yes`. A fault in printing is ignored, and so is a line that finds no memory: the
/// refusal's own line tells as much.
#[derive(Drop)]
pub(crate) struct Remedies<'r> {
    rt: HostRuntime,
    progress: &'r Progress,
    // The path of the depot in the system.
    depot: &'r str,
    is_wanted: bool,
}

impl<'r> Remedies<'r> {
    /// Those of a run over this depot, beside the line that tells how far it is.
    pub(crate) fn new(rt: HostRuntime, progress: &'r Progress, depot: &'r str) -> Remedies<'r> {
        Remedies {
            rt,
            progress,
            depot,
            is_wanted: rt.stderr().is_terminal() || has_value(&rt, "HOSTEXT_EXPLAIN", "yes"),
        }
    }

    fn line(
        &self,
        at: Option<u64>,
        command: &Command,
        refusal: &Refusal,
        host: Option<&Host>,
    ) -> Result<String, OutOfMemory> {
        let remedy = remedy_of(&self.rt, command, refusal, host, self.depot)?;
        match at {
            Some(at) => allocated(format!(in self.rt.alloc(); "hostext: line {at}: {remedy}")),
            None => allocated(format!(in self.rt.alloc(); "hostext: {remedy}")),
        }
    }
}

impl<'r> Observer for Remedies<'r> {
    ghost use Rattle.std.specs.Prelude.{None};

    ghost state = { λ _. None };

    fn refused(
        &mut self,
        at: Option<u64>,
        command: &Command,
        refusal: &Refusal,
        host: Option<&Host>,
    ) {
        if !self.is_wanted {
            return;
        }
        if let Ok(line) = self.line(at, command, refusal, host) {
            self.progress.wipe();
            let _ = self.rt.eprintln(line.as_str());
        }
    }
}
