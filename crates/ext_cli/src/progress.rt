use crate::pace::Pace;
use crate::progress_line::progress_line;
use crate::tally::Tally;
use ext_reasons::has_value;
use std::cell::Cell;
use std::io::IsTerminal;
use std::time::Instant;

/// The line on standard error that tells a person how much a command has read and written so far. It is written where that is
/// a terminal, unless the environment asks for none, once the command works for more than half a second, and in place of the
/// last one, five times a second at the most: its numbers never fall, so that it covers the last one. Where none is wanted, no
/// clock is asked.
///
/// The devices of a run share it. A fault in writing it is ignored, and so is a clock that can't be read, and a line that finds
/// no memory: the command goes on without it.
#[derive(Drop)]
pub(crate) struct Progress {
    rt: HostRuntime,
    is_wanted: bool,
    // Whether replies are written to a terminal too, maybe the same one.
    has_terminal_replies: bool,
    tally: Cell<Tally>,
    // None before the first such call of a device.
    pace: Cell<Option<Pace>>,
    // How long the line is that stands there, in bytes, of which each is a column; 0 where none does.
    columns: Cell<usize>,
    // Whether a reply on the terminal stands in the middle of a line.
    is_held: Cell<bool>,
}

impl Progress {
    /// That of a command that begins.
    pub(crate) fn new(rt: HostRuntime) -> Progress {
        let is_wanted = rt.stderr().is_terminal() && !has_value(&rt, "HOSTEXT_PROGRESS", "no");
        Progress {
            rt,
            is_wanted,
            has_terminal_replies: is_wanted && rt.stdout().is_terminal(),
            tally: Cell::new(Tally::default()),
            pace: Cell::new(None),
            columns: Cell::new(0),
            is_held: Cell::new(false),
        }
    }

    /// A device read so many bytes of a file, from the byte `at` on.
    pub(crate) fn note_read(&self, at: u64, count: usize) {
        self.tally.set(self.tally.get().after_read(at, count));
    }

    /// A device made a file.
    pub(crate) fn note_making(&self) {
        self.tally.set(self.tally.get().after_making());
    }

    /// A device appended so many bytes to a file.
    pub(crate) fn note_append(&self, count: usize) {
        self.tally.set(self.tally.get().after_append(count));
    }

    /// A call of a device ended that may take its time. The line is written where one is due.
    pub(crate) fn go_on(&self) {
        if !self.is_wanted || self.is_held.get() {
            return;
        }
        if let Ok(now) = Instant::now(&self.rt) {
            self.go_on_at(now);
        }
    }

    fn go_on_at(&self, now: Instant) {
        match self.pace.get() {
            None => self.pace.set(Some(Pace::from(now))),
            Some(pace) if pace.is_due(now) => {
                self.pace.set(Some(pace.after_line(now)));
                self.show();
            }
            Some(_) => {}
        }
    }

    fn show(&self) {
        if let Ok(line) = progress_line(self.rt.alloc(), &self.tally.get()) {
            self.columns.set(line.len());
            let _ = eprint!(self.rt; "\r{line}");
        }
    }

    /// Takes the line away, so that others may be written there.
    pub(crate) fn wipe(&self) {
        let columns = self.columns.replace(0);
        if columns > 0 {
            let _ = eprint!(self.rt; "\r{:columns$}\r", "");
        }
    }

    /// A reply was written up to the end of these bytes. In the middle of a line of it none is written on the terminal.
    pub(crate) fn note_reply(&self, written: &[u8]) {
        if self.has_terminal_replies {
            self.is_held.set(!written.ends_with(b"\n"));
        }
    }
}
