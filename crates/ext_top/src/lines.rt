// The lines of a run, one after another: a command is carried out, then its reply is written, and of a refusal somebody is told.
ghost use Rattle.std.specs.Prelude.{IsTrue};
ghost use Rattle.ext_cmd.specs.Words.{IsWellFormed};
ghost use Rattle.ext_cmd.specs.Line.{may_be_line};
ghost use Rattle.ext_lines.specs.Words.{words_of};
ghost use Rattle.ext_top.specs.Applying.{PointsAs};
ghost use Rattle.ext_top.specs.Chain.{CommandRuns, RunsText, TextRuns};
ghost use Rattle.ext_top.specs.Devices.{store_side};
ghost use Rattle.ext_top.specs.Observing.{IsToldOf};

use crate::applied::Applied;
use crate::applying::apply;
use crate::observer::Observer;
use crate::replying::{write_reply, write_usage};
use crate::stop::Stop;
use ext_cmd::{CmdErr, Command, Refusal, read_line};
use ext_depot::Depot;
use ext_disk::Disk;
use ext_gen::Opened;
use ext_host::Host;
use ext_io::Sink;
use ext_lines::next_text_line;
use std::alloc::Global;

/// What a line that was done or refused leaves.
#[derive(Drop)]
pub(crate) struct Written {
    /// The generation that the store has; none where there is no store.
    pub opened: Option<Opened>,
    /// Why it was refused, if it was.
    pub refusal: Option<Refusal>,
}

/// Does one line: its command, then its reply is written, and then the observer is told, if it was refused. In a batch its number is
/// `at`.
///
/// # Errors
/// Why the run stops at this line.
pub(crate) fn do_line<K: Sink, D: Disk, P: Depot, O: Observer>(
    alloc: Global,
    at: Option<u64>,
    command: &Command,
    opened: Option<Opened>,
    sink: &mut K,
    disk: &mut D,
    depot: &mut P,
    observer: &mut O,
) -> Result<Written, Stop>
    requires line { IsTrue (may_be_line command.now) }
    requires formed { IsWellFormed command.now }
    requires points { PointsAs (D.state disk.old) opened }
    ensures runs { CommandRuns command.now opened (store_side (K.state sink.old) (D.state disk.old) (P.state depot.old)
        (O.state observer.old)) result (store_side (K.state sink.new) (D.state disk.new) (P.state depot.new) (O.state observer.new)) }
{
    let applied = apply(alloc, command, opened, disk, depot)?;
    let Applied { opened, reply } = applied;
    let refusal = write_reply(alloc, reply, sink, disk)?;
    let written = Written { opened, refusal };
    tell(at, command, &written, observer);
    Ok(written)
}

// Tells the observer of the refusal of a line, if it was refused.
fn tell<O: Observer>(at: Option<u64>, command: &Command, written: &Written, observer: &mut O)
    ensures { IsToldOf written.now.refusal (O.state observer.old) (O.state observer.new) }
{
    if let Some(refusal) = &written.refusal {
        observer.refused(at, command, refusal, host_of(&written.opened));
    }
}

// The host of a generation, if there is one.
fn host_of(opened: &Option<Opened>) -> Option<&Host> {
    match opened {
        Some(opened) => Some(opened.host()),
        None => None,
    }
}

/// Does the lines of a text from the first on, each once the one above it has ended. It goes on after a refused one, and after one
/// whose words are outside the grammar, to which it replies so.
///
/// # Errors
/// Why the run stopped at a line.
pub(crate) fn run_lines<K: Sink, D: Disk, P: Depot, O: Observer>(
    alloc: Global,
    text: &[u8],
    opened: Option<Opened>,
    sink: &mut K,
    disk: &mut D,
    depot: &mut P,
    observer: &mut O,
) -> Result<(), Stop>
    requires points { PointsAs (D.state disk.old) opened }
    ensures runs { RunsText text.now opened (store_side (K.state sink.old) (D.state disk.old) (P.state depot.old)
        (O.state observer.old)) result (store_side (K.state sink.new) (D.state disk.new) (P.state depot.new) (O.state observer.new)) }
{
    let mut rest = text;
    let mut opened = opened;
    let mut at = 0_u64;
    'lines: loop {
        let Some((line, after)) = next_text_line(rest) else {
            return Ok(());
        };
        at = at.saturating_add(1);
        opened = do_text(alloc, at, line, opened, sink, disk, depot, observer)?;
        rest = after;
    }
}

// Does the line that a text is, where it counts for one, and gives the generation that the store has then.
fn do_text<K: Sink, D: Disk, P: Depot, O: Observer>(
    alloc: Global,
    at: u64,
    text: &[u8],
    opened: Option<Opened>,
    sink: &mut K,
    disk: &mut D,
    depot: &mut P,
    observer: &mut O,
) -> Result<Option<Opened>, Stop>
    requires points { PointsAs (D.state disk.old) opened }
    ensures runs { TextRuns (words_of text.now) opened (store_side (K.state sink.old) (D.state disk.old) (P.state depot.old)
        (O.state observer.old)) result (store_side (K.state sink.new) (D.state disk.new) (P.state depot.new) (O.state observer.new)) }
{
    match read_line(alloc, text) {
        Ok(None) => Ok(opened),
        Ok(Some(command)) => {
            let at = Some(at);
            let written = do_line(alloc, at, &command, opened, sink, disk, depot, observer)?;
            Ok(written.opened)
        }
        Err(CmdErr::Usage { place }) => {
            write_usage(alloc, place, sink)?;
            Ok(opened)
        }
        Err(CmdErr::OutOfMemory) => Err(Stop::OutOfMemory),
    }
}
