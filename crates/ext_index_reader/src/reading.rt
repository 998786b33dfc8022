// Reads an index line by line.
ghost use Rattle.std.specs.Prelude.{◌≡◌};
ghost use Rattle.ext_index_reader.specs.Reading.{Finishes, ReadsAll, ReadsLines};
ghost use Rattle.ext_index_reader.specs.State.{host_of, start};

use crate::err::IndexErr;
use crate::said::Said;
use crate::state::{Reading, SoFar, Stage, start};
use crate::step::read_line;
use ext_host::Host;
use ext_lines::split_line;
use std::alloc::Global;

/// What the lines of an index of a generation say.
///
/// # Errors
/// `Broken` exactly where a line may not stand where it stands, given those before it: the first such line. Where the bytes
/// stop, or stop in the middle of a line, it is the line that should stand there. Where they go on after the last line, it
/// is the next one. `OutOfMemory` may come at any time.
pub fn read_lines(alloc: Global, bytes: &[u8], generation: u32) -> Result<Said, IndexErr>
    ensures { ReadsLines generation bytes.now result }
{
    let mut reading = start(alloc);
    read_all(alloc, bytes, generation, &mut reading)?;
    Ok(said_of(reading.so_far))
}

// Reads the lines from the first one to the end. Where it fails, what was read is of no use.
fn read_all(
    alloc: Global,
    bytes: &[u8],
    generation: u32,
    reading: &mut Reading,
) -> Result<(), IndexErr>
    requires { reading.old ≡ start }
    ensures { ReadsAll generation bytes.now reading.new.so_far result }
{
    let mut rest = bytes;
    let mut line = 1;
    'lines: loop {
        match split_line(rest) {
            None => return finished(&reading.stage, rest, line),
            Some((text, after)) => {
                if !read_line(alloc, generation, reading, text)? {
                    return Err(IndexErr::Broken { line });
                }
                rest = after;
                line += 1;
            }
        }
    }
}

// Whether all was read, where no more lines follow and the next one has this number.
fn finished(stage: &Stage, rest: &[u8], line: u64) -> Result<(), IndexErr>
    ensures { Finishes stage.now rest.now line result }
{
    match stage {
        Stage::Done => {
            if !rest.is_empty() {
                return Err(IndexErr::Broken { line });
            }
            Ok(())
        }
        _ => Err(IndexErr::Broken { line }),
    }
}

// What was read, as a host.
fn said_of(so_far: SoFar) -> Said
    ensures host { result.host ≡ host_of so_far }
    ensures number { result.text ≡ so_far.text }
{
    let host = Host {
        arch: so_far.arch,
        scope: so_far.scope,
        root: so_far.host.root.into_tree(),
        lower: so_far.host.lower.into_tree(),
        sysext: so_far.host.sysext,
        confext: so_far.host.confext,
        attached: so_far.host.attached,
        kept: so_far.host.kept,
        sysext_hier: so_far.sysext_hier,
        confext_hier: so_far.confext_hier,
        past: so_far.past,
    };
    Said {
        host,
        text: so_far.text,
    }
}
