// The run of `sample`: six commands over a made depot, on a disk in memory.
ghost use Rattle.std.specs.Prelude.{◌≡◌, ◌≤◌, ◌<◌, ◌^◌, None, Some, IfOk, Ok};
ghost use Rattle.ext_cmd.specs.Line.{IsLineCommand, ReadsLineCommand};
ghost use Rattle.ext_depot.specs.DepotView.{file_at};
ghost use Rattle.ext_disk.specs.Disk.{now};
ghost use Rattle.ext_disk.specs.Memory.{places_of};
ghost use Rattle.ext_gen.specs.Store.{Points};
ghost use Rattle.ext_host.specs.Valid.{all_bytes};
ghost use Rattle.ext_intents.specs.Check.{files_in};
ghost use Rattle.ext_intents.specs.declared.intent.Intent.TheVariants.{Answers};
ghost use Rattle.ext_lines.specs.Words.{words_of};
ghost use Rattle.ext_sample.specs.Sample.{most_images};
ghost use Rattle.ext_top.specs.Sample.{SampleWants, sample_lines};
ghost use Rattle.ext_top.specs.Sampling.{Carries, CarriesLine, IsSampleOf, WritesSample};

use crate::alone::write_intent;
use crate::applying::apply;
use crate::status::Status;
use ext_cmd::{Answer, CmdErr, Command, read_line};
use ext_depot::MemoryDepot;
use ext_disk::MemoryDisk;
use ext_gen::Opened;
use ext_host::{Held, bytes_of, stamps};
use ext_intents::Intent;
use ext_io::{Calls, Sink};
use ext_sample::sample_depot;
use ext_text::{Digest, OutOfMemory, Path};
use ext_tree::{Entry, Tree, write_tree};
use std::alloc::Global;

/// The run of `sample`, which looks at no store: it makes a depot and a disk of its own.
pub(crate) fn run_sample<K: Sink>(alloc: Global, images: u32, sink: &mut K) -> Status
    requires { images ≤ most_images }
    ensures writes { WritesSample images (K.state sink.old) (K.state sink.new) result }
    ensures count { (K.state sink.old).faults ≤ (K.state sink.new).faults }
{
    match sample_answer(alloc, images) {
        Ok(answer) => write_intent(alloc, Intent::Answers(answer), sink),
        Err(OutOfMemory) => Status::OutOfMemory,
    }
}

// What the tree comes to that is seen after the commands.
fn sample_answer(alloc: Global, images: u32) -> Result<Answer, OutOfMemory>
    requires { images ≤ most_images }
    ensures { IfOk result (λ answer. SampleWants images (Answers answer)) }
{
    let mut depot = sample_depot(alloc, images)?;
    let mut disk = MemoryDisk::new(alloc, Calls::new(alloc), None);
    match carry_lines(alloc, &mut disk, &mut depot)? {
        None => tree_sample(alloc, &Tree::new(alloc)),
        Some(opened) => tree_sample(alloc, &opened.host().root),
    }
}

// Carries out the commands one after another, a refused one like the others, where there is no store, and gives the generation that
// the store has then.
fn carry_lines(
    alloc: Global,
    disk: &mut MemoryDisk,
    depot: &mut MemoryDepot,
) -> Result<Option<Opened>, OutOfMemory>
    requires { Points (now (places_of disk.old)) None }
    ensures { IfOk result (λ after. Carries sample_lines (Some (file_at depot.old)) None after (places_of disk.old) (places_of disk.new)) }
{
    let made = carry_line(alloc, b"init x86-64 system", None, disk, depot)?;
    let host = carry_line(alloc, b"import-fs host /", made, disk, depot)?;
    let images = carry_line(
        alloc,
        b"import-fs images /var/lib/extensions",
        host,
        disk,
        depot,
    )?;
    let merged = carry_line(alloc, b"sysext merge", images, disk, depot)?;
    let unmerged = carry_line(alloc, b"sysext unmerge", merged, disk, depot)?;
    carry_line(alloc, b"sysext refresh", unmerged, disk, depot)
}

// Carries out the command of a line on what the lines before it left. Devices in memory fail for want of memory alone.
fn carry_line(
    alloc: Global,
    line: &[u8],
    opened: Option<Opened>,
    disk: &mut MemoryDisk,
    depot: &mut MemoryDepot,
) -> Result<Option<Opened>, OutOfMemory>
    requires command { IsLineCommand (words_of line.now) }
    requires points { Points (now (places_of disk.old)) opened }
    ensures points { IfOk result (λ after. Points (now (places_of disk.new)) after) }
    ensures kept { IfOk result (λ after. Some (file_at depot.new) ≡ Some (file_at depot.old)) }
    ensures carried { IfOk result (λ after. CarriesLine (words_of line.now) (Some (file_at depot.old)) opened after
        (places_of disk.old) (places_of disk.new)) }
{
    let command = command_of(alloc, line)?;
    match apply(alloc, &command, opened, disk, depot) {
        Ok(applied) => Ok(applied.opened),
        Err(_failed) => Err(OutOfMemory),
    }
}

// The command of a line that has one.
fn command_of(alloc: Global, line: &[u8]) -> Result<Command, OutOfMemory>
    requires { IsLineCommand (words_of line.now) }
    ensures { IfOk result (λ command. ReadsLineCommand (words_of line.now) (Ok command)) }
{
    match read_line(alloc, line) {
        Ok(Some(command)) => Ok(command),
        Ok(None) => unreachable!(),
        Err(CmdErr::Usage { .. }) => unreachable!(),
        Err(CmdErr::OutOfMemory) => Err(OutOfMemory),
    }
}

// What a tree comes to.
fn tree_sample(alloc: Global, tree: &Tree<Held>) -> Result<Answer, OutOfMemory>
    requires { all_bytes tree.now < 2 ^ 64 }
    ensures { IfOk result (IsSampleOf tree.now) }
{
    let text = write_tree(alloc, &stamps(alloc, tree)?)?;
    Ok(Answer::Sample {
        entries: tree.entries(),
        files: files_in(tree.pairs()),
        bytes: all_bytes(tree.pairs()),
        digest: Digest::of(text.bytes()),
    })
}

// How many files there are.
fn files_in(pairs: &[(Path, Entry<Held>)]) -> u64
    ensures { result ≡ files_in pairs.now }
{
    let mut files = 0;
    'pairs: for pair in pairs {
        if pair.1.is_file() {
            files += 1;
        }
    }
    files
}

// The bytes of all files.
fn all_bytes(pairs: &[(Path, Entry<Held>)]) -> u64
    requires { all_bytes pairs.now < 2 ^ 64 }
    ensures { result ≡ all_bytes pairs.now }
{
    let mut bytes = 0;
    'pairs: for pair in pairs {
        bytes += bytes_of(&pair.1);
    }
    bytes
}
