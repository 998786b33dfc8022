// What is read after a line.
ghost use Rattle.std.specs.Prelude.{IfOk};
ghost use Rattle.ext_index_reader.specs.Reading.{LeadsTo, Reads};
ghost use Rattle.ext_index_reader.specs.State.{at, at_part};

use crate::attachment_lines::{added_line, attachment_line, image_line, kept_line, place_line};
use crate::machine_lines::{header_line, hierarchies_line, hierarchy_line, machine_line};
use crate::manifest_lines::{item_line, manifest_line, root_line};
use crate::merged_lines::{
    attached_line, confext_line, confext_name_line, sysext_line, sysext_name_line,
};
use crate::past_lines::{end_line, generation_line, past_line};
use crate::state::{PartStage, Reading, SoFar, Stage};
use crate::tree_lines::{add_lower, add_root, lower_entry_line, lower_line, root_entry_line};
use ext_lines::OutOfMemory;
use std::alloc::Global;
use std::mem;

/// Reads a line, and says whether it may stand next. Where it may not, or there was no memory, what was read is of no
/// use.
///
/// Most lines are those of entries after which others follow: such an entry is added where it is, and what was read stays
/// there.
pub(crate) fn read_line(
    alloc: Global,
    generation: u32,
    reading: &mut Reading,
    line: &[u8],
) -> Result<bool, OutOfMemory>
    ensures { IfOk result (Reads generation reading.old reading.new line.now) }
{
    match reading.stage {
        Stage::Part(PartStage::RootEntry { more }) => {
            if more == 0 {
                return read_last(alloc, generation, reading, line);
            }
            reading.stage = Stage::Part(PartStage::RootEntry { more: more - 1 });
            add_root(alloc, generation, &mut reading.so_far, line)
        }
        Stage::Part(PartStage::LowerEntry { more }) => {
            if more == 0 {
                return read_last(alloc, generation, reading, line);
            }
            reading.stage = Stage::Part(PartStage::LowerEntry { more: more - 1 });
            add_lower(alloc, generation, &mut reading.so_far, line)
        }
        _ => read_last(alloc, generation, reading, line),
    }
}

// Reads a line after which another stage may begin.
fn read_last(
    alloc: Global,
    generation: u32,
    reading: &mut Reading,
    line: &[u8],
) -> Result<bool, OutOfMemory>
    ensures { IfOk result (Reads generation reading.old reading.new line.now) }
{
    let stage = mem::replace(&mut reading.stage, Stage::Done);
    match step(alloc, generation, &mut reading.so_far, stage, line)? {
        None => Ok(false),
        Some(next) => {
            reading.stage = next;
            Ok(true)
        }
    }
}

// What stands next after a line, which is read into what was read before; `None` where it may not stand next.
fn step(
    alloc: Global,
    generation: u32,
    so_far: &mut SoFar,
    stage: Stage,
    line: &[u8],
) -> Result<Option<Stage>, OutOfMemory>
    ensures { IfOk result (LeadsTo generation (at so_far.old stage) so_far.new line.now) }
{
    match stage {
        Stage::Header => Ok(header_line(so_far, line)),
        Stage::Machine => machine_line(alloc, so_far, line),
        Stage::Hierarchies => Ok(hierarchies_line(line)),
        Stage::Hierarchy { more } => hierarchy_line(alloc, so_far, more, line),
        Stage::Part(part) => part_step(alloc, generation, so_far, part, line),
        Stage::Past => Ok(past_line(line)),
        Stage::Generation { more } => Ok(generation_line(generation, so_far, more, line)),
        Stage::End => Ok(end_line(line)),
        Stage::Done => Ok(None),
    }
}

// What stands next after a line of the parts.
fn part_step(
    alloc: Global,
    generation: u32,
    so_far: &mut SoFar,
    part: PartStage,
    line: &[u8],
) -> Result<Option<Stage>, OutOfMemory>
    ensures { IfOk result (LeadsTo generation (at_part so_far.old part) so_far.new line.now) }
{
    match part {
        PartStage::Sysext => Ok(sysext_line(alloc, so_far, line)),
        PartStage::SysextName { more, names } => {
            sysext_name_line(alloc, so_far, more, names, line)
        }
        PartStage::Confext => Ok(confext_line(alloc, so_far, line)),
        PartStage::ConfextName { more, names } => {
            confext_name_line(alloc, so_far, more, names, line)
        }
        PartStage::Attached => Ok(attached_line(line)),
        PartStage::Attachment { more } => Ok(attachment_line(more, line)),
        PartStage::Image {
            more,
            paths,
            runtime,
        } => image_line(alloc, so_far, more, paths, runtime, line),
        PartStage::Place {
            more,
            paths,
            runtime,
            name,
        } => place_line(alloc, so_far, more, paths, runtime, name, line),
        PartStage::Added {
            more,
            paths,
            attachment,
        } => added_line(alloc, so_far, more, paths, attachment, line),
        PartStage::Kept => Ok(kept_line(line)),
        PartStage::Manifest { more } => manifest_line(alloc, so_far, more, line),
        PartStage::Item {
            more,
            items,
            manifest,
        } => item_line(alloc, so_far, more, items, manifest, line),
        PartStage::Root => root_line(so_far, line),
        PartStage::RootEntry { more } => root_entry_line(alloc, generation, so_far, more, line),
        PartStage::Lower => lower_line(alloc, so_far, line),
        PartStage::LowerEntry { more } => lower_entry_line(alloc, generation, so_far, more, line),
    }
}
