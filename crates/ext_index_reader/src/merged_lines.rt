// The lines of merged names, and the line after them.
ghost use Rattle.std.specs.Prelude.{ℕ, IfOk};
ghost use Rattle.ext_index_reader.specs.Reading.{LeadsTo};
ghost use Rattle.ext_index_reader.specs.State.{at_part};
ghost use Rattle.ext_index_reader.specs.Step.{GivesMerged, OneMoreName};
ghost use Rattle.ext_index_reader.specs.declared.state.PartStage.TheVariants as parts;
ghost use Rattle.ext_index_reader.specs.declared.state.SoFar.{SoFar};

use crate::following::follows_as_version;
use crate::next::{then_attached, then_confext, then_sysext};
use crate::state::{SoFar, Stage};
use ext_index_lines::{MOST_COUNT, name_after, number_after};
use ext_lines::OutOfMemory;
use ext_text::Names;
use std::alloc::Global;

/// After the first line of the parts: that of merged system extensions, or one of those that may follow them.
pub(crate) fn sysext_line(alloc: Global, so_far: &mut SoFar, line: &[u8]) -> Option<Stage>
    ensures { (g : ℕ) → LeadsTo g (at_part so_far.old parts.Sysext) so_far.new line.now result }
{
    match merged_count(line, b"sysext") {
        Some(count) => Some(then_sysext(so_far, count, Names::new(alloc))),
        None => confext_line(alloc, so_far, line),
    }
}

/// After the line of a merged system extension.
pub(crate) fn sysext_name_line(
    alloc: Global,
    so_far: &mut SoFar,
    more: u64,
    names: Names,
    line: &[u8],
) -> Result<Option<Stage>, OutOfMemory>
    ensures { (g : ℕ) → IfOk result (LeadsTo g (at_part so_far.old (parts.SysextName more names)) so_far.new line.now) }
{
    match one_more_name(alloc, names, line)? {
        None => Ok(None),
        Some(names) => Ok(Some(then_sysext(so_far, more, names))),
    }
}

/// After the line of merged configuration extensions, or that of attachments.
pub(crate) fn confext_line(alloc: Global, so_far: &mut SoFar, line: &[u8]) -> Option<Stage>
    ensures { (g : ℕ) → LeadsTo g (at_part so_far.old parts.Confext) so_far.new line.now result }
{
    match merged_count(line, b"confext") {
        Some(count) => Some(then_confext(so_far, count, Names::new(alloc))),
        None => attached_line(line),
    }
}

/// After the line of a merged configuration extension.
pub(crate) fn confext_name_line(
    alloc: Global,
    so_far: &mut SoFar,
    more: u64,
    names: Names,
    line: &[u8],
) -> Result<Option<Stage>, OutOfMemory>
    ensures { (g : ℕ) → IfOk result (LeadsTo g (at_part so_far.old (parts.ConfextName more names)) so_far.new line.now) }
{
    match one_more_name(alloc, names, line)? {
        None => Ok(None),
        Some(names) => Ok(Some(then_confext(so_far, more, names))),
    }
}

/// After the line that tells how many attachments there are.
pub(crate) fn attached_line(line: &[u8]) -> Option<Stage>
    ensures { (g : ℕ) (s : SoFar) → LeadsTo g (at_part s parts.Attached) s line.now result }
{
    match number_after(line, b"attached", MOST_COUNT) {
        None => None,
        Some(count) => Some(then_attached(count)),
    }
}

// How many names of a class a line says are merged: one at least.
fn merged_count(line: &[u8], word: &[u8]) -> Option<u64>
    ensures { GivesMerged word.now line.now result }
{
    match number_after(line, word, MOST_COUNT) {
        None => None,
        Some(count) => {
            if count == 0 {
                return None;
            }
            Some(count)
        }
    }
}

// The names with that of a line, which follows them in the order of versions.
fn one_more_name(alloc: Global, mut names: Names, line: &[u8]) -> Result<Option<Names>, OutOfMemory>
    ensures { IfOk result (OneMoreName names line.now) }
{
    match name_after(alloc, line, b"n")? {
        None => Ok(None),
        Some(name) => {
            if !follows_as_version(names.as_slice(), &name) {
                return Ok(None);
            }
            names.push(name)?;
            Ok(Some(names))
        }
    }
}
