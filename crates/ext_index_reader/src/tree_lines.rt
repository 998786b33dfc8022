// The lines of what is seen, and of what lies under it.
ghost use Rattle.std.specs.Prelude.{◌≡◌, ◌↔◌, ◌∷◌, ◌++◌, [], ℕ, IfOk, IsTrue};
ghost use Rattle.ext_tree.specs.Tree.{IsTree};
ghost use Rattle.ext_tree.specs.declared.entry.Entry.{Entry};
ghost use Rattle.ext_host.specs.Held.{HeldFile};
ghost use Rattle.ext_host.specs.Host.{is_in, where_merged};
ghost use Rattle.ext_index_reader.specs.Reading.{LeadsTo};
ghost use Rattle.ext_index_reader.specs.State.{at_part, merged_so_far};
ghost use Rattle.ext_index_reader.specs.Step.{AddsLower, AddsRoot};
ghost use Rattle.ext_index_reader.specs.declared.state.PartStage.TheVariants as parts;

use crate::entry_lines::entered;
use crate::next::{then_lower, then_root};
use crate::state::{SoFar, Stage};
use ext_host::is_in;
use ext_index_lines::{MOST_COUNT, number_after};
use ext_lines::OutOfMemory;
use ext_text::{Names, Path};
use std::alloc::Global;

/// Adds the entry of a line to what is seen, and says whether it may stand there. Where it may not, or there was no memory,
/// what was read is of no use.
pub(crate) fn add_root(
    alloc: Global,
    generation: u32,
    so_far: &mut SoFar,
    line: &[u8],
) -> Result<bool, OutOfMemory>
    ensures { IfOk result (AddsRoot generation so_far.old so_far.new line.now) }
{
    match entered(alloc, generation, so_far, line)? {
        None => Ok(false),
        Some((path, entry)) => {
            if !so_far.parts.root.may_follow(&path) {
                return Ok(false);
            }
            so_far.parts.root.push(path, entry)?;
            Ok(true)
        }
    }
}

/// After the line of an entry that is seen.
pub(crate) fn root_entry_line(
    alloc: Global,
    generation: u32,
    so_far: &mut SoFar,
    more: u64,
    line: &[u8],
) -> Result<Option<Stage>, OutOfMemory>
    ensures { IfOk result (LeadsTo generation (at_part so_far.old (parts.RootEntry more)) so_far.new line.now) }
{
    if !add_root(alloc, generation, so_far, line)? {
        return Ok(None);
    }
    Ok(Some(then_root(more)))
}

/// After the line that tells how many entries lie under them.
pub(crate) fn lower_line(
    alloc: Global,
    so_far: &mut SoFar,
    line: &[u8],
) -> Result<Option<Stage>, OutOfMemory>
    ensures { (g : ℕ) → IfOk result (LeadsTo g (at_part so_far.old parts.Lower) so_far.new line.now) }
{
    match number_after(line, b"lower", MOST_COUNT) {
        None => Ok(None),
        Some(count) => Ok(Some(then_lower(alloc, so_far, count)?)),
    }
}

/// Adds the entry of a line to what lies under them, in a hierarchy of a merged class, and says whether it may stand there.
/// Where it may not, or there was no memory, what was read is of no use.
pub(crate) fn add_lower(
    alloc: Global,
    generation: u32,
    so_far: &mut SoFar,
    line: &[u8],
) -> Result<bool, OutOfMemory>
    ensures { IfOk result (AddsLower generation so_far.old so_far.new line.now) }
{
    match entered(alloc, generation, so_far, line)? {
        None => Ok(false),
        Some((path, entry)) => {
            if !may_be_lower(so_far, &path) {
                return Ok(false);
            }
            so_far.parts.lower.push(path, entry)?;
            Ok(true)
        }
    }
}

/// After the line of an entry that lies under them.
pub(crate) fn lower_entry_line(
    alloc: Global,
    generation: u32,
    so_far: &mut SoFar,
    more: u64,
    line: &[u8],
) -> Result<Option<Stage>, OutOfMemory>
    ensures { IfOk result (LeadsTo generation (at_part so_far.old (parts.LowerEntry more)) so_far.new line.now) }
{
    if !add_lower(alloc, generation, so_far, line)? {
        return Ok(None);
    }
    Ok(Some(then_lower(alloc, so_far, more)?))
}

// Whether an entry at this path may be the next of the lower tree.
fn may_be_lower(so_far: &SoFar, path: &Path) -> bool
    ensures { (e : Entry HeldFile) → (IsTrue result ↔ (IsTree (so_far.now.parts.lower ++ (path.now, e) ∷ [])
        × IsTrue (is_in (merged_so_far so_far.now) path.now))) }
{
    so_far.parts.lower.may_follow(path) && is_in_merged(so_far, path)
}

// Whether a path is in a hierarchy of a merged class.
fn is_in_merged(so_far: &SoFar, path: &Path) -> bool
    ensures { result ≡ is_in (merged_so_far so_far.now) path.now }
{
    is_in_class(&so_far.parts.sysext, &so_far.sysext_hier, path)
        || is_in_class(&so_far.parts.confext, &so_far.confext_hier, path)
}

/// Whether a path is in one of these hierarchies, and names are merged there. It takes no memory.
pub fn is_in_class(merged: &Option<Names>, hierarchies: &Names, path: &Path) -> bool
    ensures { result ≡ is_in (where_merged merged.now hierarchies.now) path.now }
{
    match merged {
        None => false,
        Some(_) => is_in(hierarchies.as_slice(), &path.names()),
    }
}
