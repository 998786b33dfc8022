// The lines of kept manifests.
ghost use Rattle.std.specs.Prelude.{ℕ, IfOk};
ghost use Rattle.ext_index_reader.specs.Reading.{LeadsTo};
ghost use Rattle.ext_index_reader.specs.State.{at_part};
ghost use Rattle.ext_index_reader.specs.declared.state.PartStage.TheVariants as parts;

use crate::following::{follows_as_item, follows_as_manifest};
use crate::next::{then_items, then_root};
use crate::state::{SoFar, Stage};
use ext_host::{Item, Items, Manifest};
use ext_index_lines::{MOST_COUNT, item_of, manifest_of, number_after};
use ext_lines::OutOfMemory;
use std::alloc::Global;

/// After the first line of a manifest.
pub(crate) fn manifest_line(
    alloc: Global,
    so_far: &mut SoFar,
    more: u64,
    line: &[u8],
) -> Result<Option<Stage>, OutOfMemory>
    ensures { (g : ℕ) → IfOk result (LeadsTo g (at_part so_far.old (parts.Manifest more)) so_far.new line.now) }
{
    match manifest_of(alloc, line)? {
        None => Ok(None),
        Some((items, path)) => {
            if !follows_as_manifest(so_far.parts.kept.as_slice(), &path) {
                return Ok(None);
            }
            let manifest = Manifest {
                path,
                items: Items::new(alloc),
            };
            Ok(Some(then_items(so_far, more, items, manifest)?))
        }
    }
}

/// After the line of an item of it.
pub(crate) fn item_line(
    alloc: Global,
    so_far: &mut SoFar,
    more: u64,
    items: u64,
    mut manifest: Manifest,
    line: &[u8],
) -> Result<Option<Stage>, OutOfMemory>
    ensures { (g : ℕ) → IfOk result (LeadsTo g (at_part so_far.old (parts.Item more items manifest)) so_far.new line.now) }
{
    match item_of(alloc, line)? {
        None => Ok(None),
        Some((digest, path)) => {
            if !follows_as_item(manifest.items.as_slice(), &path) {
                return Ok(None);
            }
            manifest.items.push(Item { path, digest })?;
            Ok(Some(then_items(so_far, more, items, manifest)?))
        }
    }
}

/// After the line that tells how many entries are seen. There is room for them then.
pub(crate) fn root_line(so_far: &mut SoFar, line: &[u8]) -> Result<Option<Stage>, OutOfMemory>
    ensures { (g : ℕ) → IfOk result (LeadsTo g (at_part so_far.old parts.Root) so_far.new line.now) }
{
    match number_after(line, b"root", MOST_COUNT) {
        None => Ok(None),
        Some(count) => {
            so_far.parts.root.make_room(count)?;
            Ok(Some(then_root(count)))
        }
    }
}
