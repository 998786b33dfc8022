// The units of an attachment.
ghost use Rattle.std.specs.Prelude.{◌≡◌, true, map, IfErr, IfOk, OnOk};
ghost use Rattle.std.specs.List.{AllByRecursion};
ghost use Rattle.ext_tree.specs.Grafting.{IsLongPath};
ghost use Rattle.ext_tree.specs.Tree.{lookup};
ghost use Rattle.ext_find.specs.Content.{is_file_at};
ghost use Rattle.ext_added.specs.Added.{copied, links_units, made_attributes, unit_entry, unit_piece};
ghost use Rattle.ext_added.specs.Destination.{destination};
ghost use Rattle.ext_added.specs.Tops.{FitsUnit};
ghost use Rattle.ext_tree.specs.declared.entry.Entry.TheVariants.{File};

use crate::ask::CopyMode;
use crate::attaching::Attaching;
use crate::destination::{child, destination};
use crate::link_text::link_below;
use ext_attributes::FileAttributes;
use ext_host::Held;
use ext_lines::allocated;
use ext_text::{Mode, OutOfMemory, Path};
use ext_tree::{Entry, Held1, Tree, TreeErr};
use ext_units::UnitFile;
use ext_updated::Piece;
use std::alloc::Global;

// The mode of made files.
const FILE_MODE: u16 = 0o644;

// Whether units are linked, and not copied.
fn links_units(copy: CopyMode) -> bool
    ensures { result ≡ links_units copy }
{
    match copy {
        CopyMode::Symlink => true,
        CopyMode::Copy | CopyMode::Auto | CopyMode::Mixed => false,
    }
}

// What is put for units.
pub(crate) fn unit_pieces(
    alloc: Global,
    attaching: &Attaching,
    tree: &Tree<Held>,
) -> Result<Vec<Piece<Held>>, TreeErr>
    requires { AllByRecursion (λ unit. is_file_at (lookup tree.now unit.file) ≡ true) attaching.now.units }
    ensures ok { IfOk result (λ pieces. pieces.items ≡ map (unit_piece attaching.now tree.now) attaching.now.units) }
    ensures fits { OnOk result (AllByRecursion (FitsUnit attaching.now) attaching.now.units) }
    ensures err { IfErr result (IsLongPath (¬ AllByRecursion (FitsUnit attaching.now) attaching.now.units)) }
{
    let directory = destination(alloc, attaching.runtime)?;
    let units = attaching.units.as_slice();
    let mut pieces = allocated(Vec::with_capacity(alloc, units.len()))?;
    'units: for unit in units {
        allocated(pieces.push(unit_piece(alloc, attaching, tree, &directory, unit)?))?;
    }
    Ok(pieces)
}

// What is put for a unit. `Path` exactly where the text of a link is too long.
fn unit_piece(
    alloc: Global,
    attaching: &Attaching,
    tree: &Tree<Held>,
    directory: &Path,
    unit: &UnitFile,
) -> Result<Piece<Held>, TreeErr>
    requires directory { directory.now ≡ destination attaching.now.runtime }
    requires file { is_file_at (lookup tree.now unit.now.file) ≡ true }
    ensures ok { IfOk result (λ piece. piece ≡ unit_piece attaching.now tree.now unit.now) }
    ensures fits { OnOk result (FitsUnit attaching.now unit.now) }
    ensures err { IfErr result (IsLongPath (¬ FitsUnit attaching.now unit.now)) }
{
    let path = child(directory, &unit.name)?;
    let top = unit_entry(alloc, attaching, tree, unit)?;
    let part = Tree::new(alloc);
    Ok(Piece { path, top, part })
}

// A unit, linked or copied.
fn unit_entry(
    alloc: Global,
    attaching: &Attaching,
    tree: &Tree<Held>,
    unit: &UnitFile,
) -> Result<Entry<Held>, TreeErr>
    requires { is_file_at (lookup tree.now unit.now.file) ≡ true }
    ensures ok { IfOk result (λ entry. entry ≡ unit_entry attaching.now tree.now unit.now) }
    ensures fits { OnOk result (FitsUnit attaching.now unit.now) }
    ensures err { IfErr result (IsLongPath (¬ FitsUnit attaching.now unit.now)) }
{
    if links_units(attaching.copy) {
        link_below(alloc, &attaching.directory, &unit.file)
    } else {
        Ok(copied(alloc, tree, &unit.file)?)
    }
}

// A copy of the file at the path.
fn copied(alloc: Global, tree: &Tree<Held>, path: &Path) -> Result<Entry<Held>, OutOfMemory>
    requires { is_file_at (lookup tree.now path.now) ≡ true }
    ensures { IfOk result (λ entry. entry ≡ copied (lookup tree.now path.now)) }
{
    match tree.get(path) {
        Some(Entry::File(_, held)) => made_file(alloc, held),
        _ => unreachable!(),
    }
}

// A file of these bytes.
pub(crate) fn made_file(alloc: Global, held: &Held) -> Result<Entry<Held>, OutOfMemory>
    ensures { IfOk result (λ entry. entry ≡ File made_attributes held.now) }
{
    match Mode::new(FILE_MODE) {
        Some(mode) => Ok(Entry::File(FileAttributes::of_mode(mode), held.copy(alloc)?)),
        None => unreachable!(),
    }
}
