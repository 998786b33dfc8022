// The drop-ins of the services of an attachment.
ghost use Rattle.std.specs.Prelude.{◌≡◌, ◌++◌, ◌∷◌, [], map, IfErr, IfOk, OnOk};
ghost use Rattle.std.specs.List.{AllByRecursion, list_any};
ghost use Rattle.ext_tree.specs.Grafting.{IsLongPath};
ghost use Rattle.ext_added.specs.Added.{copies_profiles, drop_ins, drop_ins_of, is_service, profile_entry, service_piece, services};
ghost use Rattle.ext_added.specs.Destination.{destination};
ghost use Rattle.ext_added.specs.Tops.{FitsProfile, FitsService};

use crate::ask::CopyMode;
use crate::attaching::Attaching;
use crate::destination::{child, destination, drop_in_name, name_of};
use crate::link_text::link_to;
use crate::units::made_file;
use ext_attributes::Attributes;
use ext_host::Held;
use ext_text::{Mode, OutOfMemory, Path};
use ext_tree::{Entry, Tree, TreeErr};
use ext_units::UnitFile;
use ext_updated::Piece;
use std::alloc::Global;

// The mode of made directories.
const DIRECTORY_MODE: u16 = 0o755;

// Whether profiles are copied, and not linked.
fn copies_profiles(copy: CopyMode) -> bool
    ensures { result ≡ copies_profiles copy }
{
    match copy {
        CopyMode::Copy => true,
        CopyMode::Symlink | CopyMode::Auto | CopyMode::Mixed => false,
    }
}

// Whether the unit is a service.
pub(crate) fn is_service(unit: &UnitFile) -> bool
    ensures { result ≡ is_service unit.now }
{
    unit.name.bytes().ends_with(b".service")
}

/// Whether there is a service among the units of an attachment, so that drop-ins are made.
pub fn has_services(attaching: &Attaching) -> bool
    ensures { result ≡ list_any is_service attaching.now.units }
{
    attaching
        .units
        .as_slice()
        .iter()
        .any(|unit| is_service(unit))
}

// Appends what is put for the services among units, beside these.
pub(crate) fn append_services(
    alloc: Global,
    pieces: &mut Vec<Piece<Held>>,
    attaching: &Attaching,
) -> Result<(), TreeErr>
    ensures ok { OnOk result (pieces.new.items ≡ pieces.old.items ++ map (service_piece attaching.now) (services attaching.now.units)) }
    ensures fits { OnOk result (AllByRecursion (FitsService attaching.now) (services attaching.now.units)) }
    ensures err { IfErr result (IsLongPath (¬ AllByRecursion (FitsService attaching.now) (services attaching.now.units))) }
{
    let directory = destination(alloc, attaching.runtime)?;
    append_each(
        alloc,
        pieces,
        attaching,
        &directory,
        attaching.units.as_slice(),
    )
}

// Appends what is put for the services among these units.
fn append_each(
    alloc: Global,
    pieces: &mut Vec<Piece<Held>>,
    attaching: &Attaching,
    directory: &Path,
    units: &[UnitFile],
) -> Result<(), TreeErr>
    requires { directory.now ≡ destination attaching.now.runtime }
    ensures ok { OnOk result (pieces.new.items ≡ pieces.old.items ++ map (service_piece attaching.now) (services units.now)) }
    ensures fits { OnOk result (AllByRecursion (FitsService attaching.now) (services units.now)) }
    ensures err { IfErr result (IsLongPath (¬ AllByRecursion (FitsService attaching.now) (services units.now))) }
{
    'units: for unit in units {
        append_service(alloc, pieces, attaching, directory, unit)?;
    }
    Ok(())
}

// Appends what is put for a unit beside it, where it is a service.
fn append_service(
    alloc: Global,
    pieces: &mut Vec<Piece<Held>>,
    attaching: &Attaching,
    directory: &Path,
    unit: &UnitFile,
) -> Result<(), TreeErr>
    requires { directory.now ≡ destination attaching.now.runtime }
    ensures ok { OnOk result (pieces.new.items ≡ pieces.old.items ++ map (service_piece attaching.now) (services (unit.now ∷ []))) }
    ensures fits { OnOk result (AllByRecursion (FitsService attaching.now) (services (unit.now ∷ []))) }
    ensures err { IfErr result (IsLongPath (¬ AllByRecursion (FitsService attaching.now) (services (unit.now ∷ [])))) }
{
    if is_service(unit) {
        let piece = service_piece(alloc, attaching, directory, unit)?;
        push(pieces, piece)?;
    }
    Ok(())
}

// Appends a piece.
fn push(pieces: &mut Vec<Piece<Held>>, piece: Piece<Held>) -> Result<(), OutOfMemory>
    ensures { OnOk result (pieces.new.items ≡ pieces.old.items ++ piece ∷ []) }
{
    pieces.push(piece)?;
    Ok(())
}

// What is put for a service beside its unit. `Path` exactly where the name of the directory, or the text of a link, is too long.
fn service_piece(
    alloc: Global,
    attaching: &Attaching,
    directory: &Path,
    unit: &UnitFile,
) -> Result<Piece<Held>, TreeErr>
    requires { directory.now ≡ destination attaching.now.runtime }
    ensures ok { IfOk result (λ piece. piece ≡ service_piece attaching.now unit.now) }
    ensures fits { OnOk result (FitsService attaching.now unit.now) }
    ensures err { IfErr result (IsLongPath (¬ FitsService attaching.now unit.now)) }
{
    match drop_in_name(alloc, unit.name.bytes())? {
        None => Err(TreeErr::Path),
        Some(name) => {
            let path = child(directory, &name)?;
            let part = drop_ins(alloc, attaching)?;
            let top = Entry::Dir(Attributes::of_mode(directory_mode()));
            Ok(Piece { path, top, part })
        }
    }
}

// The mode of made directories.
fn directory_mode() -> Mode
    ensures { result ≡ DIRECTORY_MODE }
{
    match Mode::new(DIRECTORY_MODE) {
        Some(mode) => mode,
        None => unreachable!(),
    }
}

// The drop-ins of a service. `Path` exactly where the text of a link is too long.
fn drop_ins(alloc: Global, attaching: &Attaching) -> Result<Tree<Held>, TreeErr>
    ensures ok { IfOk result (λ tree. tree ≡ drop_ins attaching.now) }
    ensures fits { OnOk result (FitsProfile attaching.now) }
    ensures err { IfErr result (IsLongPath (¬ FitsProfile attaching.now)) }
{
    let profile = profile_entry(alloc, attaching)?;
    let own = made_file(alloc, &attaching.own)?;
    Ok(both(alloc, profile, own)?)
}

// The tree of both drop-ins.
fn both(alloc: Global, profile: Entry<Held>, own: Entry<Held>) -> Result<Tree<Held>, OutOfMemory>
    ensures { IfOk result (λ tree. tree ≡ drop_ins_of profile own) }
{
    let pairs = drop_in_pairs(alloc, profile, own)?;
    Ok(Tree::from_pairs(pairs))
}

// Both with their paths.
fn drop_in_pairs(
    alloc: Global,
    profile: Entry<Held>,
    own: Entry<Held>,
) -> Result<Vec<(Path, Entry<Held>)>, OutOfMemory>
    ensures { IfOk result (λ pairs. pairs.items ≡ drop_ins_of profile own) }
{
    let first = drop_in_path(alloc, b"10-profile.conf")?;
    let second = drop_in_path(alloc, b"20-portable.conf")?;
    let mut pairs = Vec::with_capacity(alloc, 2)?;
    pairs.push((first, profile))?;
    pairs.push((second, own))?;
    Ok(pairs)
}

// The path of one name.
fn drop_in_path(alloc: Global, name: &[u8]) -> Result<Path, OutOfMemory>
    ensures { IfOk result (λ path. path ≡ name.now ∷ []) }
{
    child(&Path::root(alloc), &name_of(alloc, name)?)
}

// A profile, copied or linked.
fn profile_entry(alloc: Global, attaching: &Attaching) -> Result<Entry<Held>, TreeErr>
    ensures ok { IfOk result (λ entry. entry ≡ profile_entry attaching.now) }
    ensures fits { OnOk result (FitsProfile attaching.now) }
    ensures err { IfErr result (IsLongPath (¬ FitsProfile attaching.now)) }
{
    if copies_profiles(attaching.copy) {
        Ok(made_file(alloc, &attaching.profile.file)?)
    } else {
        link_to(alloc, &attaching.profile.path)
    }
}
