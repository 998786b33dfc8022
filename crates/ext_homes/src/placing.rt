// The files of a tree, each given its home.
ghost use Rattle.std.specs.Prelude.{◌≡◌, ◌+◌, ◌<◌, ◌≤◌, ◌^◌, [], ◌∷◌, ◌++◌, true, not, length, IfOk, IfErr, OnOk};
ghost use Rattle.ext_depot.specs.Depot.{IsKept};
ghost use Rattle.ext_host.specs.Valid.{bytes_of};
ghost use Rattle.ext_host.specs.declared.body.Body.TheVariants as bodies;
ghost use Rattle.ext_host.specs.Home.{most_files_of_generation};
ghost use Rattle.ext_store_files.specs.Writing.{Holds, Works};
ghost use Rattle.ext_homes.specs.Brought.{AreSmall, brought, brought_stamps, bytes_of_all, held_stamps, is_brought};
ghost use Rattle.ext_homes.specs.Comparing.{stored_in};
ghost use Rattle.ext_homes.specs.Giving.{AreBefore, AreNumbered};
ghost use Rattle.ext_homes.specs.KeptFiles.{lists_in};
ghost use Rattle.ext_homes.specs.Placed.{AreBothPlaced, ArePlaced, IsEntryPlaced, IsFilePlaced, TakesHome, brought_told};
ghost use Rattle.ext_homes.specs.Placing.{EntryCause, Placing};
ghost use Rattle.ext_homes.specs.Refused.{HomeCause, HomesCause};
ghost use Rattle.ext_homes.specs.Written.{HasHomes, HasOnlyHomes, is_below};
ghost use Rattle.ext_homes.specs.Writing.{WritesBrought, WriteCause};

use crate::comparing::least_home;
use crate::errors::HomesErr;
use crate::kept_files::KeptFiles;
use crate::writing::write_brought;
use ext_depot::Depot;
use ext_disk::Disk;
use ext_host::{Body, Held, Home};
use ext_text::Path;
use ext_tree::{Entry, Tree};
use std::alloc::Global;

type Pair = (Path, Entry<Held>);

/// What is seen and what lies under it, with homes.
#[derive(Drop)]
pub(crate) struct Both {
    /// What is seen.
    pub(crate) root: Tree<Held>,
    /// What lies under it.
    pub(crate) lower: Tree<Held>,
    /// How many files were written for both.
    pub(crate) files: u32,
}

/// Both trees with a home for each of their files, what is seen first.
///
/// # Errors
/// As for `give_homes`.
pub(crate) fn place_both<D: Disk, P: Depot>(
    alloc: Global,
    disk: &mut D,
    depot: &mut P,
    kept: &KeptFiles,
    generation: u32,
    root: Tree<Held>,
    lower: Tree<Held>,
) -> Result<Both, HomesErr>
    requires before { AreBefore generation (lists_in kept.now) }
    requires few { length root + length lower ≤ most_files_of_generation }
    requires sizes { AreSmall (root ++ lower) }
    requires homes { Holds (HasHomes generation 0) (D.state disk.old) }
    ensures works { Works (is_below generation) (is_below generation) (bytes_of_all (brought (root ++ lower)))
        (D.state disk.old) (D.state disk.new) }
    ensures only { Holds (HasOnlyHomes generation (length (brought (root ++ lower)))) (D.state disk.new) }
    ensures kept { IsKept (P.state depot.old) (P.state depot.new) }
    ensures placed { IfOk result (λ both. Placing (λ written. AreBothPlaced (stored_in kept.now (D.state disk.old))
        (P.state depot.old) generation root lower 0 both.root both.lower written) generation 0 both.files
        (brought (root ++ lower)) (D.state disk.old) (D.state disk.new)) }
    ensures cause { IfErr result (HomesCause (D.state disk.old) (D.state disk.new) (P.state depot.old) (P.state depot.new)
        (stored_in kept.now (D.state disk.old)) generation (root ++ lower) 0) }
{
    let mut files = 0;
    let root = place_tree(alloc, disk, depot, kept, generation, root, &mut files)?;
    let lower = place_tree(alloc, disk, depot, kept, generation, lower, &mut files)?;
    Ok(Both { root, lower, files })
}

// The tree with a home for each of its files. `files` is how many files are written, before and after.
fn place_tree<D: Disk, P: Depot>(
    alloc: Global,
    disk: &mut D,
    depot: &mut P,
    kept: &KeptFiles,
    generation: u32,
    tree: Tree<Held>,
    files: &mut u32,
) -> Result<Tree<Held>, HomesErr>
    requires before { AreBefore generation (lists_in kept.now) }
    requires few { files.old + length tree ≤ most_files_of_generation }
    requires sizes { AreSmall tree }
    requires homes { Holds (HasHomes generation files.old) (D.state disk.old) }
    ensures works { Works (is_below generation) (is_below generation) (bytes_of_all (brought tree)) (D.state disk.old) (D.state disk.new) }
    ensures only { Holds (HasOnlyHomes generation (files.old + length (brought tree))) (D.state disk.new) }
    ensures kept { IsKept (P.state depot.old) (P.state depot.new) }
    ensures placed { IfOk result (λ placed. Placing (λ written. ArePlaced (stored_in kept.now (D.state disk.old))
        (P.state depot.old) generation tree files.old placed written) generation files.old files.new (brought tree)
        (D.state disk.old) (D.state disk.new)) }
    ensures cause { IfErr result (HomesCause (D.state disk.old) (D.state disk.new) (P.state depot.old) (P.state depot.new)
        (stored_in kept.now (D.state disk.old)) generation tree files.old) }
{
    let mut pairs = tree.into_pairs();
    place_pairs(alloc, disk, depot, kept, generation, &mut pairs, files)?;
    Ok(Tree::from_pairs(pairs))
}

// Gives each file among the entries its home.
fn place_pairs<D: Disk, P: Depot>(
    alloc: Global,
    disk: &mut D,
    depot: &mut P,
    kept: &KeptFiles,
    generation: u32,
    pairs: &mut [Pair],
    files: &mut u32,
) -> Result<(), HomesErr>
    requires before { AreBefore generation (lists_in kept.now) }
    requires few { files.old + length pairs.old ≤ most_files_of_generation }
    requires sizes { AreSmall pairs.old }
    requires homes { Holds (HasHomes generation files.old) (D.state disk.old) }
    ensures works { Works (is_below generation) (is_below generation) (bytes_of_all (brought pairs.old)) (D.state disk.old)
        (D.state disk.new) }
    ensures only { Holds (HasOnlyHomes generation (files.old + length (brought pairs.old))) (D.state disk.new) }
    ensures kept { IsKept (P.state depot.old) (P.state depot.new) }
    ensures placed { OnOk result (Placing (λ written. ArePlaced (stored_in kept.now (D.state disk.old)) (P.state depot.old)
        generation pairs.old files.old pairs.new written) generation files.old files.new (brought pairs.old)
        (D.state disk.old) (D.state disk.new)) }
    ensures cause { IfErr result (HomesCause (D.state disk.old) (D.state disk.new) (P.state depot.old) (P.state depot.new)
        (stored_in kept.now (D.state disk.old)) generation pairs.old files.old) }
{
    'pairs: for pair in pairs.iter_mut() {
        place_entry(alloc, disk, depot, kept, generation, &mut pair.1, files)?;
    }
    Ok(())
}

// Gives the entry's file its home.
fn place_entry<D: Disk, P: Depot>(
    alloc: Global,
    disk: &mut D,
    depot: &mut P,
    kept: &KeptFiles,
    generation: u32,
    entry: &mut Entry<Held>,
    files: &mut u32,
) -> Result<(), HomesErr>
    requires numbers { AreNumbered (lists_in kept.now) }
    requires number { files.old < most_files_of_generation }
    requires homes { Holds (HasHomes generation files.old) (D.state disk.old) }
    requires size { bytes_of entry.old < 2 ^ 63 }
    ensures works { Works (is_below generation) (is_below generation) (bytes_of_all (brought_stamps entry.old))
        (D.state disk.old) (D.state disk.new) }
    ensures only { Holds (HasOnlyHomes generation (files.old + length (brought_stamps entry.old))) (D.state disk.new) }
    ensures kept { IsKept (P.state depot.old) (P.state depot.new) }
    ensures placed { OnOk result (Placing (λ written. IsEntryPlaced (stored_in kept.now (D.state disk.old))
        (P.state depot.old) generation entry.old files.old entry.new written) generation files.old files.new
        (brought_stamps entry.old) (D.state disk.old) (D.state disk.new)) }
    ensures cause { IfErr result (EntryCause (D.state disk.old) (D.state disk.new) (P.state depot.old) (P.state depot.new)
        (stored_in kept.now (D.state disk.old)) entry.old) }
{
    match entry {
        Entry::File(_, held) => place_held(alloc, disk, depot, kept, generation, held, files),
        Entry::Dir(_) => Ok(()),
        Entry::Opaque(_) => Ok(()),
        Entry::Link(_, _) => Ok(()),
        Entry::Hide => Ok(()),
    }
}

// Gives the file its home, where it is brought.
fn place_held<D: Disk, P: Depot>(
    alloc: Global,
    disk: &mut D,
    depot: &mut P,
    kept: &KeptFiles,
    generation: u32,
    held: &mut Held,
    files: &mut u32,
) -> Result<(), HomesErr>
    requires numbers { AreNumbered (lists_in kept.now) }
    requires number { files.old < most_files_of_generation }
    requires homes { Holds (HasHomes generation files.old) (D.state disk.old) }
    requires size { held.old.stamp.size < 2 ^ 63 }
    ensures works { Works (is_below generation) (is_below generation) (bytes_of_all (held_stamps held.old))
        (D.state disk.old) (D.state disk.new) }
    ensures only { Holds (HasOnlyHomes generation (files.old + length (held_stamps held.old))) (D.state disk.new) }
    ensures kept { IsKept (P.state depot.old) (P.state depot.new) }
    ensures placed { OnOk result (Placing (λ written. IsFilePlaced (stored_in kept.now (D.state disk.old))
        (P.state depot.old) generation held.old files.old held.new written) generation files.old files.new
        (held_stamps held.old) (D.state disk.old) (D.state disk.new)) }
    ensures cause { IfErr result (HomeCause (D.state disk.old) (D.state disk.new) (P.state depot.old) (P.state depot.new)
        (stored_in kept.now (D.state disk.old)) held.old) }
{
    if is_kept(held) {
        return Ok(());
    }
    let home = place_brought(alloc, disk, depot, kept, generation, held, files)?;
    *held = Held::kept(*held.stamp(), home);
    Ok(())
}

fn is_kept(held: &Held) -> bool
    ensures { result ≡ not (is_brought held.now.body) }
{
    matches!(held.body(), Body::Kept(_))
}

// The home of a brought file: the least one at which the store has its bytes, or a new one, where they are written.
fn place_brought<D: Disk, P: Depot>(
    alloc: Global,
    disk: &mut D,
    depot: &mut P,
    kept: &KeptFiles,
    generation: u32,
    held: &Held,
    files: &mut u32,
) -> Result<Home, HomesErr>
    requires numbers { AreNumbered (lists_in kept.now) }
    requires number { files.old < most_files_of_generation }
    requires homes { Holds (HasHomes generation files.old) (D.state disk.old) }
    requires brought { is_brought held.now.body ≡ true }
    requires size { held.now.stamp.size < 2 ^ 63 }
    ensures works { Works (is_below generation) (is_below generation) (bytes_of_all (held.now.stamp ∷ []))
        (D.state disk.old) (D.state disk.new) }
    ensures only { Holds (HasOnlyHomes generation (files.old + length (held.now.stamp ∷ []))) (D.state disk.new) }
    ensures kept { IsKept (P.state depot.old) (P.state depot.new) }
    ensures placed { IfOk result (λ placed. Placing (λ written. TakesHome (stored_in kept.now (D.state disk.old)) generation
        held.now.stamp (brought_told (P.state depot.old) held.now.body) files.old placed written) generation files.old
        files.new (held.now.stamp ∷ []) (D.state disk.old) (D.state disk.new)) }
    ensures cause { IfErr result (HomeCause (D.state disk.old) (D.state disk.new) (P.state depot.old) (P.state depot.new)
        (stored_in kept.now (D.state disk.old)) held.now) }
{
    match least_home(alloc, disk, depot, kept, held)? {
        Some(home) => Ok(home),
        None => write_next(alloc, disk, depot, generation, held, files),
    }
}

// Writes a brought file under the next number, and gives its home.
fn write_next<D: Disk, P: Depot>(
    alloc: Global,
    disk: &mut D,
    depot: &mut P,
    generation: u32,
    held: &Held,
    files: &mut u32,
) -> Result<Home, HomesErr>
    requires number { files.old < most_files_of_generation }
    requires homes { Holds (HasHomes generation files.old) (D.state disk.old) }
    requires brought { is_brought held.now.body ≡ true }
    requires size { held.now.stamp.size < 2 ^ 63 }
    ensures works { Works (is_below generation) (is_below generation) held.now.stamp.size (D.state disk.old) (D.state disk.new) }
    ensures only { Holds (HasOnlyHomes generation (files.old + 1)) (D.state disk.new) }
    ensures kept { IsKept (P.state depot.old) (P.state depot.new) }
    ensures home { IfOk result (λ home. home ≡ record { generation = generation; file = files.old }) }
    ensures count { OnOk result (files.new ≡ files.old + 1) }
    ensures written { OnOk result (WritesBrought generation files.old (brought_told (P.state depot.old) held.now.body) held.now.stamp
        (D.state disk.old) (D.state disk.new)) }
    ensures cause { IfErr result (WriteCause (D.state disk.old) (D.state disk.new) (P.state depot.old) (P.state depot.new) held.now) }
{
    let file = *files;
    write_brought(alloc, disk, depot, generation, file, held)?;
    *files = file + 1;
    Ok(Home { generation, file })
}
