// Homes for the files of a coming host.
ghost use Rattle.std.specs.Prelude.{◌+◌, ◌≤◌, ◌++◌, length, IfOk, IfErr};
ghost use Rattle.std.specs.Option.{option_copied};
ghost use Rattle.ext_depot.specs.Depot.{IsKept};
ghost use Rattle.ext_tree.specs.Tree.{most_entries};
ghost use Rattle.ext_store_files.specs.Names.{generation_path};
ghost use Rattle.ext_store_files.specs.Writing.{IsMade, Holds, Works};
ghost use Rattle.ext_homes.specs.Brought.{AreSmall, brought, bytes_of_all};
ghost use Rattle.ext_homes.specs.Written.{is_below, HasOnlyHomes};
ghost use Rattle.ext_homes.specs.Refused.{HomesCause};
ghost use Rattle.ext_homes.specs.Giving.{AreHomesBefore, Gives, stored_by, trees_before};

use crate::errors::HomesErr;
use crate::kept_files::KeptFiles;
use crate::placing::place_both;
use crate::sought::Sought;
use ext_depot::Depot;
use ext_disk::Disk;
use ext_host::Host;
use std::alloc::Global;

/// A host whose files have their homes.
#[derive(Drop)]
pub struct Placed {
    /// The host: each file of what is seen and of what lies under it is kept.
    pub host: Host,
    /// How many files were written for it, under the numbers from 0 on.
    pub files: u32,
}

/// Gives each file of a coming host its home, root before lower, each in path order. A file that is kept stays where it is,
/// and the call neither reads nor writes it. A file that is brought takes the least home at which the host before lists its
/// stamp and the store has the same bytes, of the trees of the past too. The call reads both to their ends in pieces of at
/// most 65,536 bytes. Where there is no such home it writes the file, in such pieces, under the next number from 0 on, in
/// the empty folder of the coming generation, and syncs its bytes. It makes the folder of a number just before its first
/// file. The caller syncs names. The past trees of the coming host stay as they are. Root and lower have at most 262,144
/// entries together, and no file has 2^63 bytes or more. The homes of the host before are in earlier generations, under
/// numbers up to 262,143.
///
/// # Errors
/// - At the first file that gets no home, `Damaged` exactly where a home that lists its stamp has another file, of those
///   that are looked at, from the least on up to the one that has its bytes. Then `NotInDepot` and `Mismatch` exactly where
///   the depot has no file at its path, or another one than listed.
/// - A fault of the disk or of the depot, only where that counted one.
/// - Out of memory.
///
/// Below the folder of the generation there are then homes of brought files and their folders, with any bytes.
pub fn give_homes<D: Disk, P: Depot>(
    alloc: Global,
    disk: &mut D,
    depot: &mut P,
    from: Option<&Host>,
    generation: u32,
    host: Host,
) -> Result<Placed, HomesErr>
    requires entries { length host.root + length host.lower ≤ most_entries }
    requires sizes { AreSmall (host.root ++ host.lower) }
    requires earlier { AreHomesBefore generation (trees_before (option_copied from)) }
    requires empty { Holds (IsMade (generation_path generation)) (D.state disk.old) }
    // However it ends, nothing changes but below the folder of the generation, where homes of brought files are and their
    // folders; no more is appended than these files have bytes.
    ensures works { Works (is_below generation) (is_below generation) (bytes_of_all (brought (host.root ++ host.lower)))
        (D.state disk.old) (D.state disk.new) }
    ensures only { Holds (HasOnlyHomes generation (length (brought (host.root ++ host.lower)))) (D.state disk.new) }
    ensures kept { IsKept (P.state depot.old) (P.state depot.new) }

    // Where all have their homes, what is appended is exactly the files that are written.
    ensures placed { IfOk result (Gives (option_copied from.entry) generation host (D.state disk.old) (D.state disk.new)
        (P.state depot.old)) }
    ensures cause { IfErr result (HomesCause (D.state disk.old) (D.state disk.new) (P.state depot.old) (P.state depot.new)
        (stored_by (option_copied from.entry) (D.state disk.old)) generation (host.root ++ host.lower) 0) }
{
    let sought = Sought::of(alloc, &host.root, &host.lower)?;
    let kept = KeptFiles::of(alloc, from, &sought)?;
    let both = place_both(alloc, disk, depot, &kept, generation, host.root, host.lower)?;
    let files = both.files;
    let host = Host {
        root: both.root,
        lower: both.lower,
        ..host
    };
    Ok(Placed { host, files })
}
