// What is attached, one refusal after the other.
ghost use Rattle.std.specs.Prelude.{◌≡◌, ◌++◌, [], IfOk};
ghost use Rattle.std.specs.List.Sorted.{IsStrictlySortedBy};
ghost use Rattle.std.specs.Option.{option_copied};
ghost use Rattle.ext_text.specs.Digest.{IsDigest};
ghost use Rattle.ext_text.specs.Path.{path_cmp};
ghost use Rattle.ext_tree.specs.Graft.{is_non_directory_at};
ghost use Rattle.ext_tree.specs.Tree.{lookup};
ghost use Rattle.ext_host.specs.Planning.{IsPlannedHost};
ghost use Rattle.ext_host.specs.ReadOnly.{is_read_only};
ghost use Rattle.ext_attached.specs.Least.{FindsLeast, NonePasses};
ghost use Rattle.ext_updated.specs.Pieces.{MayBePut};
ghost use Rattle.ext_added.specs.Tops.{tops_of, ways_of};
ghost use Rattle.ext_port.specs.Given.{AreFilesOf, AreUnitsIn, HasPaths, IsAsked, IsBodyIn, IsSoundMade, IsStart};
ghost use Rattle.ext_port.specs.Limits.{first_limit, new_bytes};
ghost use Rattle.ext_port.specs.Steps.{PutWants, RootWants};
ghost use Rattle.ext_port.specs.Wants.{BarMemory, BlockingWants, FittingWants, LockedWants, ProfileWants, StandingWants};

use crate::attaching::Attach;
use crate::errors::PortErr;
use crate::limits::{first_limit, new_bytes};
use crate::next_host::attached_host;
use crate::starting::Start;
use ext_added::{Ask, Attaching, attaching_of, pieces_of, profile_of, tops_of, ways_of};
use ext_attached::{least_blocking, least_locked, least_standing};
use ext_host::{Held, Plan};
use ext_text::{OutOfMemory, Path, SortedPaths, Which};
use ext_tree::{Tree, TreeErr};
use ext_units::laws::units_ascend;
use ext_units::{Body, Units, names_of};
use ext_updated::{Piece, both, updated};
use std::alloc::Global;

// What is made of an image that is asked for, and the host to which it goes.
#[derive(Drop)]
pub(crate) struct Staged<'a> {
    pub(crate) start: &'a Start<'a>,
    pub(crate) ask: &'a Ask,
    pub(crate) made: &'a Attaching,
    // The tree of the image, and the tree in which its units were looked for.
    pub(crate) image: &'a Tree<Held>,
    pub(crate) tree: &'a Tree<Held>,
}

// What is attached of an image with these units.
pub(crate) fn attach_units(
    alloc: Global,
    start: &Start,
    ask: &Ask,
    body: &Body,
    tree: &Tree<Held>,
    units: Units,
    lines: &[u8],
) -> Result<Attach, PortErr>
    requires start { IsStart start.now }
    requires asked { IsAsked ask.now.image }
    requires body { IsBodyIn start.now.host.now start.now.base ask.now.image body.now }
    requires files { AreFilesOf start.now.host.now tree.now }
    requires units { AreUnitsIn tree.now units }
    ensures gives { BarMemory (ProfileWants start.now.host.now start.now.cut start.now.base ask.now body.now tree.now lines.now units)
        result }
    ensures next { IfOk result (λ attach. IsPlannedHost start.now.host.now attach.plan.next) }
{
    match profile_of(alloc, &start.base, &ask.profile)? {
        None => Err(PortErr::NoProfile),
        Some(profile) => {
            units_ascend::<Held>();
            // Both calls say of the trees that they are some, and of the place that it is a path.
            let _entries = tree.pairs();
            let _names = body.place.names();
            let made = attaching_of(alloc, &start.base, ask, body, units, profile, lines)?;
            look_at_digest(&made.own);
            let staged = Staged {
                start,
                ask,
                made: &made,
                image: &body.tree,
                tree,
            };
            attach_made(alloc, &staged)
        }
    }
}

// The digest of what is known of a file's bytes is one, which its bytes say.
fn look_at_digest(held: &Held)
    ensures { IsDigest held.now.stamp.digest.0 }
{
    let _digest = held.stamp().digest.bytes();
}

// What is attached of what is made.
fn attach_made(alloc: Global, staged: &Staged) -> Result<Attach, PortErr>
    requires start { IsStart staged.now.start.now }
    requires sound { IsSoundMade staged.now.start.now.host.now staged.now.made.now staged.now.image.now staged.now.tree.now }
    ensures gives { BarMemory (LockedWants staged.now.start.now.host.now staged.now.ask.now staged.now.image.now staged.now.tree.now
        staged.now.made.now staged.now.start.now.cut) result }
    ensures next { IfOk result (λ attach. IsPlannedHost staged.now.start.now.host.now attach.plan.next) }
{
    let tops = sorted_tops(alloc, staged.made)?;
    match least_touched(alloc, staged.start, &tops)? {
        Some(path) => Err(PortErr::ReadOnly { path }),
        None => attach_unlocked(alloc, staged, tops),
    }
}

// The paths at which something is put, in path order. They come in a few stretches that are in order, which a stable sort merges.
fn sorted_tops(alloc: Global, made: &Attaching) -> Result<SortedPaths, OutOfMemory>
    ensures has { IfOk result (HasPaths (tops_of made.now)) }
    ensures order { IfOk result (IsStrictlySortedBy path_cmp) }
{
    let mut tops = tops_of(alloc, made)?;
    tops.sort()?;
    Ok(SortedPaths::of(tops))
}

// The least path that is cut or added and that is in, at or above a merged hierarchy.
fn least_touched(
    alloc: Global,
    start: &Start,
    tops: &SortedPaths,
) -> Result<Option<Path>, OutOfMemory>
    ensures { IfOk result (FindsLeast (is_read_only start.now.host.now) (start.now.cut ++ tops.now)) }
{
    if start.cut.as_slice().is_empty() {
        return copied(least_locked(start.host, tops));
    }
    let paths = both(alloc, start.cut.as_slice(), tops.as_slice())?;
    let touched = SortedPaths::of(paths);
    copied(least_locked(start.host, &touched))
}

// The path, copied.
fn copied(path: Option<&Path>) -> Result<Option<Path>, OutOfMemory>
    ensures { IfOk result (λ copy. copy ≡ option_copied path.entry) }
{
    match path {
        Some(path) => Ok(Some(path.copy()?)),
        None => Ok(None),
    }
}

// What is attached where no path is locked.
fn attach_unlocked(alloc: Global, staged: &Staged, tops: SortedPaths) -> Result<Attach, PortErr>
    requires start { IsStart staged.now.start.now }
    requires sound { IsSoundMade staged.now.start.now.host.now staged.now.made.now staged.now.image.now staged.now.tree.now }
    requires tops { HasPaths (tops_of staged.now.made.now) tops }
    requires order { IsStrictlySortedBy path_cmp tops }
    ensures gives { BarMemory (StandingWants staged.now.start.now.host.now staged.now.ask.now staged.now.image.now staged.now.tree.now
        staged.now.made.now) result }
    ensures next { IfOk result (λ attach. IsPlannedHost staged.now.start.now.host.now attach.plan.next) }
{
    match least_standing(&staged.start.host.root, &tops) {
        Some(path) => {
            let path = path.copy()?;
            Err(PortErr::UnitExists { path })
        }
        None => attach_free(alloc, staged, tops),
    }
}

// What is attached where nothing stands at a path that is added.
fn attach_free(alloc: Global, staged: &Staged, tops: SortedPaths) -> Result<Attach, PortErr>
    requires start { IsStart staged.now.start.now }
    requires sound { IsSoundMade staged.now.start.now.host.now staged.now.made.now staged.now.image.now staged.now.tree.now }
    requires tops { HasPaths (tops_of staged.now.made.now) tops }
    requires order { IsStrictlySortedBy path_cmp tops }
    ensures gives { BarMemory (BlockingWants staged.now.start.now.host.now staged.now.ask.now staged.now.image.now staged.now.tree.now
        staged.now.made.now) result }
    ensures next { IfOk result (λ attach. IsPlannedHost staged.now.start.now.host.now attach.plan.next) }
{
    let ways = ways_of(alloc, staged.made)?;
    match least_blocking(&staged.start.host.root, &ways) {
        Some(path) => {
            let path = path.copy()?;
            Err(PortErr::NotDirectory { path })
        }
        None => attach_open(alloc, staged, tops),
    }
}

// What is attached where nothing but directories stands above.
fn attach_open(alloc: Global, staged: &Staged, tops: SortedPaths) -> Result<Attach, PortErr>
    requires start { IsStart staged.now.start.now }
    requires sound { IsSoundMade staged.now.start.now.host.now staged.now.made.now staged.now.image.now staged.now.tree.now }
    requires tops { HasPaths (tops_of staged.now.made.now) tops }
    requires order { IsStrictlySortedBy path_cmp tops }
    requires open { NonePasses (λ path. is_non_directory_at (lookup staged.now.start.now.host.now.root path))
        (ways_of staged.now.made.now) }
    ensures gives { BarMemory (FittingWants staged.now.start.now.host.now staged.now.ask.now staged.now.image.now staged.now.tree.now
        staged.now.made.now) result }
    ensures next { IfOk result (λ attach. IsPlannedHost staged.now.start.now.host.now attach.plan.next) }
{
    // `pairs` says of what is seen that it is a tree.
    let _entries = staged.start.host.root.pairs();
    match pieces_of(alloc, staged.made, staged.image, staged.tree) {
        Ok(pieces) => attach_pieces(alloc, staged.start, staged.ask, staged.made, pieces, tops),
        Err(TreeErr::OutOfMemory) => Err(PortErr::OutOfMemory),
        Err(TreeErr::Path) => Err(PortErr::Limit { which: Which::Path }),
        Err(TreeErr::NotDirectory | TreeErr::Exists | TreeErr::Limit) => unreachable!(),
    }
}

// What is attached of the pieces, which may be put.
fn attach_pieces(
    alloc: Global,
    start: &Start,
    ask: &Ask,
    made: &Attaching,
    pieces: Vec<Piece<Held>>,
    tops: SortedPaths,
) -> Result<Attach, PortErr>
    requires { MayBePut start.now.host.now.root [] pieces.items }
    ensures { BarMemory (PutWants start.now.host.now ask.now made.now pieces.items tops) result }
{
    let none = SortedPaths::of(Vec::new(alloc));
    match updated(alloc, &start.host.root, &none, pieces) {
        Ok(root) => attach_root(alloc, start, ask, made, root, tops),
        Err(TreeErr::OutOfMemory) => Err(PortErr::OutOfMemory),
        Err(TreeErr::Path) => Err(PortErr::Limit { which: Which::Path }),
        Err(TreeErr::Limit) => Err(PortErr::Limit {
            which: Which::Entries,
        }),
        Err(TreeErr::NotDirectory | TreeErr::Exists) => unreachable!(),
    }
}

// What is attached with the tree that is to be seen.
fn attach_root(
    alloc: Global,
    start: &Start,
    ask: &Ask,
    made: &Attaching,
    root: Tree<Held>,
    tops: SortedPaths,
) -> Result<Attach, PortErr>
    ensures { BarMemory (RootWants start.now.host.now ask.now made.now tops root
        (first_limit (new_bytes made.now) root start.now.host.now.lower)) result }
{
    let size = new_bytes(made);
    match first_limit(size, root.pairs(), start.host.lower.pairs()) {
        Some(which) => Err(PortErr::Limit { which }),
        None => {
            let units = names_of(alloc, made.units.as_slice())?;
            let next = attached_host(alloc, start.host, ask, &made.place, tops, root)?;
            Ok(Attach {
                plan: Plan { next },
                units,
            })
        }
    }
}
