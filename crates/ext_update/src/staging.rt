// What is planned of what is written and removed, one refusal after the other.
ghost use Rattle.std.specs.Prelude.{◌≡◌, ℕ, List, IfOk};
ghost use Rattle.ext_host.specs.Limits.{passed_limit};
ghost use Rattle.ext_host.specs.Planning.{IsPlannedHost};
ghost use Rattle.ext_host.specs.Valid.{IsValidHost};
ghost use Rattle.ext_updated.specs.Clash.{NoClash};
ghost use Rattle.ext_updated.specs.Pieces.{MayBePut};
ghost use Rattle.ext_update.specs.Drafts.{Touches};
ghost use Rattle.ext_update.specs.Stages.{ClashWants, FittingWants, IsBlocking, IsLocked, OpenWants, WritesWant};
ghost use Rattle.ext_update.specs.Steps.{AreDraftItems, IfNext, IsSoundDraft, PiecesWant, RootWants, draft_writes};
ghost use Rattle.ext_update.specs.declared.planned.Planned.TheVariants.{Refused};
ghost use Rattle.ext_update.specs.declared.refusal.UpdateRefusal.TheVariants.{Limit};

use crate::blocking::{blocking, first_locked};
use crate::draft::Draft;
use crate::fitting::pieces;
use crate::items_of::touched_by;
use crate::keeping::next_host;
use crate::planned::Planned;
use crate::refusal::UpdateRefusal;
use ext_host::{Held, Host, passed_limit};
use ext_text::{OutOfMemory, SortedPaths, Which};
use ext_tree::{Tree, TreeErr};
use ext_updated::{Items, Piece, clash, updated};
use std::alloc::Global;

// What is planned of a draft, whose items are these.
pub(crate) fn plan(
    alloc: Global,
    host: &Host,
    items: &Items,
    draft: Draft,
) -> Result<Planned, OutOfMemory>
    requires valid { IsValidHost host.now }
    requires items { AreDraftItems draft items.now }
    requires sound { IsSoundDraft draft }
    ensures wants { IfOk result (WritesWant host.now (draft_writes draft items.now)) }
    ensures planned { IfOk result (IfNext (IsPlannedHost host.now)) }
{
    let touched = touched_by(alloc, items)?;
    match first_locked(host, touched.as_slice()) {
        Some(path) => {
            let path = path.copy()?;
            Ok(Planned::Refused(UpdateRefusal::ReadOnly { path }))
        }
        None => plan_unlocked(alloc, host, items, &touched, draft),
    }
}

// What is planned where nothing that is touched is locked.
fn plan_unlocked(
    alloc: Global,
    host: &Host,
    items: &Items,
    touched: &SortedPaths,
    draft: Draft,
) -> Result<Planned, OutOfMemory>
    requires unlocked { (path : List (List ℕ)) → ¬ IsLocked host.now (draft_writes draft items.now) path }
    requires valid { IsValidHost host.now }
    requires items { AreDraftItems draft items.now }
    requires sound { IsSoundDraft draft }
    requires touched { Touches items.now touched.now }
    ensures wants { IfOk result (ClashWants host.now (draft_writes draft items.now)) }
    ensures planned { IfOk result (IfNext (IsPlannedHost host.now)) }
{
    match clash(alloc, &host.root, items)? {
        Some(path) => Ok(Planned::Refused(UpdateRefusal::Clash { path })),
        None => plan_apart(alloc, host, items, touched, draft),
    }
}

// What is planned where nothing is in the way.
fn plan_apart(
    alloc: Global,
    host: &Host,
    items: &Items,
    touched: &SortedPaths,
    draft: Draft,
) -> Result<Planned, OutOfMemory>
    requires apart { NoClash host.now.root items.now }
    requires unlocked { (path : List (List ℕ)) → ¬ IsLocked host.now (draft_writes draft items.now) path }
    requires valid { IsValidHost host.now }
    requires items { AreDraftItems draft items.now }
    requires sound { IsSoundDraft draft }
    requires touched { Touches items.now touched.now }
    ensures wants { IfOk result (OpenWants host.now (draft_writes draft items.now)) }
    ensures planned { IfOk result (IfNext (IsPlannedHost host.now)) }
{
    match blocking(alloc, &host.root, &draft)? {
        Some(path) => Ok(Planned::Refused(UpdateRefusal::NotDirectory { path })),
        None => plan_open(alloc, host, items, touched, draft),
    }
}

// What is planned where nothing but directories stands above what is written.
fn plan_open(
    alloc: Global,
    host: &Host,
    items: &Items,
    touched: &SortedPaths,
    draft: Draft,
) -> Result<Planned, OutOfMemory>
    requires open { (path : List (List ℕ)) → ¬ IsBlocking host.now (draft_writes draft items.now) path }
    requires apart { NoClash host.now.root items.now }
    requires unlocked { (path : List (List ℕ)) → ¬ IsLocked host.now (draft_writes draft items.now) path }
    requires valid { IsValidHost host.now }
    requires items { AreDraftItems draft items.now }
    requires sound { IsSoundDraft draft }
    requires touched { Touches items.now touched.now }
    ensures wants { IfOk result (FittingWants host.now (draft_writes draft items.now)) }
    ensures planned { IfOk result (IfNext (IsPlannedHost host.now)) }
{
    match pieces(alloc, draft) {
        Ok(pieces) => plan_pieces(alloc, host, items, touched, pieces),
        Err(TreeErr::OutOfMemory) => Err(OutOfMemory),
        Err(TreeErr::Path) => Ok(limit(Which::Path)),
        Err(TreeErr::NotDirectory | TreeErr::Exists | TreeErr::Limit) => unreachable!(),
    }
}

// What is planned of the pieces, which may be put.
fn plan_pieces(
    alloc: Global,
    host: &Host,
    items: &Items,
    touched: &SortedPaths,
    pieces: Vec<Piece<Held>>,
) -> Result<Planned, OutOfMemory>
    requires { MayBePut host.now.root items.now.removed pieces.items }
    ensures { IfOk result (PiecesWant host.now touched.now items.now pieces.items) }
{
    match updated(alloc, &host.root, &items.removed, pieces) {
        Ok(root) => plan_root(alloc, host, items, touched, root),
        Err(TreeErr::OutOfMemory) => Err(OutOfMemory),
        Err(TreeErr::Path) => Ok(limit(Which::Path)),
        Err(TreeErr::Limit) => Ok(limit(Which::Entries)),
        Err(TreeErr::NotDirectory | TreeErr::Exists) => unreachable!(),
    }
}

// What is planned of the tree that is to be seen.
fn plan_root(
    alloc: Global,
    host: &Host,
    items: &Items,
    touched: &SortedPaths,
    root: Tree<Held>,
) -> Result<Planned, OutOfMemory>
    ensures { IfOk result (RootWants host.now touched.now items.now.resources root (passed_limit root host.now.lower)) }
{
    match passed_limit(root.pairs(), host.lower.pairs()) {
        Some(which) => Ok(limit(which)),
        None => {
            let next = next_host(alloc, host, touched, items.resources.as_slice(), root)?;
            Ok(Planned::Next(next))
        }
    }
}

// The refusal of what would pass a limit.
fn limit(which: Which) -> Planned
    ensures { result ≡ Refused (Limit which) }
{
    Planned::Refused(UpdateRefusal::Limit { which })
}
