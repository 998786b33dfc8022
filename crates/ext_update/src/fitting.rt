// What is put into the tree, where all of it is within the limits.
ghost use Rattle.std.specs.Prelude.{◌≡◌, ◌≢◌, ◌++◌, [], ◌∷◌, true, map, IfErr, IfOk};
ghost use Rattle.std.specs.List.{AllByRecursion};
ghost use Rattle.ext_tree.specs.Graft.{made};
ghost use Rattle.ext_tree.specs.Grafting.{IsLongPath};
ghost use Rattle.ext_tree.specs.Fields.{IsStamp};
ghost use Rattle.ext_tree.specs.TreeText.{AreWritable};
ghost use Rattle.ext_host.specs.DepotBodies.{from_depot};
ghost use Rattle.ext_update.specs.Drafts.{FitsAlone, FitsDraft, HasContent, IsNewPiece, IsSet, LinkFitsAlone};
ghost use Rattle.ext_update.specs.Drafts.{arrival_piece, arrives_at, current_piece, draft_pieces};
ghost use Rattle.ext_update.specs.Stages.{AreFilesFit, FilesFit, is_within_limits};
ghost use Rattle.ext_update.specs.Writing.{file_top};

use crate::draft::{Arrival, CurrentLink, Draft};
use crate::link_texts::link_text;
use ext_attributes::{Attributes, FileAttributes, Owner};
use ext_host::{DepotPath, Held, from_depot};
use ext_lines::allocated;
use ext_resources::Content;
use ext_text::{Mode, OutOfMemory, Path, PathErr};
use ext_tree::{Entry, Stamp, Tree, TreeErr};
use ext_updated::Piece;
use std::alloc::Global;

// The mode of a directory that is written.
const DIRECTORY: u16 = 0o755;

// The most bytes of the text of a link.
const MOST_TARGET: usize = 4096;

// The pieces of resources, and then those of links.
//
// `Path` comes exactly where the path of a resource, that of one of its files in the depot, or the text of a link passes its limits.
pub(crate) fn pieces(alloc: Global, draft: Draft) -> Result<Vec<Piece<Held>>, TreeErr>
    requires contents { AllByRecursion HasContent draft.arrivals.items }
    requires set { AllByRecursion IsSet draft.links.items }
    ensures ok { IfOk result (λ pieces. (pieces.items ≡ draft_pieces draft) × FitsDraft draft) }
    ensures new { IfOk result (λ pieces. AllByRecursion IsNewPiece pieces.items) }
    ensures err { IfErr result (IsLongPath (¬ FitsDraft draft)) }
{
    let mut pieces = arrival_pieces(alloc, draft.arrivals)?;
    let mut links = link_pieces(alloc, draft.links)?;
    allocated(pieces.append(&mut links))?;
    Ok(pieces)
}

// The pieces of resources.
fn arrival_pieces(alloc: Global, arrivals: Vec<Arrival>) -> Result<Vec<Piece<Held>>, TreeErr>
    requires { AllByRecursion HasContent arrivals.items }
    ensures ok { IfOk result (λ pieces. (pieces.items ≡ map arrival_piece arrivals.items) × AllByRecursion FitsAlone arrivals.items) }
    ensures new { IfOk result (λ pieces. AllByRecursion IsNewPiece pieces.items) }
    ensures err { IfErr result (IsLongPath (¬ AllByRecursion FitsAlone arrivals.items)) }
{
    let mut pieces = allocated(Vec::with_capacity(alloc, arrivals.len()))?;
    'arrivals: for arrival in arrivals {
        allocated(pieces.push(arrival_piece(alloc, arrival)?))?;
    }
    Ok(pieces)
}

// The piece of a resource.
fn arrival_piece(alloc: Global, arrival: Arrival) -> Result<Piece<Held>, TreeErr>
    requires { HasContent arrival }
    ensures ok { IfOk result (λ piece. (piece ≡ arrival_piece arrival) × FitsAlone arrival) }
    ensures new { IfOk result IsNewPiece }
    ensures err { IfErr result (IsLongPath (¬ FitsAlone arrival)) }
{
    let path = arrival_path(&arrival)?;
    let Arrival {
        target: _,
        name: _,
        mode,
        source,
        content,
    } = arrival;
    match content {
        Content::File(stamp) => Ok(file_piece(alloc, path, mode, stamp, source)?),
        Content::Directory(tree) => directory_piece(alloc, path, tree, &source),
    }
}

// Where a resource goes.
fn arrival_path(arrival: &Arrival) -> Result<Path, TreeErr>
    ensures ok { IfOk result (λ path. (path ≡ arrives_at arrival.now) × (is_within_limits (arrives_at arrival.now) ≡ true)) }
    ensures err { IfErr result (IsLongPath (is_within_limits (arrives_at arrival.now) ≢ true)) }
{
    match arrival.target.child(&arrival.name) {
        Ok(path) => Ok(path),
        Err(PathErr::OutOfMemory) => Err(TreeErr::OutOfMemory),
        Err(PathErr::TooLong | PathErr::TooDeep) => Err(TreeErr::Path),
        Err(PathErr::BadName) => unreachable!(),
    }
}

// The piece of a file that the depot has.
fn file_piece(
    alloc: Global,
    path: Path,
    mode: Mode,
    stamp: Stamp,
    source: Path,
) -> Result<Piece<Held>, OutOfMemory>
    requires { IsStamp stamp }
    ensures same { IfOk result (λ piece. piece ≡ record { path = path; top = file_top mode stamp source; part = [] }) }
    ensures new { IfOk result IsNewPiece }
{
    // The call says of the mode that it is one.
    let _bits = mode.bits();
    let body = DepotPath::new(alloc, source)?;
    Ok(Piece {
        path,
        top: Entry::File(FileAttributes::of_mode(mode), Held::depot(stamp, body)),
        part: Tree::new(alloc),
    })
}

// The piece of a directory whose files the depot has.
fn directory_piece(
    alloc: Global,
    path: Path,
    tree: Tree<Stamp>,
    source: &Path,
) -> Result<Piece<Held>, TreeErr>
    requires { AreWritable tree }
    ensures ok { IfOk result (λ piece. (piece ≡ record { path = path; top = made; part = from_depot source.now tree }) × FilesFit piece) }
    ensures new { IfOk result IsNewPiece }
    ensures err { IfErr result (IsLongPath (¬ AreFilesFit (from_depot source.now tree))) }
{
    let top = Entry::Dir(Attributes::of_mode(directory_mode()));
    let part = from_depot(alloc, tree, source)?;
    Ok(Piece { path, top, part })
}

// The mode of a directory that is written.
fn directory_mode() -> Mode
    ensures { result ≡ DIRECTORY }
{
    match Mode::new(DIRECTORY) {
        Some(mode) => mode,
        None => unreachable!(),
    }
}

// The pieces of links.
fn link_pieces(alloc: Global, links: Vec<CurrentLink>) -> Result<Vec<Piece<Held>>, TreeErr>
    requires { AllByRecursion IsSet links.items }
    ensures ok { IfOk result (λ pieces. (pieces.items ≡ map current_piece links.items) × AllByRecursion LinkFitsAlone links.items) }
    ensures new { IfOk result (λ pieces. AllByRecursion IsNewPiece pieces.items) }
    ensures err { IfErr result (IsLongPath (¬ AllByRecursion LinkFitsAlone links.items)) }
{
    let mut pieces = allocated(Vec::with_capacity(alloc, links.len()))?;
    'links: for link in links {
        allocated(pieces.push(link_piece(alloc, link)?))?;
    }
    Ok(pieces)
}

// The piece of a link.
fn link_piece(alloc: Global, link: CurrentLink) -> Result<Piece<Held>, TreeErr>
    requires { IsSet link }
    ensures ok { IfOk result (λ piece. (piece ≡ current_piece link) × LinkFitsAlone link) }
    ensures new { IfOk result IsNewPiece }
    ensures err { IfErr result (IsLongPath (¬ LinkFitsAlone link)) }
{
    let text = link_text(alloc, &link)?;
    if text.bytes().len() > MOST_TARGET {
        return Err(TreeErr::Path);
    }
    let CurrentLink {
        path,
        target: _,
        current: _,
    } = link;
    Ok(Piece {
        path,
        top: Entry::Link(Owner::root(), text),
        part: Tree::new(alloc),
    })
}
