// The image of an attachment, where it stands outside the search directories.
ghost use Rattle.std.specs.Prelude.{◌≡◌, ◌++◌, ◌∷◌, [], IfErr, IfOk, OnOk};
ghost use Rattle.ext_tree.specs.Grafting.{IsLongPath};
ghost use Rattle.ext_units.specs.ImageName.{last_name};
ghost use Rattle.ext_added.specs.Added.{copies_images, image_piece, image_pieces};
ghost use Rattle.ext_added.specs.Destination.{image_directory};
ghost use Rattle.ext_added.specs.Tops.{FitsImage, FitsOutside};

use crate::ask::CopyMode;
use crate::attaching::Attaching;
use crate::destination::{child, image_directory, name_of};
use crate::link_text::link_to;
use ext_host::Held;
use ext_text::{OutOfMemory, Path};
use ext_tree::{Entry, Tree, TreeErr};
use ext_units::last_name;
use ext_updated::Piece;
use std::alloc::Global;

// Whether images are copied, and not linked.
pub(crate) fn copies_images(copy: CopyMode) -> bool
    ensures { result ≡ copies_images copy }
{
    match copy {
        CopyMode::Copy | CopyMode::Symlink | CopyMode::Auto => false,
        CopyMode::Mixed => true,
    }
}

// The path at which the image of a place is put.
pub(crate) fn image_top(alloc: Global, runtime: bool, place: &Path) -> Result<Path, OutOfMemory>
    ensures { IfOk result (λ path. path ≡ image_directory runtime ++ last_name place.now ∷ []) }
{
    let directory = image_directory(alloc, runtime)?;
    let name = name_of(alloc, last_name(place))?;
    child(&directory, &name)
}

// Appends what is put for an image.
pub(crate) fn append_image(
    alloc: Global,
    pieces: &mut Vec<Piece<Held>>,
    attaching: &Attaching,
    image: &Tree<Held>,
) -> Result<(), TreeErr>
    ensures ok { OnOk result (pieces.new.items ≡ pieces.old.items ++ image_pieces attaching.now image.now) }
    ensures fits { OnOk result (FitsOutside attaching.now) }
    ensures err { IfErr result (IsLongPath (¬ FitsOutside attaching.now)) }
{
    if attaching.outside {
        let piece = image_piece(alloc, attaching, image)?;
        append(pieces, piece)?;
    }
    Ok(())
}

// Appends a piece.
fn append(pieces: &mut Vec<Piece<Held>>, piece: Piece<Held>) -> Result<(), OutOfMemory>
    ensures { OnOk result (pieces.new.items ≡ pieces.old.items ++ piece ∷ []) }
{
    pieces.push(piece)?;
    Ok(())
}

// What is put for an image: a copy with all below it, or a link. `Path` exactly where the text of a link is too long.
fn image_piece(
    alloc: Global,
    attaching: &Attaching,
    image: &Tree<Held>,
) -> Result<Piece<Held>, TreeErr>
    ensures ok { IfOk result (λ piece. piece ≡ image_piece attaching.now image.now) }
    ensures fits { OnOk result (FitsImage attaching.now) }
    ensures err { IfErr result (IsLongPath (¬ FitsImage attaching.now)) }
{
    let path = image_top(alloc, attaching.runtime, &attaching.place)?;
    if copies_images(attaching.copy) {
        let part = image.copy()?;
        let top = Entry::Dir(attaching.attributes);
        Ok(Piece { path, top, part })
    } else {
        let top = link_to(alloc, &attaching.place)?;
        let part = Tree::new(alloc);
        Ok(Piece { path, top, part })
    }
}
