ghost use Rattle.std.specs.Prelude.{◌≡◌, true, IfErr, IfOk, OnOk};
ghost use Rattle.std.specs.List.{AllByRecursion};
ghost use Rattle.ext_tree.specs.Grafting.{IsLongPath};
ghost use Rattle.ext_tree.specs.Tree.{lookup};
ghost use Rattle.ext_find.specs.Content.{is_file_at};
ghost use Rattle.ext_added.specs.Added.{pieces_of};
ghost use Rattle.ext_added.specs.Tops.{FitsAttaching};

use crate::attaching::Attaching;
use crate::image::append_image;
use crate::services::append_services;
use crate::units::unit_pieces;
use ext_host::Held;
use ext_tree::{Tree, TreeErr};
use ext_updated::Piece;
use std::alloc::Global;

/// What an attachment puts into the tree: each unit, linked or copied from the tree in which units were looked for; for each service
/// its drop-ins; and the image, linked or copied, where it stands outside the search directories. After portablectl(1).
///
/// # Errors
/// `Path` exactly where the name of a directory of drop-ins has more than 255 bytes, or the text of a link more than 4,096.
/// `OutOfMemory` may come at any time, and nothing else comes.
pub fn pieces_of(
    alloc: Global,
    attaching: &Attaching,
    image: &Tree<Held>,
    tree: &Tree<Held>,
) -> Result<Vec<Piece<Held>>, TreeErr>
    requires { AllByRecursion (λ unit. is_file_at (lookup tree.now unit.file) ≡ true) attaching.now.units }
    ensures ok { IfOk result (λ pieces. pieces.items ≡ pieces_of attaching.now image.now tree.now) }
    ensures fits { OnOk result (FitsAttaching attaching.now) }
    ensures err { IfErr result (IsLongPath (¬ FitsAttaching attaching.now)) }
{
    let mut pieces = unit_pieces(alloc, attaching, tree)?;
    append_services(alloc, &mut pieces, attaching)?;
    append_image(alloc, &mut pieces, attaching, image)?;
    Ok(pieces)
}
