// The units that an image has by its prefixes.
ghost use Rattle.ext_units.specs.Choosing.{ChoosesUnits};

use crate::body::Body;
use crate::errors::UnitsErr;
use crate::prefixes::{first_forbidden, prefixes_of};
use crate::searching::units_in;
use crate::unit_file::Units;
use ext_text::Names;
use ext_tree::Tree;
use std::alloc::Global;

/// The units of a portable service, one at least: those of the tree that have one of the prefixes that count for the image, given
/// ones or that of its name. The tree is that of the image, or one with more in it. [`prefixes_of`] tells which prefixes count, and
/// [`units_in`] which units have them.
///
/// # Errors
/// The first of these:
///
/// - `PrefixForbidden` with the first of the prefixes that the image does not allow, as [`first_forbidden`] tells.
/// - `NoUnits` exactly where it allows all, and no unit has one of them.
/// - `OutOfMemory`.
pub fn units_of<C>(
    alloc: Global,
    body: &Body,
    tree: &Tree<C>,
    given: &Names,
) -> Result<Units, UnitsErr>
    ensures { ChoosesUnits body.now tree.now given.now result }
{
    let prefixes = prefixes_of(alloc, given, &body.place)?;
    if let Some(prefix) = first_forbidden(alloc, &body.release, &prefixes)? {
        return Err(UnitsErr::PrefixForbidden { prefix });
    }
    let units = units_in(alloc, tree, &prefixes)?;
    if units.is_empty() {
        return Err(UnitsErr::NoUnits);
    }
    Ok(units)
}
