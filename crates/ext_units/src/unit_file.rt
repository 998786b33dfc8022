ghost use Rattle.std.specs.Prelude.{◌≡◌, IfOk};
ghost use Rattle.ext_units.specs.Units.{names_of};

use ext_text::{ListOf, Name, Names, OutOfMemory, Path};
use std::alloc::Global;

/// A unit of a portable service.
#[derive(Drop)]
pub struct UnitFile {
    /// Its name.
    pub name: Name,
    /// The path of the file to which it leads, in the tree in which it was looked for.
    pub file: Path,
}

/// Units, by the bytes of their names.
pub type Units = ListOf<UnitFile>;

/// The names of units, in their order.
///
/// # Errors
/// `OutOfMemory` alone.
pub fn names_of(alloc: Global, units: &[UnitFile]) -> Result<Names, OutOfMemory>
    ensures { IfOk result (λ names. names ≡ names_of units.now) }
{
    let mut names = Vec::with_capacity(alloc, units.len())?;
    'units: for unit in units {
        names.push(unit.name.copy()?)?;
    }
    Ok(Names::from_vec(names))
}
