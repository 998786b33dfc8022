// Lists of paths.
ghost use Rattle.std.specs.Prelude.{◌≡◌, ◌++◌, IfOk, OnOk};

use ext_text::{OutOfMemory, Path};
use std::alloc::Global;

/// Both lists of paths, one after the other, copied.
///
/// # Errors
/// `OutOfMemory`.
pub fn both(alloc: Global, first: &[Path], second: &[Path]) -> Result<Vec<Path>, OutOfMemory>
    ensures { IfOk result (λ paths. paths.items ≡ first.now ++ second.now) }
{
    let mut paths = Vec::new(alloc);
    append_copies(&mut paths, first)?;
    append_copies(&mut paths, second)?;
    Ok(paths)
}

/// Appends copies of paths.
///
/// # Errors
/// `OutOfMemory`.
pub fn append_copies(paths: &mut Vec<Path>, more: &[Path]) -> Result<(), OutOfMemory>
    ensures { OnOk result (paths.new.items ≡ paths.old.items ++ more.now) }
{
    for path in more {
        paths.push(path.copy()?)?;
    }
    Ok(())
}
