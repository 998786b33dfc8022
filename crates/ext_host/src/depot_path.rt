ghost use Rattle.std.specs.Prelude.{◌≡◌, IfOk};

use ext_text::{OutOfMemory, Path};
use std::alloc::Global;
use std::marker::Model;

/// The path of a file in the depot, in an allocation of its own, so that other bodies take no room for one. Contracts see
/// the path.
#[derive(Drop)]
pub struct DepotPath {
    path: Box<Path>,
}

impl Model for DepotPath {
    ghost use Rattle.std.specs.Prelude.{ℕ, List};

    ghost Value = { List (List ℕ) };

    ghost view = { λ p. p.path.value };
}

impl DepotPath {
    /// The path, moved there.
    ///
    /// # Errors
    /// `OutOfMemory` alone.
    pub fn new(alloc: Global, path: Path) -> Result<DepotPath, OutOfMemory>
        ensures { IfOk result (λ depot. depot ≡ path) }
    {
        let path = Box::new(alloc, path)?;
        Ok(DepotPath { path })
    }

    /// The path.
    pub fn path(&self) -> &Path
        ensures { result.now ≡ self.now }
    {
        self.path.as_ref()
    }

    /// An equal path.
    ///
    /// # Errors
    /// `OutOfMemory` alone.
    pub fn copy(&self) -> Result<DepotPath, OutOfMemory>
        ensures { IfOk result (λ copy. copy ≡ self.now) }
    {
        let path = self.path().copy()?;
        DepotPath::new(*Box::allocator(&self.path), path)
    }
}
