ghost use Rattle.std.specs.Prelude.{ℕ, ◌≤◌, Bool, IsTrue, IfOk, IfErr};
ghost use Rattle.ext_host.specs.Held.{HeldFile, IsStampOf};
ghost use Rattle.ext_host.specs.Shelf.{IsStays, IsTold, ShelfCause, Told};

use crate::damage::Damage;
use crate::held::Held;
use ext_text::{OutOfMemory, Text};
use std::alloc::Global;
use thiserror::Error;

/// Why a shelf does not give the bytes of a held file.
#[derive(Clone, Copy, Debug, PartialEq, Eq, Error)]
pub enum ShelfErr {
    /// An allocation failed.
    #[error("out of memory")]
    OutOfMemory,
    /// What is under the shelf failed.
    #[error("the shelf failed")]
    Fault,
    /// The file at the home has not the stamp that it is listed with.
    #[error("a kept file is damaged")]
    Damaged(Damage),
}

impl From<OutOfMemory> for ShelfErr {
    ghost use Rattle.std.specs.Prelude.{◌≡◌};
    ghost use Rattle.ext_host.specs.declared.shelf.ShelfErr.TheVariants as errors;

    ghost from_gives = { λ _ e. e ≡ errors.OutOfMemory };

    fn from(_failed: OutOfMemory) -> ShelfErr {
        ShelfErr::OutOfMemory
    }
}

/// What gives the bytes of held files.
pub trait Shelf {
    /// Which files it can give.
    ghost serves: { Self → HeldFile → Bool };

    /// What stands where a file's body says, where the shelf tells it.
    ghost told: { Self → HeldFile → Told };

    /// How often it failed.
    ghost faults: { Self → ℕ };

    /// How a later state follows from an earlier one: the same files are served, and the same is told of each.
    ghost stays: { Self → Self → Type 0 };

    /// All bytes of the file, which have its stamp.
    ///
    /// # Errors
    /// - `Fault` only where the shelf's count of faults rose.
    /// - `Damaged` exactly where what stands at the file's home has another stamp.
    /// - `OutOfMemory`.
    ///
    /// Whatever the answer, the same is told afterwards.
    fn bytes(&mut self, alloc: Global, held: &Held) -> Result<Text, ShelfErr>
        requires { IsTrue (serves self.old held.now) }
        ensures told { IfOk result (IsTold (told self.old held.now)) }
        ensures stamped { IfOk result (λ text. IsStampOf text held.now.stamp) }
        ensures stays { stays self.old self.new }
        ensures count { faults self.old ≤ faults self.new }
        ensures cause { IfErr result (ShelfCause (faults self.old) (faults self.new) (told self.old held.now) held.now) };

    /// Nothing changes in no call, and what stays over two calls stays.
    ghost stays_laws: { IsStays stays serves told };
}
