use ext_text::OutOfMemory;
use thiserror::Error;

/// Why layers are not joined.
#[derive(Clone, Copy, Debug, PartialEq, Eq, Error)]
pub enum LayerErr {
    /// An allocation failed.
    #[error("out of memory")]
    OutOfMemory,
    /// The layered tree has more than 262,144 entries.
    #[error("more than 262,144 entries")]
    Limit,
}

impl From<OutOfMemory> for LayerErr {
    ghost use Rattle.std.specs.Prelude.{◌≡◌};
    ghost use Rattle.ext_layer.specs.declared.errors.LayerErr.TheVariants as errors;

    ghost from_gives = { λ _ e. e ≡ errors.OutOfMemory };

    fn from(_failed: OutOfMemory) -> LayerErr {
        LayerErr::OutOfMemory
    }
}
