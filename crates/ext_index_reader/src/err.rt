use ext_text::OutOfMemory;
use thiserror::Error;

/// Why bytes are not read as an index.
#[derive(Clone, Copy, Debug, PartialEq, Eq, Error)]
pub enum IndexErr {
    /// An allocation failed.
    #[error("out of memory")]
    OutOfMemory,
    /// The bytes are no index of the generation. The line is the first that breaks a rule, counted from 1.
    #[error("faulty index at line {line}")]
    Broken {
        /// The first faulty line.
        line: u64,
    },
}

impl From<OutOfMemory> for IndexErr {
    ghost use Rattle.std.specs.Prelude.{◌≡◌};
    ghost use Rattle.ext_index_reader.specs.declared.err.IndexErr.TheVariants as errors;

    ghost from_gives = { λ _ e. e ≡ errors.OutOfMemory };

    fn from(_failed: OutOfMemory) -> IndexErr {
        IndexErr::OutOfMemory
    }
}
