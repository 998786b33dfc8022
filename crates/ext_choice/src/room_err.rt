use ext_text::{Name, OutOfMemory};
use thiserror::Error;

/// Why there is no room.
#[derive(Debug, Drop, Error)]
pub enum RoomErr {
    /// An allocation failed.
    #[error("out of memory")]
    OutOfMemory,
    /// A transfer protects more versions than may stay.
    #[error("{protected} versions are protected, and fewer may stay")]
    NoRoom {
        /// The name of the transfer file.
        file: Name,
        /// How many versions of which there are instances are protected.
        protected: u64,
    },
}

impl From<OutOfMemory> for RoomErr {
    ghost use Rattle.std.specs.Prelude.{◌≡◌};
    ghost use Rattle.ext_choice.specs.declared.room_err.RoomErr.TheVariants as errors;

    ghost from_gives = { λ _ e. e ≡ errors.OutOfMemory };

    fn from(_failed: OutOfMemory) -> RoomErr {
        RoomErr::OutOfMemory
    }
}
