ghost use Rattle.std.specs.Prelude.{◌≡◌};
ghost use Rattle.ext_mount.specs.Status.{image_status_number};

use crate::refusal::ImageRefusal;

/// How a run ended.
#[derive(Drop, PartialEq, Eq)]
pub enum ImageStatus {
    /// The image was written whole.
    Done,
    /// The run was refused, and the refusal's line was written in place of the image.
    Refused(ImageRefusal),
    /// The words ask nothing. Nothing was touched.
    Usage {
        /// The place of the first fault, counted from 1.
        place: u64,
    },
    /// The sink failed. A proper prefix of the image, or of the refusal's line, was written.
    WriteFault,
    /// The disk of the store failed. Nothing was written.
    DiskFault,
    /// Out of memory. Some prefix of the image, or of the refusal's line, was written, maybe none.
    OutOfMemory,
    /// What is in the store folder is no store. Nothing was written.
    BadStore {
        /// 0 where `current` names no generation, else the first line of the index that breaks a rule.
        line: u64,
    },
}

impl ImageStatus {
    /// The number that the process ends with: 0 for `Done`, 1 for `Refused`, 2 for `Usage`, 4 for `WriteFault`, 5 for
    /// `DiskFault`, 7 for `OutOfMemory`, 8 for `BadStore`.
    pub fn number(&self) -> u8
        ensures { result ≡ image_status_number self.now }
    {
        match self {
            ImageStatus::Done => 0,
            ImageStatus::Refused(_) => 1,
            ImageStatus::Usage { .. } => 2,
            ImageStatus::WriteFault => 4,
            ImageStatus::DiskFault => 5,
            ImageStatus::OutOfMemory => 7,
            ImageStatus::BadStore { .. } => 8,
        }
    }
}
