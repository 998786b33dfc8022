ghost use Rattle.std.specs.Prelude.{◌≡◌};
ghost use Rattle.ext_publish.specs.Status.{pub_status_number};

use ext_gen::BadStore;
use ext_published::PubRefusal;

/// How a run ended.
#[derive(Drop, PartialEq, Eq)]
pub enum PubStatus {
    /// The resource is published and listed, and the line that says so was written.
    Done,
    /// The run was refused, and the refusal's line was written. What stands in the depot's folder is as it was.
    Refused(PubRefusal),
    /// The words ask nothing. Nothing was touched.
    Usage {
        /// The place of the first fault, counted from 1. Where words that ask something begin with all of them, it is the place
        /// after the last.
        place: u64,
    },
    /// The sink failed. The run was carried out or refused, and a proper prefix of its line was written.
    WriteFault,
    /// The disk of the store failed. Nothing was written.
    DiskFault,
    /// The disk of the depot failed. Nothing was written. The manifest is the old one, or the new one with all that it lists.
    OutFault,
    /// Out of memory. Nothing was written.
    OutOfMemory,
    /// What is in the store folder is no store, or a file of it is another than listed. Nothing was written.
    BadStore(BadStore),
    /// More than 1,048,576 left-over entries stand in the depot's folder. So many of them were removed, and the run may be given
    /// again.
    Unfinished,
}

impl PubStatus {
    /// The number that the process ends with: 0 for `Done`, 1 for `Refused`, 2 for `Usage`, 4 for `WriteFault`, 5 for
    /// `DiskFault`, 6 for `OutFault`, 7 for `OutOfMemory`, 8 for `BadStore`, 9 for `Unfinished`.
    pub fn number(&self) -> u8
        ensures { result ≡ pub_status_number self.now }
    {
        match self {
            PubStatus::Done => 0,
            PubStatus::Refused(_) => 1,
            PubStatus::Usage { .. } => 2,
            PubStatus::WriteFault => 4,
            PubStatus::DiskFault => 5,
            PubStatus::OutFault => 6,
            PubStatus::OutOfMemory => 7,
            PubStatus::BadStore(_) => 8,
            PubStatus::Unfinished => 9,
        }
    }
}
