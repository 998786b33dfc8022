ghost use Rattle.std.specs.Prelude.{◌≡◌};
ghost use Rattle.ext_top.specs.Status.{status_number};

use ext_cmd::Refusal;
use ext_gen::BadStore;

/// How a run ended.
#[derive(Drop)]
pub enum Status {
    /// The command was done, and its reply was written.
    Done,
    /// The command was refused, and the refusal's line was written. The store is as it was.
    Refused(Refusal),
    /// The words are no command. Nothing was touched.
    Usage {
        /// The place of the first word that no command has there, counted from 1. Where a command begins with all of them,
        /// it is the place after the last.
        place: u64,
    },
    /// The source failed. Nothing was written, and the store was left alone.
    ReadFault,
    /// The sink failed. The command was carried out, and a proper prefix of the reply was written.
    WriteFault,
    /// The disk failed. The store stands for what it stood for, or for what the command would make of it.
    DiskFault,
    /// The depot failed. The store is as it was, and nothing was written.
    DepotFault,
    /// Out of memory. The store is as it was, and nothing was written but, of a file that `cat` showed, its first bytes.
    OutOfMemory,
    /// What is in the store folder is no store, or a file of it is another than listed.
    BadStore(BadStore),
    /// More left-overs stand in the store folder than one command removes. The command may be given again.
    Unfinished,
    /// The source has more than 16,777,216 bytes, and one byte more was taken. Nothing was written, and the store was left
    /// alone.
    TooLong,
}

impl Status {
    /// The number that the process ends with: 0 for `Done`, 1 for `Refused`, 2 for `Usage`, 3 for `ReadFault`, 4 for
    /// `WriteFault`, 5 for `DiskFault`, 6 for `DepotFault`, 7 for `OutOfMemory`, 8 for `BadStore`, 9 for `Unfinished`, 10
    /// for `TooLong`.
    pub fn number(&self) -> u8
        ensures { result ≡ status_number self.now }
    {
        match self {
            Status::Done => 0,
            Status::Refused(_) => 1,
            Status::Usage { .. } => 2,
            Status::ReadFault => 3,
            Status::WriteFault => 4,
            Status::DiskFault => 5,
            Status::DepotFault => 6,
            Status::OutOfMemory => 7,
            Status::BadStore(_) => 8,
            Status::Unfinished => 9,
            Status::TooLong => 10,
        }
    }
}
