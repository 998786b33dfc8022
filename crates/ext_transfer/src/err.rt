ghost use Rattle.std.specs.Prelude.{◌≡◌};
ghost use Rattle.ext_transfer.specs.declared.err.TransferErr.TheVariants as errors;

use ext_text::OutOfMemory;
use thiserror::Error;

/// Why bytes are no transfer file.
#[derive(Clone, Copy, Debug, PartialEq, Eq, Error)]
pub enum TransferErr {
    /// An allocation failed.
    #[error("out of memory")]
    OutOfMemory,
    /// The file is faulty.
    #[error("line {line} of the transfer file is faulty: {why}")]
    BadTransfer {
        /// The line of the fault, counted from 1; 0 where a key is absent. A line that goes on has the number of its first line.
        line: u64,
        /// What is wrong.
        why: TransferFault,
    },
}

/// What is wrong with a transfer file. But for the first two, each names the key of which no value may stand there.
#[derive(Clone, Copy, Debug, PartialEq, Eq, Error)]
pub enum TransferFault {
    /// The line is faulty by the syntax of unit files.
    #[error("it is no line of a unit file")]
    Syntax,
    /// A `%` of a value stands before no letter of a specifier.
    #[error("a specifier is unknown")]
    Specifier,
    /// `Verify=` of `[Transfer]`.
    #[error("Verify= of [Transfer]")]
    Verify,
    /// `Type=` of `[Source]`.
    #[error("Type= of [Source]")]
    SourceType,
    /// `Path=` of `[Source]`.
    #[error("Path= of [Source]")]
    SourcePath,
    /// `MatchPattern=` of `[Source]`.
    #[error("MatchPattern= of [Source]")]
    SourcePattern,
    /// `Type=` of `[Target]`.
    #[error("Type= of [Target]")]
    TargetType,
    /// `Path=` of `[Target]`.
    #[error("Path= of [Target]")]
    TargetPath,
    /// `MatchPattern=` of `[Target]`.
    #[error("MatchPattern= of [Target]")]
    TargetPattern,
    /// `Mode=` of `[Target]`.
    #[error("Mode= of [Target]")]
    Mode,
    /// `InstancesMax=` of `[Target]`.
    #[error("InstancesMax= of [Target]")]
    Instances,
    /// `CurrentSymlink=` of `[Target]`.
    #[error("CurrentSymlink= of [Target]")]
    Link,
    /// `PathRelativeTo=` of `[Source]` or of `[Target]`.
    #[error("PathRelativeTo=")]
    Relative,
    /// `MinVersion=` of `[Transfer]`.
    #[error("MinVersion= of [Transfer]")]
    MinVersion,
    /// `ProtectVersion=` of `[Transfer]`.
    #[error("ProtectVersion= of [Transfer]")]
    ProtectVersion,
}

impl From<OutOfMemory> for TransferErr {
    ghost use Rattle.std.specs.Prelude.{◌≡◌};
    ghost use Rattle.ext_transfer.specs.declared.err.TransferErr.TheVariants as errors;

    ghost from_gives = { λ _ e. e ≡ errors.OutOfMemory };

    fn from(_failed: OutOfMemory) -> TransferErr {
        TransferErr::OutOfMemory
    }
}

// A fault at a line.
pub(crate) fn bad(line: u64, why: TransferFault) -> TransferErr
    ensures { result ≡ errors.BadTransfer line why }
{
    TransferErr::BadTransfer { line, why }
}
