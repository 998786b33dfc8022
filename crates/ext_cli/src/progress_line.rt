ghost use Rattle.std.specs.Prelude.{◌≡◌, IfOk, string_bytes};
ghost use Rattle.ext_cli.specs.ProgressLine.{progress_line};

use crate::tally::Tally;
use ext_lines::allocated;
use ext_text::OutOfMemory;
use std::alloc::Global;
use std::fmt;

/// The line that tells of what was read and written so far, without the newline.
///
/// # Errors
/// `OutOfMemory` alone.
pub(crate) fn progress_line(alloc: Global, tally: &Tally) -> Result<String, OutOfMemory>
    ensures { IfOk result (λ line. string_bytes line ≡ progress_line tally.now) }
{
    let (files_read, files_written) = (tally.files_read, tally.files_written);
    let (read, written) = (Megabytes(tally.bytes_read), Megabytes(tally.bytes_written));
    allocated(format!(in alloc;
        "hostext: read {files_read} files, {read} MB; wrote {files_written} files, {written} MB"
    ))
}

// A number of bytes, which is printed in megabytes of 1,000,000 bytes, rounded down to tenths.
#[derive(Clone, Copy)]
struct Megabytes(u64);

impl fmt::Display for Megabytes {
    ghost use Rattle.std.specs.Prelude.{Some};
    ghost use Rattle.ext_cli.specs.ProgressLine.{megabytes};

    ghost output = { λ bytes. Some (megabytes bytes.0) };

    fn fmt<W: fmt::Write>(&self, f: &mut fmt::Formatter<W>) -> fmt::Result {
        let (whole, tenths) = (self.0 / 1_000_000, self.0 / 100_000 % 10);
        write!(f, "{whole}.{tenths}")
    }
}
