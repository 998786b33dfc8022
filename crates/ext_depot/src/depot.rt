ghost use Rattle.std.specs.Prelude.{◌≤◌, length, IfOk};
ghost use Rattle.ext_text.specs.Causes.{HasCause};
ghost use Rattle.ext_depot.specs.Depot.{DepotState, IsKept, MayRead, IsSizeAt, IsReadOf};

use ext_io::Failed;
use ext_text::Path;

/// A tree of files that are read and never written.
pub trait Depot {
    /// What contracts see of it: the files, where the depot tells them, and how often a call failed.
    ghost state: { Self → DepotState };

    /// The size in bytes of the file at the path; `None` exactly where no file stands there. A folder is no file.
    ///
    /// # Errors
    /// The depot failed. No call changes what stands in it.
    fn size(&mut self, path: &Path) -> Result<Option<u64>, Failed>
        ensures size { IfOk result (IsSizeAt (state self.old) path.now) }
        ensures kept { IsKept (state self.old) (state self.new) }
        ensures cause { HasCause result (state self.old).faults (state self.new).faults };

    /// Reads bytes of the file at the path, from the byte `at` on, counted from 0, to the beginning of a buffer that has
    /// room for one at least, and gives how many they are: 0 exactly at or past the file's end. Where the files are told, a
    /// file has to stand there, and the buffer may not be empty.
    ///
    /// # Errors
    /// The depot failed. No call changes what stands in it.
    fn read(&mut self, path: &Path, at: u64, buf: &mut [u8]) -> Result<usize, Failed>
        requires { MayRead (state self.old) path.now (length buf.old) }
        ensures within { IfOk result (λ count. count ≤ length buf.new) }
        ensures moved { IfOk result (IsReadOf (state self.old) path.now at buf.new) }
        ensures kept { IsKept (state self.old) (state self.new) }
        ensures cause { HasCause result (state self.old).faults (state self.new).faults };
}
