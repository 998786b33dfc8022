// Paths as they are written for a reader.
ghost use Rattle.std.specs.Prelude.{◌≡◌, ◌++◌, OnOk, OnErr};
ghost use Rattle.ext_lines.specs.Prefix.{AppendsPrefix};
ghost use Rattle.ext_text.specs.Absolute.{absolute};

use crate::path::Path;
use ext_lines::OutOfMemory;

impl Path {
    /// Adds the path as it is written for a reader at the end of a text: a `/`, and the names with a `/` between each two.
    /// The root is `/` alone.
    ///
    /// # Errors
    /// `OutOfMemory` alone. Some prefix of it was then added.
    pub fn append_absolute(&self, text: &mut Vec<u8>) -> Result<(), OutOfMemory>
        ensures ok { OnOk result (text.new.items ≡ text.old.items ++ absolute self.now) }
        ensures err { OnErr result (AppendsPrefix text.old.items text.new.items (absolute self.now)) }
    {
        text.push(b'/')?;
        self.append_to(text)
    }
}
