// The texts of links.
ghost use Rattle.std.specs.Prelude.{◌≡◌, ◌++◌, IfOk, IfErr, OnOk, true, false};
ghost use Rattle.ext_attributes.specs.Attributes.{root_owner};
ghost use Rattle.ext_text.specs.Absolute.{absolute};
ghost use Rattle.ext_text.specs.PathText.{text_of_both};
ghost use Rattle.ext_tree.specs.Grafting.{IsLongPath};
ghost use Rattle.ext_tree.specs.declared.entry.Entry.TheVariants.{Link};
ghost use Rattle.ext_added.specs.Limits.{fits_text};

use ext_attributes::Owner;
use ext_host::Held;
use ext_text::{OutOfMemory, Path, Text};
use ext_tree::{Entry, TreeErr};
use std::alloc::Global;

// The most bytes of the text of a link.
const MOST_TARGET: usize = 4096;

// The link to a path; `Path` exactly where its text is too long.
pub(crate) fn link_to(alloc: Global, path: &Path) -> Result<Entry<Held>, TreeErr>
    ensures ok { IfOk result (λ entry. (entry ≡ Link root_owner (absolute path.now)) × (fits_text (absolute path.now) ≡ true)) }
    ensures err { IfErr result (IsLongPath (fits_text (absolute path.now) ≡ false)) }
{
    link_below(alloc, path, &Path::root(alloc))
}

// The link to a path below another one, where both may be too long together.
pub(crate) fn link_below(alloc: Global, above: &Path, below: &Path) -> Result<Entry<Held>, TreeErr>
    ensures ok { IfOk result (λ entry. (entry ≡ Link root_owner (absolute (above.now ++ below.now)))
        × (fits_text (absolute (above.now ++ below.now)) ≡ true)) }
    ensures err { IfErr result (IsLongPath (fits_text (absolute (above.now ++ below.now)) ≡ false)) }
{
    let text = text_below(alloc, above, below)?;
    if text.bytes().len() > MOST_TARGET {
        return Err(TreeErr::Path);
    }
    Ok(Entry::Link(Owner::root(), text))
}

// The path below the other one, as it is written for a reader.
fn text_below(alloc: Global, above: &Path, below: &Path) -> Result<Text, OutOfMemory>
    ensures { IfOk result (λ text. text ≡ absolute (above.now ++ below.now)) }
{
    let mut bytes = Vec::new(alloc);
    bytes.push(b'/')?;
    append_both(&mut bytes, above.text(), below.text())?;
    Ok(Text::from_vec(bytes))
}

// Appends the text of one path below another one.
fn append_both(bytes: &mut Vec<u8>, above: &[u8], below: &[u8]) -> Result<(), OutOfMemory>
    ensures { OnOk result (bytes.new.items ≡ bytes.old.items ++ text_of_both above.now below.now) }
{
    bytes.extend_from_slice(above)?;
    if !above.is_empty() && !below.is_empty() {
        bytes.push(b'/')?;
    }
    bytes.extend_from_slice(below)?;
    Ok(())
}
