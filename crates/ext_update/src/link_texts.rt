// The texts of links to the current version.
ghost use Rattle.std.specs.Prelude.{◌≡◌, ◌++◌, [], ◌∷◌, IfOk};
ghost use Rattle.ext_text.specs.Absolute.{absolute};
ghost use Rattle.ext_text.specs.Name.{IsName};
ghost use Rattle.ext_update.specs.Drafts.{IsLinkText, IsSet, current_path};
ghost use Rattle.ext_update.specs.Writing.{link_text};

use crate::draft::{Current, CurrentLink};
use ext_text::{OutOfMemory, PathRef, Text};
use std::alloc::Global;

// The text of a link: the name of what it names, where that stands beside it, and else the path from the root on.
pub(crate) fn link_text(alloc: Global, link: &CurrentLink) -> Result<Text, OutOfMemory>
    requires { IsSet link.now }
    ensures text { IfOk result (λ text. text ≡ link_text link.now.target link.now.path (current_path link.now.target link.now.current)) }
    ensures shape { IfOk result IsLinkText }
{
    let (directory, name) = named(link);
    if link.path.parent().cmp(&link.target.names()).is_eq() {
        Text::from_bytes(alloc, name)
    } else {
        absolute_text(alloc, &directory, name)
    }
}

// The directory and the name of what a link names.
fn named(link: &CurrentLink) -> (PathRef<'_>, &[u8])
    requires { IsSet link.now }
    ensures path { current_path link.now.target link.now.current ≡ result.0 ++ result.1.now ∷ [] }
    ensures name { IsName result.1.now }
{
    match &link.current {
        Current::Had(path) => match path.names().split_last() {
            Some(parts) => parts,
            None => unreachable!(),
        },
        Current::Written(name) => (link.target.names(), name.bytes()),
    }
}

// The path of a name in a directory, as it is written for a reader.
fn absolute_text(alloc: Global, directory: &PathRef, name: &[u8]) -> Result<Text, OutOfMemory>
    requires { IsName name.now }
    ensures text { IfOk result (λ text. text ≡ absolute (directory.now ++ name.now ∷ [])) }
    ensures shape { IfOk result IsLinkText }
{
    let mut bytes = Vec::new(alloc);
    bytes.push(b'/')?;
    bytes.extend_from_slice(directory.text())?;
    if !directory.is_root() {
        bytes.push(b'/')?;
    }
    bytes.extend_from_slice(name)?;
    Ok(Text::from_vec(bytes))
}
