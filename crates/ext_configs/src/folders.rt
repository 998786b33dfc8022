// The folders of configuration files.
ghost use Rattle.std.specs.Prelude.{◌≡◌, [], ◌∷◌, ◌++◌, length, IfOk};
ghost use Rattle.std.specs.Option.{option_copied};
ghost use Rattle.ext_walk.specs.Walk.{parts};
ghost use Rattle.ext_configs.specs.Folders.{IsFolderText, IsRootText, config_folder, config_roots};

use ext_text::{OutOfMemory, Text};
use ext_transfer::Component;
use std::alloc::Global;

// How many directories hold the folders.
pub(crate) fn count_of_roots() -> usize
    ensures { result ≡ length config_roots }
{
    4
}

// The text of the directory with this index, counted from 0, that holds folders.
pub(crate) fn root_text(index: usize) -> Option<&'static [u8]>
    ensures { IsRootText index result }
{
    match index {
        0 => Some(b"etc"),
        1 => Some(b"run"),
        2 => Some(b"usr/local/lib"),
        3 => Some(b"usr/lib"),
        _ => None,
    }
}

// The text of the folder with this index, counted from 0, of a component, or of none.
pub(crate) fn folder_text(
    alloc: Global,
    component: Option<&Component>,
    index: usize,
) -> Result<Option<Text>, OutOfMemory>
    ensures { IfOk result (IsFolderText (option_copied component.entry) index) }
{
    match root_text(index) {
        None => Ok(None),
        Some(root) => Ok(Some(text_below(alloc, root, folder_of(component))?)),
    }
}

// The name of the folders of a component, or of none.
fn folder_of(component: Option<&Component>) -> &[u8]
    ensures same { result.now ≡ config_folder (option_copied component.entry) }
    ensures part { parts result.now ≡ config_folder (option_copied component.entry) ∷ [] }
{
    match component {
        None => b"sysupdate.d",
        Some(component) => component.folder().bytes(),
    }
}

// The text of a name below the directory of a text.
fn text_below(alloc: Global, directory: &[u8], name: &[u8]) -> Result<Text, OutOfMemory>
    ensures { IfOk result (λ text. text ≡ directory.now ++ 47 ∷ name.now) }
{
    let mut text = Text::from_bytes(alloc, directory)?;
    text.append(b"/")?;
    text.append(name)?;
    Ok(text)
}
