// What is published.
ghost use Rattle.std.specs.Prelude.{◌≡◌, IfOk, Some};
ghost use Rattle.ext_tree.specs.Tree.{lookup};
ghost use Rattle.ext_published.specs.Payload.{GivesPayload, IsNoOtherAt};
ghost use Rattle.ext_published.specs.Published.{text_of_payload};

use ext_host::{Held, stamps};
use ext_text::{OutOfMemory, Path, Text};
use ext_tree::{Entry, Held1, Tree, TreeErr, write_tree};
use std::alloc::Global;
use thiserror::Error;

/// What is published: a directory with all below it, or a file.
#[derive(Drop)]
pub enum Payload {
    /// What stands below a directory, or below the root.
    Directory(Tree<Held>),
    /// A file.
    File(Held),
}

/// Why nothing is published.
#[derive(Clone, Copy, Debug, PartialEq, Eq, Error)]
pub enum PayloadErr {
    /// An allocation failed.
    #[error("out of memory")]
    OutOfMemory,
    /// Nothing stands at the path.
    #[error("no entry")]
    NoEntry,
    /// What stands at the path is neither a directory nor a file.
    #[error("neither a directory nor a file")]
    NotFile,
}

impl From<OutOfMemory> for PayloadErr {
    ghost use Rattle.std.specs.Prelude.{◌≡◌};
    ghost use Rattle.ext_published.specs.declared.payload.PayloadErr.TheVariants as errors;

    ghost from_gives = { λ _ e. e ≡ errors.OutOfMemory };

    fn from(_failed: OutOfMemory) -> PayloadErr {
        PayloadErr::OutOfMemory
    }
}

/// What a host's tree has at a path, copied, to be published. Below the root that is the whole tree. Links are not followed.
///
/// # Errors
/// - `NoEntry` exactly where nothing stands there, and the path is not the root.
/// - `NotFile` exactly where neither a directory nor a file stands there.
/// - `OutOfMemory`.
pub fn payload_at(alloc: Global, root: &Tree<Held>, path: &Path) -> Result<Payload, PayloadErr>
    ensures { GivesPayload root.now path.now result }
{
    match root.get(path) {
        None => directory_at(root, path),
        Some(entry) => entry_at(alloc, root, path, entry),
    }
}

// What is published of an entry.
fn entry_at(
    alloc: Global,
    root: &Tree<Held>,
    path: &Path,
    entry: &Entry<Held>,
) -> Result<Payload, PayloadErr>
    requires { lookup root.now path.now ≡ Some entry.now }
    ensures { GivesPayload root.now path.now result }
{
    match entry {
        Entry::File(_, held) => Ok(Payload::File(held.copy(alloc)?)),
        Entry::Link(_, _) => Err(PayloadErr::NotFile),
        Entry::Hide => Err(PayloadErr::NotFile),
        Entry::Dir(_) => directory_at(root, path),
        Entry::Opaque(_) => directory_at(root, path),
    }
}

// What stands below a directory or the root.
fn directory_at(root: &Tree<Held>, path: &Path) -> Result<Payload, PayloadErr>
    requires { IsNoOtherAt root.now path.now }
    ensures { GivesPayload root.now path.now result }
{
    match root.part(path) {
        Ok(tree) => Ok(Payload::Directory(tree)),
        Err(TreeErr::NotDirectory) => Err(PayloadErr::NoEntry),
        Err(TreeErr::OutOfMemory) => Err(PayloadErr::OutOfMemory),
        Err(TreeErr::Exists) => Err(PayloadErr::OutOfMemory),
        Err(TreeErr::Limit) => Err(PayloadErr::OutOfMemory),
        Err(TreeErr::Path) => Err(PayloadErr::OutOfMemory),
    }
}

/// The text of a directory's tree, whose files are known by their stamps; none of a file.
///
/// # Errors
/// `OutOfMemory` alone.
pub fn text_of_payload(alloc: Global, payload: &Payload) -> Result<Option<Text>, OutOfMemory>
    ensures { IfOk result (λ text. text ≡ text_of_payload payload.now) }
{
    match payload {
        Payload::File(_) => Ok(None),
        Payload::Directory(tree) => Ok(Some(write_tree(alloc, &stamps(alloc, tree)?)?)),
    }
}
