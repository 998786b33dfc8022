// The names and the paths of resources.
ghost use Rattle.std.specs.Prelude.{◌≡◌, [], ◌∷◌, ◌++◌, codes, IfOk};
ghost use Rattle.ext_text.specs.Name.{IsName};
ghost use Rattle.ext_vers.specs.Version.{IsVersion};
ghost use Rattle.ext_transfer.specs.Bounds.{KeepsBounds};
ghost use Rattle.ext_available.specs.Resource.{listed_name};
ghost use Rattle.ext_resources.specs.Wanted.{first_filled, listed_path, resource_path};

use ext_available::Offer;
use ext_text::{Digest, Name, OutOfMemory, Path, PathErr, Text};
use ext_transfer::{ResourceType, Transfer};
use std::alloc::Global;

/// How a name ends by which a directory is listed.
const TREE: &[u8] = b".tree";

// The name that the first of the target's patterns makes of a version and a digest.
pub(crate) fn target_name(
    transfer: &Transfer,
    version: &[u8],
    digest: &Digest,
) -> Result<Name, OutOfMemory>
    requires bounds { KeepsBounds transfer.now }
    requires version { IsVersion version.now }
    ensures { IfOk result (λ name. name ≡ first_filled transfer.now.target.patterns version.now digest.now.0) }
{
    match transfer.target.patterns.as_slice() {
        [] => unreachable!(),
        [first, ..] => first.fill(version, digest),
    }
}

// The path of a resource.
pub(crate) fn resource_path(transfer: &Transfer, offer: &Offer) -> Result<Path, OutOfMemory>
    requires { KeepsBounds transfer.now }
    ensures { IfOk result (λ path. path ≡ resource_path transfer.now offer.now) }
{
    path_of(transfer, offer.name.bytes())
}

// The path of what is listed of a resource.
pub(crate) fn listed_path(
    alloc: Global,
    transfer: &Transfer,
    offer: &Offer,
) -> Result<Path, OutOfMemory>
    requires bounds { KeepsBounds transfer.now }
    requires listed { IsName (listed_name transfer.now.resources offer.now.name) }
    ensures { IfOk result (λ path. path ≡ listed_path transfer.now offer.now) }
{
    match transfer.resources {
        ResourceType::File => path_of(transfer, offer.name.bytes()),
        ResourceType::Directory => {
            let name = tree_name(alloc, offer.name.bytes())?;
            path_of(transfer, name.bytes())
        }
    }
}

// The name of the text of a directory's tree.
fn tree_name(alloc: Global, name: &[u8]) -> Result<Text, OutOfMemory>
    ensures { IfOk result (λ text. text ≡ name.now ++ codes ".tree") }
{
    let mut text = Text::from_bytes(alloc, name)?;
    text.append(TREE)?;
    Ok(text)
}

// The path of a name in the source.
fn path_of(transfer: &Transfer, name: &[u8]) -> Result<Path, OutOfMemory>
    requires bounds { KeepsBounds transfer.now }
    requires named { IsName name.now }
    ensures { IfOk result (λ path. path ≡ transfer.now.source.path ++ name.now ∷ []) }
{
    match transfer.source.path.child_of(name) {
        Ok(path) => Ok(path),
        Err(PathErr::OutOfMemory) => Err(OutOfMemory),
        Err(PathErr::TooLong) => unreachable!(),
        Err(PathErr::TooDeep) => unreachable!(),
        Err(PathErr::BadName) => unreachable!(),
    }
}
