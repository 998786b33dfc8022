// What the depot has of one resource.
ghost use Rattle.std.specs.Prelude.{◌≡◌, ◌≢◌, ◌↔◌, Err, IfErr, IfOk, IsTrue, Ok};
ghost use Rattle.sha2.specs.Sha256.{sha256};
ghost use Rattle.ext_depot.specs.Depot.{IsKept};
ghost use Rattle.ext_depot.specs.declared.depot_text.DepotText.TheVariants.{Whole};
ghost use Rattle.ext_transfer.specs.declared.transfer.ResourceType.TheVariants as types;
ghost use Rattle.ext_resources.specs.Told.{IfToldReason, IsContentTold, ResourceCause, TellsDirectory, TellsTree, file_content};
ghost use Rattle.ext_resources.specs.declared.resource_err.ResourceErr.TheVariants.{Fault};

use crate::resource::Content;
use crate::resource_err::ResourceErr;
use ext_depot::{Depot, DepotText, read_depot_text};
use ext_host::stamp_of;
use ext_text::{Digest, Path, Text};
use ext_transfer::ResourceType;
use ext_tree::{Stamp, TreeTextErr, read_tree};
use std::alloc::Global;

/// The most bytes of a file.
const MOST_FILE: u64 = 1_073_741_824;

// What the depot has of a resource of this type, at the path of what is listed, with the listed digest.
pub(crate) fn content_at<P: Depot>(
    alloc: Global,
    resources: ResourceType,
    path: Path,
    digest: &Digest,
    depot: &mut P,
) -> Result<Content, ResourceErr>
    ensures gives { IfOk result (λ content. IsContentTold resources (P.state depot.old).contents path digest.now (Ok content)) }
    ensures refused { IfErr result (IfToldReason (λ e. IsContentTold resources (P.state depot.old).contents path digest.now (Err e))) }
    ensures kept { IsKept (P.state depot.old) (P.state depot.new) }
    ensures cause { IfErr result (ResourceCause (P.state depot.old).faults (P.state depot.new).faults) }
{
    match resources {
        ResourceType::File => file_at(path, digest, depot),
        ResourceType::Directory => directory_at(alloc, path, digest, depot),
    }
}

// The file at a path.
fn file_at<P: Depot>(path: Path, digest: &Digest, depot: &mut P) -> Result<Content, ResourceErr>
    ensures gives { IfOk result (λ content. IsContentTold types.File (P.state depot.old).contents path digest.now (Ok content)) }
    ensures refused { IfErr result (IfToldReason (λ e. IsContentTold types.File (P.state depot.old).contents path digest.now (Err e))) }
    ensures kept { IsKept (P.state depot.old) (P.state depot.new) }
    ensures cause { IfErr result (ResourceCause (P.state depot.old).faults (P.state depot.new).faults) }
{
    match depot.size(&path) {
        Ok(size) => file_of(path, digest, size),
        Err(_failed) => Err(ResourceErr::Fault),
    }
}

// A file of the size that was found.
fn file_of(path: Path, digest: &Digest, size: Option<u64>) -> Result<Content, ResourceErr>
    ensures { result ≡ file_content path digest.now size }
{
    match size {
        None => Err(ResourceErr::NotInDepot { path }),
        Some(size) if size > MOST_FILE => Err(ResourceErr::FileTooLarge { path }),
        Some(size) => Ok(Content::File(Stamp {
            size,
            digest: *digest,
        })),
    }
}

// The directory of which the text of the tree stands at a path.
fn directory_at<P: Depot>(
    alloc: Global,
    path: Path,
    digest: &Digest,
    depot: &mut P,
) -> Result<Content, ResourceErr>
    ensures gives { IfOk result (λ content. IsContentTold types.Directory (P.state depot.old).contents path digest.now (Ok content)) }
    ensures refused { IfErr result (IfToldReason (λ e.
        IsContentTold types.Directory (P.state depot.old).contents path digest.now (Err e))) }
    ensures kept { IsKept (P.state depot.old) (P.state depot.new) }
    ensures cause { IfErr result (ResourceCause (P.state depot.old).faults (P.state depot.new).faults) }
{
    let found = read_depot_text(alloc, depot, &path)?;
    directory_of(alloc, path, digest, found)
}

// The directory of which this text was found.
fn directory_of(
    alloc: Global,
    path: Path,
    digest: &Digest,
    found: DepotText,
) -> Result<Content, ResourceErr>
    ensures gives { IfOk result (λ content. TellsDirectory path digest.now found (Ok content)) }
    ensures refused { IfErr result (IfToldReason (λ e. TellsDirectory path digest.now found (Err e))) }
    ensures faultless { IfErr result (λ e. e ≢ Fault) }
{
    match found {
        DepotText::Absent => Err(ResourceErr::NotInDepot { path }),
        DepotText::TooLong => Err(ResourceErr::TextTooLong { path }),
        DepotText::Whole(text) => directory_in(alloc, path, digest, &text),
    }
}

// The directory of this text, where it has the listed digest.
fn directory_in(
    alloc: Global,
    path: Path,
    digest: &Digest,
    text: &Text,
) -> Result<Content, ResourceErr>
    ensures gives { IfOk result (λ content. TellsDirectory path digest.now (Whole text.now) (Ok content)) }
    ensures refused { IfErr result (IfToldReason (λ e. TellsDirectory path digest.now (Whole text.now) (Err e))) }
    ensures faultless { IfErr result (λ e. e ≢ Fault) }
{
    let found = stamp_of(text.bytes());
    if found.digest.0 == digest.0 {
        return tree_in(alloc, path, text);
    }
    let listed = Stamp {
        size: found.size,
        digest: *digest,
    };
    Err(ResourceErr::Mismatch {
        path,
        listed,
        found,
    })
}

// The directory of the tree of a text.
fn tree_in(alloc: Global, path: Path, text: &Text) -> Result<Content, ResourceErr>
    ensures gives { IfOk result (λ content. TellsTree path text.now (Ok content)) }
    ensures refused { IfErr result (IfToldReason (λ e. TellsTree path text.now (Err e))) }
    ensures faultless { IfErr result (λ e. e ≢ Fault) }
{
    match read_tree(alloc, text.bytes()) {
        Ok(tree) => Ok(Content::Directory(tree)),
        Err(TreeTextErr::BadTree { line }) => Err(ResourceErr::BadTree { path, line }),
        Err(TreeTextErr::OutOfMemory) => Err(ResourceErr::OutOfMemory),
    }
}
