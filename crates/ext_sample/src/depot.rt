// The depot of a sample.
ghost use Rattle.std.specs.Prelude.{◌≡◌, ◌≤◌, [], ◌∷◌, length, IfOk, OnOk};
ghost use Rattle.std.specs.List.{AllByRecursion};
ghost use Rattle.ext_text.specs.Name.{IsName};
ghost use Rattle.ext_text.specs.Path.{IsPath};
ghost use Rattle.ext_depot.specs.DepotView.{file_at};
ghost use Rattle.ext_sample.specs.Making.{IsSmallFile, IsTextOf, PutsBelow};
ghost use Rattle.ext_sample.specs.Sample.{IsSampleDepot, most_images};

use crate::files::{sample_host, sample_images};
use crate::tree::tree_of;
use ext_depot::MemoryDepot;
use ext_io::Calls;
use ext_text::{OutOfMemory, Path, PathErr, PathRef, Text};
use ext_tree::write_tree;
use std::alloc::Global;

/// The depot of a sample of so many images, at most 500: the resources `host` and `images`, each with its tree text and its
/// files. No call of it fails.
///
/// # Errors
/// Out of memory alone.
pub fn sample_depot(alloc: Global, images: u32) -> Result<MemoryDepot, OutOfMemory>
    requires { images ≤ most_images }
    ensures sample { IfOk result (λ depot. IsSampleDepot images (file_at depot)) }
    ensures quiet { IfOk result (λ depot. (depot.fails ≡ []) × (depot.calls ≡ 0) × (depot.faults ≡ 0)) }
{
    let of_host = sample_host(alloc, u64::from(images))?;
    let of_images = sample_images(alloc, u64::from(images))?;
    let host = tree_text(alloc, of_host.as_slice())?;
    let trees = tree_text(alloc, of_images.as_slice())?;
    let mut depot = MemoryDepot::new(alloc, Calls::new(alloc));
    put_files(alloc, &mut depot, b"images", of_images)?;
    put_files(alloc, &mut depot, b"host", of_host)?;
    depot.put(name_path(alloc, b"images.tree")?, trees)?;
    depot.put(name_path(alloc, b"host.tree")?, host)?;
    Ok(depot)
}

// The text of the tree of the files.
fn tree_text(alloc: Global, files: &[(Path, Text)]) -> Result<Text, OutOfMemory>
    requires small { AllByRecursion IsSmallFile files.now }
    requires few { length files.now ≤ 40000 }
    ensures { IfOk result (IsTextOf files.now) }
{
    let tree = tree_of(alloc, files)?;
    write_tree(alloc, &tree)
}

// Puts the files below a folder, of two with one path the first: it comes last, in the place of the other.
fn put_files(
    alloc: Global,
    depot: &mut MemoryDepot,
    folder: &[u8],
    files: Vec<(Path, Text)>,
) -> Result<(), OutOfMemory>
    requires name { IsName folder.now }
    requires short { length folder.now ≤ 100 }
    requires small { AllByRecursion IsSmallFile files.items }
    ensures { OnOk result (PutsBelow depot.old depot.new folder.now files.items) }
{
    let mut left = files;
    'files: loop {
        match left.pop() {
            None => return Ok(()),
            Some((path, bytes)) => depot.put(path_in(alloc, folder, &path)?, bytes)?,
        }
    }
}

// The path below a folder.
fn path_in(alloc: Global, folder: &[u8], path: &Path) -> Result<Path, OutOfMemory>
    requires name { IsName folder.now }
    requires short { IsPath (folder.now ∷ path.now) }
    ensures { IfOk result (λ whole. whole ≡ folder.now ∷ path.now) }
{
    match PathRef::of_name(folder).join(alloc, &path.names()) {
        Ok(whole) => Ok(whole),
        Err(PathErr::OutOfMemory) => Err(OutOfMemory),
        Err(PathErr::TooLong | PathErr::TooDeep | PathErr::BadName) => unreachable!(),
    }
}

// The path of one name.
fn name_path(alloc: Global, name: &[u8]) -> Result<Path, OutOfMemory>
    requires { IsName name.now }
    ensures { IfOk result (λ path. path ≡ name.now ∷ []) }
{
    Path::of_names(alloc, &PathRef::of_name(name))
}
