// The paths of the store.
ghost use Rattle.std.specs.Prelude.{◌≡◌, [], ◌∷◌, ◌++◌, IfOk};
ghost use Rattle.ext_text.specs.Name.{IsName};
ghost use Rattle.ext_store_files.specs.Names.{IsFileNumber, current_path, next_path, generation_name, generation_path, index_path, home_folder, home_path};

use crate::names::generation_name;
use ext_lines::five_digits;
use ext_text::{Name, OutOfMemory, Path};
use std::alloc::Global;

/// How many files have their homes in one folder.
pub const FILES_OF_A_FOLDER: u32 = 256;

/// The path of the store folder: the root of its disk.
pub fn store_folder(alloc: Global) -> Path
    ensures { result ≡ [] }
{
    Path::root(alloc)
}

/// The path of `current`, the file that names the current generation.
///
/// # Errors
/// `OutOfMemory` alone.
pub fn current_path(alloc: Global) -> Result<Path, OutOfMemory>
    ensures { IfOk result (λ path. path ≡ current_path) }
{
    child(alloc, &store_folder(alloc), b"current")
}

/// The path of `next`, the coming `current`.
///
/// # Errors
/// `OutOfMemory` alone.
pub fn next_path(alloc: Global) -> Result<Path, OutOfMemory>
    ensures { IfOk result (λ path. path ≡ next_path) }
{
    child(alloc, &store_folder(alloc), b"next")
}

/// The path of a generation's folder.
///
/// # Errors
/// `OutOfMemory` alone.
pub fn generation_path(alloc: Global, generation: u32) -> Result<Path, OutOfMemory>
    ensures { IfOk result (λ path. path ≡ generation_path generation) }
{
    child(
        alloc,
        &store_folder(alloc),
        generation_name(alloc, generation)?.as_slice(),
    )
}

/// The path of a generation's index.
///
/// # Errors
/// `OutOfMemory` alone.
pub fn index_path(alloc: Global, generation: u32) -> Result<Path, OutOfMemory>
    ensures { IfOk result (λ path. path ≡ index_path generation) }
{
    child(alloc, &generation_path(alloc, generation)?, b"index")
}

/// The path of the folder of a generation's file: 256 files have one folder.
///
/// # Errors
/// `OutOfMemory` alone.
pub fn home_folder(alloc: Global, generation: u32, file: u32) -> Result<Path, OutOfMemory>
    requires { IsFileNumber file }
    ensures { IfOk result (λ path. path ≡ home_folder generation file) }
{
    child(
        alloc,
        &generation_path(alloc, generation)?,
        &five_digits(file)[..3],
    )
}

/// The path at which a generation's file stands.
///
/// # Errors
/// `OutOfMemory` alone.
pub fn home_path(alloc: Global, generation: u32, file: u32) -> Result<Path, OutOfMemory>
    requires { IsFileNumber file }
    ensures { IfOk result (λ path. path ≡ home_path generation file) }
{
    child(
        alloc,
        &home_folder(alloc, generation, file)?,
        &five_digits(file)[3..],
    )
}

/// The path of the name of these bytes in a folder.
///
/// # Errors
/// `OutOfMemory`, also where the bytes are no name or the path would be none.
pub(crate) fn child(alloc: Global, dir: &Path, bytes: &[u8]) -> Result<Path, OutOfMemory>
    ensures { IfOk result (λ path. path ≡ dir.now ++ bytes.now ∷ []) }
{
    child_named(dir, &name(alloc, bytes)?)
}

// The name of these bytes. The store makes its names itself, so bytes that are no name are answered like a lack of memory.
fn name(alloc: Global, bytes: &[u8]) -> Result<Name, OutOfMemory>
    ensures same { IfOk result (λ name. name ≡ bytes.now) }
    ensures valid { IfOk result IsName }
{
    match Name::read(alloc, bytes) {
        Ok(name) => Ok(name),
        Err(_) => Err(OutOfMemory),
    }
}

/// The path of a name in a folder.
///
/// # Errors
/// `OutOfMemory`, also where the path would be none.
pub(crate) fn child_named(dir: &Path, name: &Name) -> Result<Path, OutOfMemory>
    ensures { IfOk result (λ path. path ≡ dir.now ++ name.now ∷ []) }
{
    match dir.child(name) {
        Ok(path) => Ok(path),
        Err(_) => Err(OutOfMemory),
    }
}
