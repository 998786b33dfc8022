// Where in the depot a resource stands.
ghost use Rattle.std.specs.Prelude.{ℕ, List, ◌++◌, ◌∷◌, []};
ghost use Rattle.ext_text.specs.Name.{IsName};
ghost use Rattle.ext_text.specs.Path.{Lengthens};
ghost use Rattle.ext_published.specs.Places.{ChecksEntry, ChecksFiles, GivesPlaces, JoinsPath};

use crate::asked::Asked;
use ext_host::Held;
use ext_text::{OutOfMemory, Path, PathErr};
use ext_tree::{Entry, Tree};
use thiserror::Error;

/// The paths in a depot's folder that a resource of a name has.
#[derive(Drop)]
pub struct Places {
    /// The manifest, `SHA256SUMS`.
    pub manifest: Path,
    /// The manifest that is to be renamed to it, `SHA256SUMS.next`.
    pub coming: Path,
    /// The tree text of a directory.
    pub text: Path,
    /// The file, or the folder of a directory's files.
    pub resource: Path,
}

/// Why a resource has no paths.
#[derive(Clone, Copy, Debug, PartialEq, Eq, Error)]
pub enum PlacesErr {
    /// An allocation failed.
    #[error("out of memory")]
    OutOfMemory,
    /// A path passes the limits of one.
    #[error("a path of more than 64 names or 4,096 bytes")]
    Limit,
}

impl From<OutOfMemory> for PlacesErr {
    ghost use Rattle.std.specs.Prelude.{◌≡◌};
    ghost use Rattle.ext_published.specs.declared.places.PlacesErr.TheVariants as errors;

    ghost from_gives = { λ _ e. e ≡ errors.OutOfMemory };

    fn from(_failed: OutOfMemory) -> PlacesErr {
        PlacesErr::OutOfMemory
    }
}

/// The paths of what is asked.
///
/// # Errors
/// `Limit` exactly where one of them passes the limits of a path. `OutOfMemory` may come at any time.
pub fn places_of(asked: &Asked) -> Result<Places, PlacesErr>
    ensures { GivesPlaces asked.now result }
{
    let folder = asked.folder();
    let coming = child_of(folder, b"SHA256SUMS.next")?;
    let manifest = child_of(folder, b"SHA256SUMS")?;
    let text = child_of(folder, asked.tree_text_name().bytes())?;
    let resource = child_of(folder, asked.name().bytes())?;
    Ok(Places {
        manifest,
        coming,
        text,
        resource,
    })
}

// The path of a name in a folder.
fn child_of(folder: &Path, name: &[u8]) -> Result<Path, PlacesErr>
    requires { IsName name.now }
    ensures { JoinsPath (folder.now ++ name.now ∷ []) result }
{
    joined(folder.child_of(name))
}

// What a longer path is here.
fn joined(longer: Result<Path, PathErr>) -> Result<Path, PlacesErr>
    ensures { (names : List (List ℕ)) → Lengthens names longer → JoinsPath names result }
{
    match longer {
        Ok(path) => Ok(path),
        Err(PathErr::OutOfMemory) => Err(PlacesErr::OutOfMemory),
        Err(PathErr::TooLong) => Err(PlacesErr::Limit),
        Err(PathErr::TooDeep) => Err(PlacesErr::Limit),
        Err(PathErr::BadName) => Err(PlacesErr::Limit),
    }
}

/// Looks whether the path of each file of a tree, below the path of its resource, is within the limits of a path.
///
/// # Errors
/// `Limit` exactly where one is not. `OutOfMemory` may come at any time.
pub fn check_files(resource: &Path, tree: &Tree<Held>) -> Result<(), PlacesErr>
    ensures { ChecksFiles resource.now tree.now result }
{
    check_pairs(resource, tree.pairs())
}

// The same of entries.
fn check_pairs(resource: &Path, pairs: &[(Path, Entry<Held>)]) -> Result<(), PlacesErr>
    ensures { ChecksFiles resource.now pairs.now result }
{
    'pairs: for pair in pairs {
        check_pair(resource, pair)?;
    }
    Ok(())
}

// The same of one entry.
fn check_pair(resource: &Path, pair: &(Path, Entry<Held>)) -> Result<(), PlacesErr>
    ensures { ChecksEntry resource.now pair.now result }
{
    if !pair.1.is_file() {
        return Ok(());
    }
    let _path = joined(resource.join(&pair.0))?;
    Ok(())
}
