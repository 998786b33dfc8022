// What kinds of things stand in the depot's folder where others should.
ghost use Rattle.std.specs.Prelude.{◌≡◌, ◌++◌, [], ◌∷◌, false, None, IfErr, IfOk, OnOk};
ghost use Rattle.ext_text.specs.Causes.{HasCause};
ghost use Rattle.ext_text.specs.Name.{IsName};
ghost use Rattle.ext_disk.specs.Disk.{is_file, is_folder};
ghost use Rattle.ext_disk.specs.Since.{Rests};
ghost use Rattle.ext_published.specs.Places.{published_manifest_path};
ghost use Rattle.ext_publish.specs.Out.{first_file, wrong_kind};
ghost use Rattle.ext_publish.specs.Looking.{KindOfFileCause, HoldsNow, KindCause, ManifestKindCause};

use crate::look_err::LookErr;
use ext_disk::{Disk, Kind};
use ext_io::Failed;
use ext_published::Asked;
use ext_text::{OutOfMemory, Path, PathRef};
use std::alloc::Global;

/// Looks whether a file stands where a folder should, or a folder where the manifest should.
///
/// # Errors
/// `OutKind` exactly where one does, with the least such path; a fault of the disk, out of memory. The disk is as before.
pub(crate) fn look_at_kinds<O: Disk>(
    alloc: Global,
    out: &mut O,
    asked: &Asked,
    manifest: &Path,
) -> Result<(), LookErr>
    requires { manifest.now ≡ published_manifest_path asked.now }
    ensures ok { OnOk result (HoldsNow (O.state out.old) (λ t. wrong_kind t asked.now ≡ None)) }
    ensures rests { Rests (O.state out.old) (O.state out.new) }
    ensures cause { IfErr result (KindCause (O.state out.old) (O.state out.new) (λ t. wrong_kind t asked.now)) }
{
    look_down(alloc, out, &asked.folder().names())?;
    look_at_manifest(out, manifest)
}

// Looks whether a file stands at a path from the root's child down, whose names these are.
fn look_down<O: Disk>(alloc: Global, out: &mut O, names: &PathRef) -> Result<(), LookErr>
    ensures ok { OnOk result (HoldsNow (O.state out.old) (λ t. first_file t [] names.now ≡ None)) }
    ensures rests { Rests (O.state out.old) (O.state out.new) }
    ensures cause { IfErr result (KindCause (O.state out.old) (O.state out.new) (λ t. first_file t [] names.now)) }
{
    let mut above = Path::root(alloc);
    let mut left = names.again();
    'names: loop {
        match left.split_first() {
            None => return Ok(()),
            Some((name, below)) => {
                above = step_down(out, &above, name)?;
                left = below;
            }
        }
    }
}

// The path of a name below a path, where no file stands.
fn step_down<O: Disk>(out: &mut O, above: &Path, name: &[u8]) -> Result<Path, LookErr>
    requires { IsName name.now }
    ensures path { IfOk result (λ path. path ≡ above.now ++ name.now ∷ []) }
    ensures free { IfOk result (λ path. HoldsNow (O.state out.old) (λ t. false ≡ is_file (t path))) }
    ensures rests { Rests (O.state out.old) (O.state out.new) }
    ensures cause { IfErr result (KindOfFileCause (O.state out.old) (O.state out.new) (above.now ++ name.now ∷ [])) }
{
    let path = child_in(above, name)?;
    if is_file_at(out, &path)? {
        return Err(LookErr::OutKind { path });
    }
    Ok(path)
}

// The path of a name below a path.
fn child_in(above: &Path, name: &[u8]) -> Result<Path, OutOfMemory>
    requires { IsName name.now }
    ensures { IfOk result (λ path. path ≡ above.now ++ name.now ∷ []) }
{
    match above.child_of(name) {
        Ok(path) => Ok(path),
        Err(_) => Err(OutOfMemory),
    }
}

// Whether a file stands at a path.
fn is_file_at<O: Disk>(out: &mut O, path: &Path) -> Result<bool, Failed>
    ensures is { IfOk result (λ is. HoldsNow (O.state out.old) (λ t. is ≡ is_file (t path.now))) }
    ensures rests { Rests (O.state out.old) (O.state out.new) }
    ensures cause { HasCause result (O.state out.old).faults (O.state out.new).faults }
{
    match out.kind(path)? {
        Some(Kind::File(_)) => Ok(true),
        Some(Kind::Dir) => Ok(false),
        None => Ok(false),
    }
}

// Looks whether a folder stands where the manifest should.
fn look_at_manifest<O: Disk>(out: &mut O, manifest: &Path) -> Result<(), LookErr>
    ensures ok { OnOk result (HoldsNow (O.state out.old) (λ t. is_folder (t manifest.now) ≡ false)) }
    ensures rests { Rests (O.state out.old) (O.state out.new) }
    ensures cause { IfErr result (ManifestKindCause (O.state out.old) (O.state out.new) manifest.now) }
{
    match out.kind(manifest)? {
        Some(Kind::Dir) => {
            let path = manifest.copy()?;
            Err(LookErr::OutKind { path })
        }
        Some(Kind::File(_)) => Ok(()),
        None => Ok(()),
    }
}
