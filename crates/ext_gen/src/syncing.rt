// The store folder is synced.
ghost use Rattle.std.specs.Prelude.{◌≡◌, [], is_ok};
ghost use Rattle.ext_text.specs.Causes.{HasCause};
ghost use Rattle.ext_disk.specs.Calls.{Does, sync_dir};

use ext_disk::Disk;
use ext_io::Failed;
use ext_text::Path;

/// Syncs the names in the store folder: a switch that was cut off before, or was just made, is synced so.
///
/// # Errors
/// The disk had a fault, and is as before.
pub(crate) fn sync_store<D: Disk>(disk: &mut D, folder: &Path) -> Result<(), Failed>
    requires { folder.now ≡ [] }
    ensures does { Does (sync_dir []) (D.state disk.old) (D.state disk.new) (is_ok result) }
    ensures cause { HasCause result (D.state disk.old).faults (D.state disk.new).faults }
{
    disk.sync_dir(folder)
}
