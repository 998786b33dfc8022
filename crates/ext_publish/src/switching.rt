// The switch from the old manifest to the new one.
ghost use Rattle.std.specs.Prelude.{◌≡◌, IfErr, IfSome};
ghost use Rattle.std.specs.Result.{is_ok};
ghost use Rattle.ext_text.specs.Causes.{Rose};
ghost use Rattle.ext_disk.specs.Calls.{Does, MayCall, rename};
ghost use Rattle.ext_disk.specs.Disk.{BothTold};
ghost use Rattle.ext_disk.specs.Fixed.{Spares};
ghost use Rattle.ext_published.specs.Places.{ArePlaces};
ghost use Rattle.ext_publish.specs.Switching.{IsSwitchable, Switches, is_switched_at};
ghost use Rattle.ext_publish.specs.declared.stop.Stop.TheVariants as stops;

use crate::copying::write_at;
use crate::folders::sync_at;
use crate::stop::Stop;
use ext_disk::Disk;
use ext_published::{Asked, Places};
use ext_text::Path;

/// Writes the new manifest beside the old one, syncs it and its folder, renames it to the manifest, and syncs the folder.
///
/// All files that it lists are synced before, and so is the new manifest: a stop leaves the old manifest or the new one, and
/// whichever it is, all that it lists.
pub(crate) fn switch<O: Disk>(
    out: &mut O,
    asked: &Asked,
    places: &Places,
    manifest: &[u8],
) -> Result<(), Stop>
    requires places { ArePlaces asked.now places.now }
    requires may { IfSome (O.state out.old).told (λ d. IsSwitchable asked.now d.places) }
    ensures spares { Spares (is_switched_at asked.now) (O.state out.old) (O.state out.new) }
    ensures switches { BothTold (Switches result asked.now manifest.now) (O.state out.old).told (O.state out.new).told }
    ensures cause { IfErr result (λ e. (e ≡ stops.OutFault) × Rose (O.state out.old).faults (O.state out.new).faults) }
{
    write_at(out, &places.coming, manifest)?;
    sync_at(out, asked.folder())?;
    rename_to(out, &places.coming, &places.manifest)?;
    sync_at(out, asked.folder())
}

// Renames the new manifest to the old one.
fn rename_to<O: Disk>(out: &mut O, from: &Path, to: &Path) -> Result<(), Stop>
    requires { MayCall (rename from.now to.now) (O.state out.old) }
    ensures does { Does (rename from.now to.now) (O.state out.old) (O.state out.new) (is_ok result) }
    ensures cause { IfErr result (λ e. (e ≡ stops.OutFault) × Rose (O.state out.old).faults (O.state out.new).faults) }
{
    match out.rename(from, to) {
        Ok(()) => Ok(()),
        Err(_) => Err(Stop::OutFault),
    }
}
