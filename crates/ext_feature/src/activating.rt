// The transfers of a component that are on.
ghost use Rattle.std.specs.Prelude.{◌≡◌, ◌≤◌, IfOk};
ghost use Rattle.std.specs.List.{AllByRecursion, filter};
ghost use Rattle.std.specs.Option.{option_copied};
ghost use Rattle.ext_host.specs.Planning.{ServesAll};
ghost use Rattle.ext_transfer.specs.Bounds.{KeepsBounds};
ghost use Rattle.ext_feature.specs.Active.{ActiveGives};
ghost use Rattle.ext_feature.specs.Chosen.{is_on};
ghost use Rattle.ext_feature.specs.Steps.{AreSorted, Chooses, TransfersGive};

use crate::basis::{Basis, basis_of};
use crate::choosing::is_on;
use crate::errors::ActiveErr;
use crate::feature::{Feature, Transfers};
use crate::loading::read_transfers;
use ext_configs::{ConfigKind, config_files};
use ext_host::{Held, Shelf};
use ext_text::Arch;
use ext_transfer::Component;
use ext_tree::Tree;
use std::alloc::Global;

/// The transfers of a component that are on, or those of a host's updates beside all components, in byte order of the names of
/// their files; one at least. A transfer is on where one of the features is on that its `Features=` lists, if it lists any, and
/// each that its `RequisiteFeatures=` lists. A feature that isn't there is off. After sysupdate.d(5).
///
/// The files are those of [`config_files`]. [`features`](crate::features) reads the features,
/// [`host_release`](ext_find::host_release) the release of the host, of which nothing is set where it has no such file, and
/// [`read_transfer`](ext_transfer::read_transfer) each transfer, whether it is on or not.
///
/// # Errors
/// The first of these; their order is this project's own choice:
///
/// - `BadFeature` with the first feature file that is faulty, in byte order of the names of the files, and its first fault.
/// - `BadHostRelease` with the first faulty line of the host's release file.
/// - `NoTransfers` exactly where no transfer file counts.
/// - `BadTransfer` with the first transfer file that is faulty, in byte order of the names of the files, and its first fault.
/// - `NoneOn` exactly where there are transfers and none is on.
///
/// And while files are read:
///
/// - `Shelf` where the shelf does not give the bytes of one of these files, for the cause that it has: a fault only where its
///   count rose, damage only of that file.
/// - `OutOfMemory`.
///
/// Whatever the answer, the shelf tells the same afterwards.
pub fn active<H: Shelf>(
    alloc: Global,
    base: &Tree<Held>,
    arch: Arch,
    component: Option<&Component>,
    shelf: &mut H,
) -> Result<Transfers, ActiveErr>
    requires { ServesAll (H.serves shelf.old) base.now }
    ensures gives { ActiveGives (H.told shelf.old) (H.faults shelf.old) (H.faults shelf.new) base.now arch
        (option_copied component.entry) result }
    ensures bounds { IfOk result (AllByRecursion KeepsBounds) }
    ensures stays { H.stays shelf.old shelf.new }
    ensures count { H.faults shelf.old ≤ H.faults shelf.new }
{
    let basis = basis_of(alloc, base, arch, component, shelf)?;
    let transfers = transfers_of(alloc, base, component, &basis, shelf)?;
    those_on(transfers, basis.features.as_slice())
}

// The transfers of a component, one at least.
fn transfers_of<H: Shelf>(
    alloc: Global,
    base: &Tree<Held>,
    component: Option<&Component>,
    basis: &Basis,
    shelf: &mut H,
) -> Result<Transfers, ActiveErr>
    requires { ServesAll (H.serves shelf.old) base.now }
    ensures gives { TransfersGive (H.told shelf.old) (H.faults shelf.old) (H.faults shelf.new) base.now basis.now.arch basis.now.host
        (option_copied component.entry) result }
    ensures stays { H.stays shelf.old shelf.new }
    ensures count { H.faults shelf.old ≤ H.faults shelf.new }
{
    let files = config_files(alloc, base, component, ConfigKind::Transfer)?;
    let all = files.as_slice();
    if all.is_empty() {
        return Err(ActiveErr::NoTransfers);
    }
    read_transfers(alloc, all, basis, shelf)
}

// Those of the transfers that are on, one at least.
fn those_on(transfers: Transfers, features: &[Feature]) -> Result<Transfers, ActiveErr>
    requires { AreSorted features.now }
    ensures { Chooses features.now transfers result }
{
    let on = chosen(transfers, features);
    if on.is_empty() {
        return Err(ActiveErr::NoneOn);
    }
    Ok(on)
}

// Those of the transfers that are on.
fn chosen(transfers: Transfers, features: &[Feature]) -> Transfers
    requires { AreSorted features.now }
    ensures { result ≡ filter (is_on features.now) transfers }
{
    let mut on = transfers.into_vec();
    on.retain(|transfer| is_on(features, transfer));
    Transfers::from_vec(on)
}
