// What transfers are read and chosen by.
ghost use Rattle.std.specs.Prelude.{◌≤◌};
ghost use Rattle.std.specs.Option.{option_copied};
ghost use Rattle.ext_host.specs.Planning.{ServesAll};
ghost use Rattle.ext_feature.specs.Steps.{GivesBasis};

use crate::errors::ActiveErr;
use crate::feature::Features;
use crate::listing::features;
use ext_find::host_release;
use ext_host::{Held, Shelf};
use ext_release::Release;
use ext_text::Arch;
use ext_transfer::Component;
use ext_tree::Tree;
use std::alloc::Global;

// The features of a component, the release of the host, if it has one, and its architecture.
#[derive(Drop)]
pub(crate) struct Basis {
    pub(crate) features: Features,
    pub(crate) host: Option<Release>,
    pub(crate) arch: Arch,
}

// Reads the feature files, and then the host's release file.
pub(crate) fn basis_of<H: Shelf>(
    alloc: Global,
    base: &Tree<Held>,
    arch: Arch,
    component: Option<&Component>,
    shelf: &mut H,
) -> Result<Basis, ActiveErr>
    requires { ServesAll (H.serves shelf.old) base.now }
    ensures gives { GivesBasis (H.told shelf.old) (H.faults shelf.old) (H.faults shelf.new) base.now arch
        (option_copied component.entry) result }
    ensures stays { H.stays shelf.old shelf.new }
    ensures count { H.faults shelf.old ≤ H.faults shelf.new }
{
    let features = features(alloc, base, component, shelf)?;
    let host = host_release(alloc, base, shelf)?;
    Ok(Basis {
        features,
        host,
        arch,
    })
}
