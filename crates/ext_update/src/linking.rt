// The links to the current version.
ghost use Rattle.std.specs.Prelude.{◌≡◌, ◌++◌, IfOk, OnOk};
ghost use Rattle.std.specs.Option.{option_copied};
ghost use Rattle.ext_update.specs.Drafts.{link_if, links_of};

use crate::currents::currents;
use crate::draft::{Current, CurrentLink};
use ext_installed::Instance;
use ext_resources::Resource;
use ext_text::OutOfMemory;
use ext_transfer::Transfer;
use std::alloc::Global;

// The links of the transfers to the version, in the order of the transfers.
pub(crate) fn links_of(
    alloc: Global,
    transfers: &[Transfer],
    items: &[Instance],
    resources: &[Resource],
    version: &[u8],
) -> Result<Vec<CurrentLink>, OutOfMemory>
    ensures { IfOk result (λ links. links.items ≡ links_of transfers.now items.now resources.now version.now) }
{
    let currents = currents(alloc, items, resources, version)?;
    let mut links = Vec::new(alloc);
    'transfers: for (place, transfer) in transfers.iter().enumerate() {
        append_link(&mut links, transfer, currents.get(&place))?;
    }
    Ok(links)
}

// Appends the link of a transfer, where one is to be set and there is something that it names.
fn append_link(
    links: &mut Vec<CurrentLink>,
    transfer: &Transfer,
    current: Option<&Current>,
) -> Result<(), OutOfMemory>
    ensures { OnOk result (links.new.items ≡ links.old.items ++ link_if transfer.now (option_copied current.entry)) }
{
    match (&transfer.link, current) {
        (Some(link), Some(current)) => {
            let path = link.copy()?;
            let target = transfer.target.path.copy()?;
            let current = current.copy()?;
            links.push(CurrentLink {
                path,
                target,
                current,
            })?;
            Ok(())
        }
        (Some(_), None) | (None, _) => Ok(()),
    }
}
