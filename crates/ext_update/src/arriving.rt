// Resources with where they go.
ghost use Rattle.std.specs.Prelude.{◌≡◌, ◌<◌, length, map, IfOk};
ghost use Rattle.std.specs.List.{AllByRecursion};
ghost use Rattle.ext_update.specs.Drafts.{IsOfTransfer, arrival_of};

use crate::draft::Arrival;
use ext_resources::Resource;
use ext_text::OutOfMemory;
use ext_transfer::Transfer;
use std::alloc::Global;

// The resources with where they go, in their order.
pub(crate) fn arrivals(
    alloc: Global,
    transfers: &[Transfer],
    resources: Vec<Resource>,
) -> Result<Vec<Arrival>, OutOfMemory>
    requires { AllByRecursion (IsOfTransfer transfers.now) resources.items }
    ensures { IfOk result (λ arrivals. arrivals.items ≡ map (arrival_of transfers.now) resources.items) }
{
    let mut arrivals = Vec::with_capacity(alloc, resources.len())?;
    'resources: for resource in resources {
        arrivals.push(arrival(transfers, resource)?)?;
    }
    Ok(arrivals)
}

// The resource with where it goes.
fn arrival(transfers: &[Transfer], resource: Resource) -> Result<Arrival, OutOfMemory>
    requires { IsOfTransfer transfers.now resource }
    ensures { IfOk result (λ arrival. arrival ≡ arrival_of transfers.now resource) }
{
    let Resource {
        transfer: place,
        name,
        source,
        content,
    } = resource;
    let transfer = &transfers[place];
    let target = transfer.target.path.copy()?;
    Ok(Arrival {
        target,
        name,
        mode: transfer.mode,
        source,
        content,
    })
}
