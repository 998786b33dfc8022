// The run of a batch.
ghost use Rattle.ext_top.specs.Devices.{CountsOn, states};
ghost use Rattle.ext_top.specs.Running.{RunsBatch};

use crate::alone::{MOST_SOURCE, status_of_read};
use crate::devices::Devices;
use crate::observer::Observer;
use crate::over_store::run_text;
use crate::status::Status;
use ext_depot::Depot;
use ext_disk::Disk;
use ext_io::{Sink, Source, read_to_end};
use std::alloc::Global;

/// The run of `batch`, which reads its source to the end before it looks at the store.
pub(crate) fn run_batch<S: Source, K: Sink, D: Disk, P: Depot, O: Observer>(
    alloc: Global,
    devices: &mut Devices<S, K, D, P, O>,
) -> Status
    ensures runs { RunsBatch (states S.state K.state D.state P.state O.state devices.old)
        (states S.state K.state D.state P.state O.state devices.new) result }
    ensures counts { CountsOn (states S.state K.state D.state P.state O.state devices.old)
        (states S.state K.state D.state P.state O.state devices.new) }
{
    match read_to_end(alloc, &mut devices.source, MOST_SOURCE) {
        Ok(text) => run_text(
            alloc,
            text.bytes(),
            &mut devices.sink,
            &mut devices.disk,
            &mut devices.depot,
            &mut devices.observer,
        ),
        Err(error) => status_of_read(error),
    }
}
