// The top call.
ghost use Rattle.std.specs.Prelude.{◌≡◌};
ghost use Rattle.std.specs.Option.{option_copied};
ghost use Rattle.ext_mount.specs.Asked.{IsImageAsk};
ghost use Rattle.ext_mount.specs.Printing.{PrintsFor, PrintsImage, PrintsOpened};
ghost use Rattle.ext_mount.specs.Stopping.{status_of_store};

use crate::asked::ImageAsk;
use crate::generation::print_opened;
use crate::status::ImageStatus;
use crate::words::read_words;
use ext_disk::Disk;
use ext_gen::{StoreErr, open};
use ext_io::Sink;
use ext_store_files::StoreFault;
use ext_text::Words;
use std::alloc::Global;

/// Prints the image that the words `[--mark=G] [--time=SECONDS]` ask for: that of what the host of the current generation shows, or
/// of what its mark G has, whose inodes all tell this time, 0 where none is asked.
///
/// 1. It opens the store, which syncs the store folder and reads `current` and the index of the generation. It reads no other file.
/// 2. It looks for the mark, and for links whose targets are longer than Linux reads.
/// 3. It prints the image in pieces of at most 65,536 bytes.
///
/// The store is only read. Each status comes as `PrintsImage` says.
pub fn print_image<K: Sink, D: Disk>(
    alloc: Global,
    words: &Words,
    sink: &mut K,
    store: &mut D,
) -> ImageStatus
    ensures { PrintsImage words.now (record { sink = K.state sink.old; store = D.state store.old })
        (record { sink = K.state sink.new; store = D.state store.new }) result }
{
    match read_words(words) {
        Ok(asked) => print_asked(alloc, asked, sink, store),
        Err(refused) => ImageStatus::Usage {
            place: refused.place,
        },
    }
}

// Prints what is asked.
fn print_asked<K: Sink, D: Disk>(
    alloc: Global,
    asked: ImageAsk,
    sink: &mut K,
    store: &mut D,
) -> ImageStatus
    requires { IsImageAsk asked }
    ensures { PrintsFor asked (record { sink = K.state sink.old; store = D.state store.old })
        (record { sink = K.state sink.new; store = D.state store.new }) result }
{
    match open(alloc, store) {
        Ok(opened) => print_opened(alloc, asked, opened, sink),
        Err(unopened) => status_of_store(unopened),
    }
}

// How a run ends whose store was not opened.
fn status_of_store(unopened: StoreErr) -> ImageStatus
    ensures { result ≡ status_of_store unopened }
{
    match unopened {
        StoreErr::Fault(StoreFault::OutOfMemory) => ImageStatus::OutOfMemory,
        StoreErr::Broken { line } => ImageStatus::BadStore { line },
        StoreErr::Fault(StoreFault::DiskFault) => ImageStatus::DiskFault,
        StoreErr::Fault(StoreFault::DepotFault) => ImageStatus::DiskFault,
        StoreErr::Fault(StoreFault::Damaged(_)) => ImageStatus::DiskFault,
        StoreErr::Mismatch { .. } => ImageStatus::DiskFault,
        StoreErr::NotInDepot { .. } => ImageStatus::DiskFault,
        StoreErr::Unfinished => ImageStatus::DiskFault,
        StoreErr::Limit { .. } => ImageStatus::DiskFault,
    }
}
