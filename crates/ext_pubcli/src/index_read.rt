use ext_host::Held;
use ext_index::read_index;
use ext_store_files::generation_of;
use ext_text::{Path, Text};
use ext_tree::Entry;
use std::alloc::Global;

// The permissions of all but the owner.
const OF_OTHERS: u16 = 0o077;

/// What a run read of the index of a store.
#[derive(Drop)]
pub(crate) struct IndexRead {
    // The number of its generation; 0 before anything of it was read.
    generation: u32,
    bytes: Text,
    // Whether a piece of it found no memory, or came out of turn.
    is_cut: bool,
}

impl IndexRead {
    /// Nothing yet.
    pub(crate) fn new(alloc: Global) -> IndexRead {
        IndexRead {
            generation: 0,
            bytes: Text::new(alloc),
            is_cut: false,
        }
    }

    /// Bytes were read of the file at a path, from the byte `at` on.
    pub(crate) fn note(&mut self, path: &Path, at: u64, piece: &[u8]) {
        if let Some(generation) = generation_of_index(path) {
            self.generation = generation;
            if at != self.bytes.bytes().len() as u64 || self.bytes.append(piece).is_err() {
                self.is_cut = true;
            }
        }
    }

    /// How many files that only their owner may read the host of this index has at and below a path; none where the index wasn't
    /// read whole, and where there is no memory to read it once more.
    pub(crate) fn owners_files(&self, alloc: Global, top: &Path) -> Option<u64> {
        if self.is_cut || self.generation == 0 {
            return None;
        }
        match read_index(alloc, self.bytes.bytes(), self.generation) {
            Ok((host, _)) => Some(owners_among(host.root.pairs(), top)),
            Err(_) => None,
        }
    }
}

// The number of the generation whose index this path is.
fn generation_of_index(path: &Path) -> Option<u32> {
    match path.names().split_last() {
        Some((folder, name)) if name == b"index".as_slice() => generation_of(folder.text()),
        _ => None,
    }
}

fn owners_among(pairs: &[(Path, Entry<Held>)], top: &Path) -> u64 {
    let mut count = 0_u64;
    for (path, entry) in pairs {
        if is_owners(entry) && path.names().starts_with(&top.names()) {
            count = count.saturating_add(1);
        }
    }
    count
}

fn is_owners(entry: &Entry<Held>) -> bool {
    match entry {
        Entry::File(file, _) => file.attributes().mode.bits() & OF_OTHERS == 0,
        _ => false,
    }
}
