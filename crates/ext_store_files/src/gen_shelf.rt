use crate::held_files::file;
use ext_disk::Disk;
use ext_host::{Held, Shelf, ShelfErr};
use ext_text::Text;
use std::alloc::Global;

/// A shelf over the disk of a store: it gives the files that are here, and those that the store keeps. No call changes what
/// the disk means but its count of faults.
#[derive(Drop)]
pub struct GenShelf<'a, D: Disk> {
    /// The disk.
    pub disk: &'a mut D,
}

impl<'a, D: Disk> Shelf for GenShelf<'a, D> {
    ghost use Rattle.std.specs.Prelude.{◌≡◌};
    ghost use Rattle.ext_disk.specs.Since.{Rests};
    ghost use Rattle.ext_store_files.specs.HeldFiles.{is_served, body_told};
    ghost use Rattle.ext_store_files.specs.GenShelf.{shelf_stays};

    ghost serves = { λ _ held. is_served held.body };

    ghost told = { λ s held. body_told (D.state s.disk.now) held.body };

    ghost faults = { λ s. (D.state s.disk.now).faults };

    // The reference stays the same, too: so whoever made the shelf knows what became of the disk.
    ghost stays = { λ a b. Rests (D.state a.disk.now) (D.state b.disk.now) × (b.disk.ghost_name ≡ a.disk.ghost_name) };

    fn bytes(&mut self, alloc: Global, held: &Held) -> Result<Text, ShelfErr> {
        let disk = &mut *self.disk;
        file(alloc, disk, held)
    }

    ghost stays_laws = { shelf_stays (λ s. D.state s.disk.now) (λ s. s.disk.ghost_name) };
}
