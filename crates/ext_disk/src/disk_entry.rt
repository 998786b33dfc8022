// What a disk in memory holds of one path.
ghost use Rattle.std.specs.Prelude.{◌≡◌, ◌++◌, true, false, None, Some, IfOk, OnOk, OnErr, codes};
ghost use Rattle.ext_disk.specs.Disk.{Place, absent, file, is_file};
ghost use Rattle.ext_disk.specs.Calls.{bytes_of, written, synced, left_place, reached_place};
ghost use Rattle.ext_disk.specs.Picked.{junked};
ghost use Rattle.ext_disk.specs.DiskEntries.{node_of, place_of};

use crate::pieces::{Piece, Pieces};
use ext_text::OutOfMemory;
use std::alloc::Global;
use std::mem;

/// What stands at a path.
#[derive(Drop)]
pub(crate) enum Content {
    Absent,
    Folder,
    File(Pieces),
}

/// What stands at a path, and its marks. Of a path with an unsynced rename the new file is the one that stands there, so
/// that the old one alone is kept beside it.
#[derive(Drop)]
pub(crate) struct DiskEntry {
    pub(crate) content: Content,
    pub(crate) unsynced_name: bool,
    pub(crate) unsynced_bytes: bool,
    pub(crate) unsynced_rename: Option<Content>,
}

impl Content {
    /// An equal content. The bytes of a file are not copied.
    pub(crate) fn copy(&self) -> Result<Content, OutOfMemory>
        ensures { IfOk result (λ copy. copy ≡ self.now) }
    {
        match self {
            Content::Absent => Ok(Content::Absent),
            Content::Folder => Ok(Content::Folder),
            Content::File(pieces) => Ok(Content::File(pieces.copy()?)),
        }
    }

    /// The same with other bytes in a file.
    pub(crate) fn junk(&self, alloc: Global) -> Result<Content, OutOfMemory>
        ensures { IfOk result (λ junk. node_of junk ≡ junked (node_of self.now)) }
    {
        match self {
            Content::Absent => Ok(Content::Absent),
            Content::Folder => Ok(Content::Folder),
            Content::File(_pieces) => Ok(Content::File(junk(alloc)?)),
        }
    }
}

impl DiskEntry {
    /// A path with nothing to sync.
    pub(crate) fn durable(content: Content) -> DiskEntry
        ensures { place_of result ≡ record absent { node = node_of content } }
    {
        DiskEntry {
            content,
            unsynced_name: false,
            unsynced_bytes: false,
            unsynced_rename: None,
        }
    }

    /// A path whose name is not synced.
    pub(crate) fn unsynced_name(content: Content, unsynced_bytes: bool) -> DiskEntry
        ensures { result ≡ record { content = content; unsynced_name = true; unsynced_bytes = unsynced_bytes; unsynced_rename = None } }
    {
        DiskEntry {
            content,
            unsynced_name: true,
            unsynced_bytes,
            unsynced_rename: None,
        }
    }

    /// Adds a piece at the end of the file, which has unsynced bytes from then on.
    pub(crate) fn append(&mut self, piece: &Piece) -> Result<(), OutOfMemory>
        requires { is_file (node_of self.old.content) ≡ true }
        ensures ok { OnOk result (place_of self.new
            ≡ written (bytes_of (node_of self.old.content) ++ piece.now) (place_of self.old)) }
        ensures err { OnErr result (place_of self.new ≡ place_of self.old) }
    {
        append_to(&mut self.content, piece)?;
        self.unsynced_name = self.unsynced_name || self.unsynced_rename.is_some();
        self.unsynced_rename = None;
        self.unsynced_bytes = true;
        Ok(())
    }

    /// The bytes of the file are synced.
    pub(crate) fn harden(&mut self)
        ensures { place_of self.new ≡ record (place_of self.old) { unsynced_bytes = false } }
    {
        self.unsynced_bytes = false;
    }

    /// The name is synced.
    pub(crate) fn sync(&mut self)
        ensures { place_of self.new ≡ synced (place_of self.old) }
    {
        self.unsynced_name = false;
        self.unsynced_rename = None;
    }

    /// Takes out what stands there, as a rename does.
    pub(crate) fn leave(&mut self) -> Content
        ensures taken { result ≡ self.old.content }
        ensures left { place_of self.new ≡ left_place true (place_of self.old) }
    {
        let content = mem::replace(&mut self.content, Content::Absent);
        self.unsynced_name = true;
        self.unsynced_bytes = false;
        self.unsynced_rename = None;
        content
    }

    /// Puts a file there, as a rename does: with the old one beside it where both paths were durable.
    pub(crate) fn reach(&mut self, file: Content, durable: bool)
        ensures { (from : Place) → from.node ≡ node_of file
            → place_of self.new ≡ reached_place true durable from (place_of self.old) }
    {
        let before = mem::replace(&mut self.content, file);
        if durable {
            self.unsynced_rename = Some(before);
        } else {
            self.unsynced_name = true;
            self.unsynced_bytes = true;
            self.unsynced_rename = None;
        }
    }
}

// The bytes that a stop may have put in the place of others.
fn junk(alloc: Global) -> Result<Pieces, OutOfMemory>
    ensures { IfOk result (λ pieces. pieces ≡ codes "junk") }
{
    let mut pieces = Pieces::new(alloc);
    pieces.append(&Piece::from_bytes(alloc, b"junk")?)?;
    Ok(pieces)
}

// Adds a piece at the end of a file.
fn append_to(content: &mut Content, piece: &Piece) -> Result<(), OutOfMemory>
    requires { is_file (node_of content.old) ≡ true }
    ensures ok { OnOk result (node_of content.new
        ≡ Some (file (bytes_of (node_of content.old) ++ piece.now))) }
    ensures err { OnErr result (content.new ≡ content.old) }
{
    match content {
        Content::File(pieces) => pieces.append(piece),
        _ => Ok(()),
    }
}
