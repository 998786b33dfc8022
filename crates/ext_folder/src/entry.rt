use crate::folder_err::FolderErr;
use ext_disk::Kind;
use std::fs::Metadata;

/// What stands at a location of the system.
#[derive(Clone, Copy, PartialEq, Eq)]
pub(crate) enum Entry {
    Nothing,
    Folder,
    /// With its size in bytes.
    File(u64),
    /// One that is not followed, with the bytes of its text.
    Link(u64),
    /// A device, a pipe or a socket.
    Other,
}

impl Entry {
    pub(crate) fn of(found: &Metadata) -> Entry {
        if found.is_dir() {
            Entry::Folder
        } else if found.is_file() {
            Entry::File(found.len())
        } else if found.is_symlink() {
            Entry::Link(found.len())
        } else {
            Entry::Other
        }
    }

    /// What it is for a disk or a depot: a link that is not followed is a file of its text's length.
    pub(crate) fn kind(self) -> Result<Option<Kind>, FolderErr> {
        match self {
            Entry::Nothing => Ok(None),
            Entry::Folder => Ok(Some(Kind::Dir)),
            Entry::File(size) | Entry::Link(size) => Ok(Some(Kind::File(size))),
            Entry::Other => Err(FolderErr::IsOther),
        }
    }

    /// That it is none that a link stands for is needed.
    pub(crate) fn need_no_link(self) -> Result<Entry, FolderErr> {
        match self {
            Entry::Link(_size) => Err(FolderErr::IsLink),
            _ => Ok(self),
        }
    }

    /// That it is a file is needed.
    pub(crate) fn need_file(self) -> Result<(), FolderErr> {
        match self {
            Entry::File(_size) => Ok(()),
            Entry::Nothing => Err(FolderErr::Missing),
            Entry::Folder => Err(FolderErr::NotFile),
            Entry::Link(_size) => Err(FolderErr::IsLink),
            Entry::Other => Err(FolderErr::IsOther),
        }
    }
}
