use ext_text::OutOfMemory;
use std::io;
use thiserror::Error;

/// Why a call on a real folder was not done.
#[derive(Debug, Drop, Error)]
pub(crate) enum FolderErr {
    /// An allocation failed.
    #[error("out of memory")]
    OutOfMemory,
    /// The system refused.
    #[error("{0}")]
    Refused(io::Error),
    /// The system moved no byte, or the call was interrupted too often.
    #[error("it moves no byte")]
    Stuck,
    /// Nothing stands there.
    #[error("nothing stands there")]
    Missing,
    /// No file stands there.
    #[error("no file stands there")]
    NotFile,
    /// No folder stands there.
    #[error("no folder stands there")]
    NotFolder,
    /// A folder stands there.
    #[error("a folder stands there")]
    IsFolder,
    /// A link stands there or on the way, where none is followed.
    #[error("a link below the store folder is not followed")]
    IsLink,
    /// What stands there is neither a file nor a folder.
    #[error("neither a file nor a folder stands there")]
    IsOther,
    /// The folder itself is neither made, renamed nor removed.
    #[error("the folder itself is neither made, renamed nor removed")]
    IsRoot,
    /// A name that is listed is no name, or makes no path with the folder.
    #[error("a name in it is none that a path can have")]
    BadName,
    /// The folder's own path is no UTF-8.
    #[error("its path is not UTF-8")]
    NotUtf8,
    /// Another folder stands where the locked one was opened.
    #[error("the folder was replaced while this waited or worked")]
    Replaced,
    /// A sync failed before.
    #[error("an earlier sync failed")]
    Unsynced,
}

impl From<OutOfMemory> for FolderErr {
    fn from(_failed: OutOfMemory) -> FolderErr {
        FolderErr::OutOfMemory
    }
}

impl From<io::Error> for FolderErr {
    fn from(error: io::Error) -> FolderErr {
        FolderErr::Refused(error)
    }
}
