/// What a stop takes of what is not synced.
#[derive(Clone, Copy, PartialEq, Eq)]
pub enum Pick {
    /// Paths with an unsynced name vanish, with what lies below them. Those with an unsynced rename have the old file.
    Old,
    /// Paths with an unsynced name stay. Those with an unsynced rename have the new file.
    New,
    /// As `New`, but the bytes of files with unsynced bytes are `junk`.
    Junk,
}
