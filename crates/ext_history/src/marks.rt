/// A mark as it is listed.
#[derive(Clone, Copy, PartialEq, Eq)]
pub struct Mark {
    /// The number of the generation that it was.
    pub generation: u32,
    /// How many entries were seen.
    pub entries: u64,
    /// How many of them are files.
    pub files: u64,
}
