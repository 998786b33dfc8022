/// The greatest number of a generation.
pub const LAST_GENERATION: u64 = 4_294_967_295;

/// The most files of a generation: the number of a file is less.
pub const MOST_FILES: u32 = 262_144;

/// Where a kept file's bytes stand in a store: file number `file` of generation `generation`.
#[derive(Clone, Copy, Debug, PartialEq, Eq)]
pub struct Home {
    /// The number of the generation that wrote the file, from 1.
    pub generation: u32,
    /// The number of the file in that generation, from 0.
    pub file: u32,
}
