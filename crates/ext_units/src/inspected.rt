use ext_text::{Names, Path, Text};

/// What inspecting a portable service tells.
#[derive(Drop)]
pub struct Inspect {
    /// Where its image is in the base.
    pub place: Path,
    /// `ID=` of its release file, if that is set.
    pub id: Option<Text>,
    /// `VERSION_ID=` of its release file, if that is set.
    pub version: Option<Text>,
    /// The names of its units, by their bytes, one at least.
    pub units: Names,
}
