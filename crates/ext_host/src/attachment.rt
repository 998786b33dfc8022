use ext_text::{Name, Path, Paths};

/// An attached image of portable services, of portablectl(1).
#[derive(Drop)]
pub struct Attachment {
    /// The name by which it was asked for.
    pub name: Name,
    /// Where the image stands in the host.
    pub place: Path,
    /// Whether it lasts until the host stops.
    pub runtime: bool,
    /// The paths of the entries that the attaching added.
    pub added: Paths,
}
