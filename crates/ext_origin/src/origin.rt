use ext_text::{Name, Path};
use ext_tree::{Entry, Stamp};

/// A layer of a view that has an entry at a path, or that hides what lower layers have there.
#[derive(Drop)]
pub struct Origin {
    /// The layer.
    pub layer: Layer,
    /// What it has at the path.
    pub finding: Finding,
}

/// A layer: an image, or the base under all images.
#[derive(Drop)]
pub enum Layer {
    /// The image of this name.
    Image(Name),
    /// The base.
    Base,
}

/// What a layer has at a path.
#[derive(Drop)]
pub enum Finding {
    /// This entry at the path itself.
    Has(Entry<Stamp>),
    /// An entry at this proper prefix of the path, which hides what lower layers have below it: a file, a link, a whiteout
    /// or an opaque directory.
    Covers(Path),
}
