// Extensions that fit.
use ext_host::Held;
use ext_text::{ListOf, Path};
use ext_tree::Tree;
use ext_units::Image;

/// Which extensions are meant, none twice.
pub type Extensions = ListOf<Image>;

// An extension that fits.
#[derive(Drop)]
pub struct Extending {
    // Where it is in the base.
    pub place: Path,
    // What the base has below the directory to which the place leads, copied, with that directory's path taken off.
    pub tree: Tree<Held>,
}

// Extensions that fit, in their order.
pub(crate) type Fitting = ListOf<Extending>;
