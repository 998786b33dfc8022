use ext_text::{ListOf, Name};
use ext_transfer::Transfer;

/// A feature, which a host has switched on or off: transfers may depend on it.
#[derive(Drop)]
pub struct Feature {
    /// Its name: that of its file without `.feature`.
    pub name: Name,
    /// Whether it is on.
    pub on: bool,
}

/// The features of a component, in byte order of their names.
pub type Features = ListOf<Feature>;

/// Transfers of a component, in byte order of the names of their files.
pub type Transfers = ListOf<Transfer>;
