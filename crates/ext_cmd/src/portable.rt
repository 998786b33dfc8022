// Commands on portable services.
use ext_added::CopyMode;
use ext_text::{ListOf, Name, Names};
use ext_units::Image;

/// What is done with portable services; portablectl(1).
#[derive(Drop)]
pub enum PortCommand {
    /// `list`: the images that are found, and which of them are attached.
    List,
    /// `inspect IMAGE [PREFIX ..]`: where an image is, what its release file tells, and its units.
    Inspect {
        /// The image.
        image: Image,
        /// The prefixes of its units; where there is none, that of the image's name counts.
        prefixes: Names,
    },
    /// `is-attached NAME`: whether an image is attached.
    IsAttached {
        /// The name of the image.
        name: Name,
    },
    /// `attach ..`: an image is attached.
    Attach(AttachWords),
    /// `detach NAME`: an image is attached no more.
    Detach {
        /// The name of the image.
        name: Name,
    },
    /// `reattach ..`: an image takes the place of what is attached of it.
    Reattach(AttachWords),
}

/// The words after `attach` and `reattach`, as they were given: options stand at any place, a prefix after the image.
#[derive(Drop)]
pub struct AttachWords {
    /// The options before the image.
    pub before: AttachOptions,
    /// The image.
    pub image: Image,
    /// What stands after the image.
    pub after: AttachRest,
}

/// An option of `attach` and `reattach`.
#[derive(Drop)]
pub enum AttachOption {
    /// `--runtime`: it lasts until the host stops.
    Runtime,
    /// `--profile=NAME`: the profile of its services.
    Profile(Name),
    /// `--copy=MODE`: what is copied, and what is linked.
    Copy(CopyMode),
    /// `--extension=EXT`: an extension of the image.
    Extension(Image),
}

/// A word after the image.
#[derive(Drop)]
pub enum AttachWord {
    /// A prefix of units.
    Prefix(Name),
    /// An option.
    Option(AttachOption),
}

/// Options, in their order.
pub type AttachOptions = ListOf<AttachOption>;

/// Words after the image, in their order.
pub type AttachRest = ListOf<AttachWord>;
