ghost use Rattle.std.specs.Prelude.{◌≡◌};
ghost use Rattle.ext_text.specs.Extension.{class_of, extension_name};

use crate::class::Class;

/// The class of an image that extends a host.
#[derive(Clone, Copy, PartialEq, Eq)]
pub enum Extension {
    /// `sysext`: it extends `usr` and `opt`; systemd-sysext(8).
    Sysext,
    /// `confext`: it extends `etc`; systemd-confext(8).
    Confext,
}

impl Extension {
    /// The same as a class of images.
    pub fn class(self) -> Class
        ensures { result ≡ class_of self }
    {
        match self {
            Extension::Sysext => Class::Sysext,
            Extension::Confext => Class::Confext,
        }
    }

    /// The name, which is that of the class.
    pub fn name(self) -> &'static str
        ensures { result.now ≡ extension_name self }
    {
        match self {
            Extension::Sysext => "sysext",
            Extension::Confext => "confext",
        }
    }
}
