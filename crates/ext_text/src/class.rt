ghost use Rattle.std.specs.Prelude.{◌≡◌};
ghost use Rattle.ext_text.specs.Class.{ReadsClass, class_name};

/// What an image is for.
#[derive(Clone, Copy, PartialEq, Eq)]
pub enum Class {
    /// `sysext`: it extends `usr` and `opt`; systemd-sysext(8).
    Sysext,
    /// `confext`: it extends `etc`; systemd-confext(8).
    Confext,
    /// `portable`: it brings services of its own; portablectl(1).
    Portable,
}

impl Class {
    /// The class of this name; `None` exactly where no class has it.
    pub fn read(text: &[u8]) -> Option<Class>
        ensures { ReadsClass text.now result }
    {
        match text {
            b"sysext" => Some(Class::Sysext),
            b"confext" => Some(Class::Confext),
            b"portable" => Some(Class::Portable),
            _ => None,
        }
    }

    /// The name.
    pub fn name(self) -> &'static str
        ensures { result.now ≡ class_name self }
    {
        match self {
            Class::Sysext => "sysext",
            Class::Confext => "confext",
            Class::Portable => "portable",
        }
    }
}
