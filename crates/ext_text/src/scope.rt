ghost use Rattle.std.specs.Prelude.{◌≡◌};
ghost use Rattle.ext_text.specs.Scope.{ReadsScope, scope_name};

/// Where a system extension is used, of os-release(5), `SYSEXT_SCOPE=`.
#[derive(Clone, Copy, PartialEq, Eq)]
pub enum Scope {
    /// `system`: on a running host.
    System,
    /// `initrd`: in the file system from which a host starts.
    Initrd,
    /// `portable`: on the image of a portable service.
    Portable,
}

impl Scope {
    /// The scope of this name; `None` exactly where no scope has it.
    pub fn read(text: &[u8]) -> Option<Scope>
        ensures { ReadsScope text.now result }
    {
        match text {
            b"system" => Some(Scope::System),
            b"initrd" => Some(Scope::Initrd),
            b"portable" => Some(Scope::Portable),
            _ => None,
        }
    }

    /// The name.
    pub fn name(self) -> &'static str
        ensures { result.now ≡ scope_name self }
    {
        match self {
            Scope::System => "system",
            Scope::Initrd => "initrd",
            Scope::Portable => "portable",
        }
    }
}
