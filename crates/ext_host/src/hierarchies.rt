// The hierarchies of a host, and those of a host that chose none.
ghost use Rattle.std.specs.Prelude.{◌≡◌, ◌++◌, ◌∷◌, [], IfOk, OnOk};
ghost use Rattle.ext_text.specs.Name.{IsName};
ghost use Rattle.ext_text.specs.Path.{is_prefix};
ghost use Rattle.ext_host.specs.Host.{default_hierarchies, hierarchies_in, hierarchies_of, is_in};

use crate::host::Host;
use ext_text::{Extension, Name, NameErr, Names, OutOfMemory, PathRef};
use std::alloc::Global;

/// The most hierarchies of a class.
pub const MOST_HIERARCHIES: usize = 16;

impl Host {
    /// The names, directly below the root, that extensions of the class extend.
    pub fn hierarchies(&self, class: Extension) -> &[Name]
        ensures { result.now ≡ hierarchies_of class (hierarchies_in self.now) }
    {
        match class {
            Extension::Sysext => self.sysext_hier.as_slice(),
            Extension::Confext => self.confext_hier.as_slice(),
        }
    }
}

/// The hierarchies that a class has where a host chose none: `opt` and `usr` for system extensions, `etc` for configuration
/// extensions. After systemd-sysext(8).
///
/// # Errors
/// `OutOfMemory` alone.
pub fn default_hierarchies(alloc: Global, class: Extension) -> Result<Names, OutOfMemory>
    ensures { IfOk result (λ names. names ≡ default_hierarchies class) }
{
    let mut names = Names::new(alloc);
    match class {
        Extension::Sysext => {
            append_name(alloc, &mut names, b"opt")?;
            append_name(alloc, &mut names, b"usr")?;
        }
        Extension::Confext => append_name(alloc, &mut names, b"etc")?,
    }
    Ok(names)
}

/// Whether the names of a path are at or below one of the hierarchies.
pub fn is_in(hierarchies: &[Name], names: &PathRef) -> bool
    ensures { result ≡ is_in hierarchies.now names.now }
{
    hierarchies
        .iter()
        .any(|hierarchy| stands_at(hierarchy, names))
}

// Whether the names of a path are at or below the hierarchy.
fn stands_at(hierarchy: &Name, names: &PathRef) -> bool
    ensures { result ≡ is_prefix (hierarchy.now ∷ []) names.now }
{
    match names.split_first() {
        None => false,
        Some((first, _below)) => hierarchy.bytes().cmp(first).is_eq(),
    }
}

// Adds the name of these bytes.
fn append_name(alloc: Global, names: &mut Names, bytes: &[u8]) -> Result<(), OutOfMemory>
    requires { IsName bytes.now }
    ensures { OnOk result (names.new ≡ names.old ++ bytes.now ∷ []) }
{
    match Name::read(alloc, bytes) {
        Ok(name) => names.push(name),
        Err(NameErr::OutOfMemory) => Err(OutOfMemory),
        Err(NameErr::BadName) => unreachable!(),
    }
}
