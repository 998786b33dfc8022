ghost use Rattle.std.specs.Prelude.{◌≡◌, IfOk};
ghost use Rattle.ext_transfer.specs.Component.{IsComponent, ReadsComponent, component_folder};

use ext_text::{Name, NameErr, OutOfMemory, Text};
use std::alloc::Global;
use std::marker::Model;

/// A component of updates: transfers that are kept together, in folders of their own, by sysupdate.d(5). Contracts see it as its
/// name.
#[derive(Drop)]
pub struct Component {
    name: Name,
    folder: Name,
}

impl Model for Component {
    ghost use Rattle.std.specs.Prelude.{◌≡◌, List, ℕ};
    ghost use Rattle.ext_transfer.specs.Component.{IsComponent, component_folder};

    ghost Value = { List ℕ };

    ghost view = { λ c. c.name };

    ghost invariant = { λ c. IsComponent c.name × (c.folder ≡ component_folder c.name) };
}

impl Component {
    /// The component of this name.
    ///
    /// # Errors
    /// - `BadName` exactly where the bytes are no name, or its folders would have none: `sysupdate.NAME.d` is within the 255 bytes
    ///   of a name where this has at most 243.
    /// - `OutOfMemory`.
    pub fn read(alloc: Global, name: &[u8]) -> Result<Component, NameErr>
        ensures { ReadsComponent name.now result }
    {
        let read = Name::read(alloc, name)?;
        let folder = Name::read(alloc, folder_text(alloc, name)?.bytes())?;
        Ok(Component { name: read, folder })
    }

    /// Its name.
    pub fn name(&self) -> &Name
        ensures same { result.now ≡ self.now }
        ensures component { IsComponent self.now }
    {
        &self.name
    }

    /// The name of its folders: `sysupdate.NAME.d`.
    pub fn folder(&self) -> &Name
        ensures { result.now ≡ component_folder self.now }
    {
        &self.folder
    }
}

// The text of the name of a component's folders.
fn folder_text(alloc: Global, name: &[u8]) -> Result<Text, OutOfMemory>
    ensures { IfOk result (λ text. text ≡ component_folder name.now) }
{
    let mut text = Text::from_bytes(alloc, b"sysupdate.")?;
    text.append(name)?;
    text.append(b".d")?;
    Ok(text)
}
