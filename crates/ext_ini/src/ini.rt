ghost use Rattle.std.specs.Prelude.{◌≡◌, None, IfOk, OnOk};
ghost use Rattle.std.specs.List.{after_last, last_or};
ghost use Rattle.std.specs.Option.{option_copied};
ghost use Rattle.ext_ini.specs.Sections.{gathered, is_reset, set_by, settings_of};

use crate::sections::{Section, Setting, gather, last_in};
use ext_text::{ListOf, OutOfMemory};
use std::alloc::Global;
use std::marker::Model;

/// A list of settings, in the order of the file.
pub type Settings = ListOf<Setting>;

/// What a unit file says. Contracts see it as the list of its sections, as they stand in the file. Sections of one name
/// count as one.
#[derive(Drop)]
pub struct Ini {
    alloc: Global,
    sections: ListOf<Section>,
}

impl Model for Ini {
    ghost use Rattle.std.specs.Prelude.{List};
    ghost use Rattle.ext_ini.specs.declared.sections.Section.{Section};

    ghost Value = { List Section };

    ghost view = { λ i. i.sections };
}

impl Ini {
    // The unit file with these sections.
    pub(crate) fn new(alloc: Global, sections: ListOf<Section>) -> Ini
        ensures { result ≡ sections }
    {
        Ini { alloc, sections }
    }

    /// The sections, in the order in which they stand in the file. A name that stands there twice has two.
    pub fn sections(&self) -> &[Section]
        ensures { result.now ≡ self.now }
    {
        self.sections.as_slice()
    }

    /// The last setting of a key in the sections of this name; `None` exactly where they don't set it. An empty value
    /// counts as any other.
    pub fn last(&self, section: &str, key: &str) -> Option<&Setting>
        ensures { option_copied result ≡ last_or None (settings_of self.now section.now key.now) }
    {
        last_of(self.sections.as_slice(), section.as_bytes(), key.as_bytes())
    }

    /// The settings of a key in the sections of this name, in their order. An empty value drops those before it, and is
    /// none itself.
    ///
    /// # Errors
    /// `OutOfMemory` alone.
    pub fn all(&self, section: &str, key: &str) -> Result<Settings, OutOfMemory>
        ensures { IfOk result (λ all. all ≡ after_last is_reset (settings_of self.now section.now key.now)) }
    {
        all_of(
            self.alloc,
            self.sections.as_slice(),
            section.as_bytes(),
            key.as_bytes(),
        )
    }
}

// The last setting of a key in the sections of a name.
fn last_of<'a>(sections: &'a [Section], name: &[u8], key: &[u8]) -> Option<&'a Setting>
    ensures { option_copied result ≡ last_or None (settings_of sections.now name.now key.now) }
{
    let mut rest = sections;
    'sections: loop {
        match rest.split_last() {
            None => return None,
            Some((section, before)) => {
                let found = last_by(section, name, key);
                if found.is_some() {
                    return found;
                }
                rest = before;
            }
        }
    }
}

// The last setting of a key in a section, where it has this name.
fn last_by<'a>(section: &'a Section, name: &[u8], key: &[u8]) -> Option<&'a Setting>
    ensures { option_copied result ≡ last_or None (set_by name.now key.now section.now) }
{
    if section.name.bytes() == name {
        last_in(section.assignments.as_slice(), key)
    } else {
        None
    }
}

// The settings of a key in the sections of a name, since the last empty one.
fn all_of(
    alloc: Global,
    sections: &[Section],
    name: &[u8],
    key: &[u8],
) -> Result<Settings, OutOfMemory>
    ensures { IfOk result (λ all. all ≡ after_last is_reset (settings_of sections.now name.now key.now)) }
{
    let mut all = Settings::new(alloc);
    let mut rest = sections;
    'sections: loop {
        match rest.split_first() {
            None => return Ok(all),
            Some((section, after)) => {
                gather_by(alloc, &mut all, section, name, key)?;
                rest = after;
            }
        }
    }
}

// Adds the settings of a key in a section, where it has this name. An empty one drops those before it.
fn gather_by(
    alloc: Global,
    settings: &mut Settings,
    section: &Section,
    name: &[u8],
    key: &[u8],
) -> Result<(), OutOfMemory>
    ensures { OnOk result (settings.new ≡ gathered settings.old (set_by name.now key.now section.now)) }
{
    if section.name.bytes() == name {
        gather(alloc, settings, section.assignments.as_slice(), key)
    } else {
        Ok(())
    }
}
