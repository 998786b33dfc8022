// The sections of a unit file, with what they set.
ghost use Rattle.std.specs.Prelude.{◌≡◌, None, IfOk, OnOk};
ghost use Rattle.std.specs.List.{last_or};
ghost use Rattle.std.specs.Option.{option_copied};
ghost use Rattle.ext_ini.specs.Sections.{gathered, gathered_one, set_in};

use ext_text::{ListOf, OutOfMemory, Text};
use std::alloc::Global;

/// What a unit file sets a key to.
#[derive(Drop)]
pub struct Setting {
    /// The number of the line, counted from 1. A line that goes on has the number of its first line.
    pub line: u64,
    /// The value, without blanks at both ends.
    pub value: Text,
}

/// A key, and what it is set to.
#[derive(Drop)]
pub struct Assignment {
    /// The key, without blanks at both ends.
    pub key: Text,
    /// What it is set to.
    pub setting: Setting,
}

/// A section as it stands in a unit file: its name, and the assignments up to the next section.
#[derive(Drop)]
pub struct Section {
    /// The name, as it stands between the brackets.
    pub name: Text,
    /// The assignments, in their order.
    pub assignments: ListOf<Assignment>,
}

impl Setting {
    // An equal setting.
    fn copy(&self) -> Result<Setting, OutOfMemory>
        ensures { IfOk result (λ copy. copy ≡ self.now) }
    {
        let value = self.value.copy()?;
        let line = self.line;
        Ok(Setting { line, value })
    }
}

// The last setting of a key.
pub(crate) fn last_in<'a>(assignments: &'a [Assignment], key: &[u8]) -> Option<&'a Setting>
    ensures { option_copied result ≡ last_or None (set_in assignments.now key.now) }
{
    let mut rest = assignments;
    'assignments: loop {
        match rest.split_last() {
            None => return None,
            Some((assignment, before)) => {
                if assignment.key.bytes() == key {
                    return Some(&assignment.setting);
                }
                rest = before;
            }
        }
    }
}

// Adds the settings of a key. An empty one drops those before it.
pub(crate) fn gather(
    alloc: Global,
    settings: &mut ListOf<Setting>,
    assignments: &[Assignment],
    key: &[u8],
) -> Result<(), OutOfMemory>
    ensures { OnOk result (settings.new ≡ gathered settings.old (set_in assignments.now key.now)) }
{
    let mut rest = assignments;
    'assignments: loop {
        match rest.split_first() {
            None => return Ok(()),
            Some((assignment, after)) => {
                if assignment.key.bytes() == key {
                    add(alloc, settings, &assignment.setting)?;
                }
                rest = after;
            }
        }
    }
}

// Adds a setting, or drops all where it is empty.
fn add(alloc: Global, settings: &mut ListOf<Setting>, setting: &Setting) -> Result<(), OutOfMemory>
    ensures { OnOk result (settings.new ≡ gathered_one settings.old setting.now) }
{
    if setting.value.bytes().is_empty() {
        *settings = ListOf::new(alloc);
        return Ok(());
    }
    settings.push(setting.copy()?)
}
