// What a whole line leaves of what was read.
ghost use Rattle.std.specs.Prelude.{◌≡◌, IfOk, OnOk};
ghost use Rattle.std.specs.Option.{option_copied, option_map};
ghost use Rattle.ext_lines.specs.Split.{split_of};
ghost use Rattle.ext_ini.specs.Taking.{Leaves, all_sections, assigned, is_first, later, named, nothing, opened, set, set_to, taken, taken_text};
ghost use Rattle.ext_ini.specs.declared.err.IniErr.TheVariants as errors;
ghost use Rattle.ext_ini.specs.declared.taking.SoFar.{SoFar};

use crate::err::{IniErr, IniFault};
use crate::line::is_section_name;
use crate::sections::{Assignment, Section, Setting};
use ext_lines::{after_blanks, before_blanks, before_last, split_at_byte, trimmed};
use ext_text::{ListOf, OutOfMemory, Text};
use std::alloc::Global;

/// What was read so far: the sections before the last one, and the last, to which assignments are still added.
#[derive(Drop)]
pub(crate) struct SoFar {
    before: ListOf<Section>,
    current: Option<Section>,
}

impl SoFar {
    // No section has begun.
    pub(crate) fn new(alloc: Global) -> SoFar
        ensures { result ≡ nothing }
    {
        SoFar {
            before: ListOf::new(alloc),
            current: None,
        }
    }

    // All sections.
    pub(crate) fn into_sections(self) -> Result<ListOf<Section>, OutOfMemory>
        ensures { IfOk result (λ sections. sections ≡ all_sections self) }
    {
        let SoFar {
            mut before,
            current,
        } = self;
        match current {
            None => Ok(before),
            Some(section) => {
                before.push(section)?;
                Ok(before)
            }
        }
    }
}

// Takes a whole line: the number of its first line, its text, and its first line that is no text. Where that is not its
// first line, a fault of the whole comes before it. What was read is changed where it is, and of no use after an error.
pub(crate) fn take(
    alloc: Global,
    so_far: &mut SoFar,
    number: u64,
    text: &[u8],
    fault: Option<u64>,
) -> Result<(), IniErr>
    ensures { Leaves result so_far.new (taken so_far.old number text.now fault) }
{
    if is_first(fault, number) {
        return Err(bad(number, IniFault::NotText));
    }
    match take_text(alloc, so_far, number, trimmed(text)) {
        Err(refused) => Err(refused),
        Ok(()) => later(fault),
    }
}

// Whether the line that is no text is the one of this number.
fn is_first(fault: Option<u64>, number: u64) -> bool
    ensures { result ≡ is_first fault number }
{
    match fault {
        None => false,
        Some(line) => line == number,
    }
}

// Refuses what was read where a line is no text.
fn later(fault: Option<u64>) -> Result<(), IniErr>
    ensures { (so_far : SoFar) → Leaves result so_far (later so_far fault) }
{
    match fault {
        None => Ok(()),
        Some(line) => Err(bad(line, IniFault::NotText)),
    }
}

// Takes the text of a whole line without the blanks at both ends.
fn take_text(alloc: Global, so_far: &mut SoFar, number: u64, text: &[u8]) -> Result<(), IniErr>
    ensures { Leaves result so_far.new (taken_text so_far.old number text.now) }
{
    match text {
        [] => Ok(()),
        [b'[', rest @ ..] => open(alloc, so_far, number, before_last(rest, b']')),
        [_, ..] => set(alloc, so_far, number, key_and_value(text)),
    }
}

// Begins a section, where what stands in brackets is a name.
fn open(alloc: Global, so_far: &mut SoFar, number: u64, inside: Option<&[u8]>) -> Result<(), IniErr>
    ensures { Leaves result so_far.new (opened so_far.old number (option_copied inside.entry)) }
{
    match inside {
        Some(name) if is_section_name(name) => Ok(begin(alloc, so_far, name)?),
        _ => Err(bad(number, IniFault::BadSection)),
    }
}

// Begins a section of this name.
fn begin(alloc: Global, so_far: &mut SoFar, name: &[u8]) -> Result<(), OutOfMemory>
    ensures { OnOk result (so_far.new ≡ named so_far.old name.now) }
{
    let name = Text::from_bytes(alloc, name)?;
    let section = Section {
        name,
        assignments: ListOf::new(alloc),
    };
    match so_far.current.replace(section) {
        None => Ok(()),
        Some(last) => so_far.before.push(last),
    }
}

// What stands before the first `=`, and what stands after it.
fn key_and_value(text: &[u8]) -> Option<(&[u8], &[u8])>
    ensures { option_map (λ parts. (parts.0.now, parts.1.now)) result ≡ split_of 61 text.now }
{
    split_at_byte(text, b'=')
}

// Sets a key, where the line has an `=` and a section has begun.
fn set(
    alloc: Global,
    so_far: &mut SoFar,
    number: u64,
    parts: Option<(&[u8], &[u8])>,
) -> Result<(), IniErr>
    ensures { Leaves result so_far.new (set so_far.old number (option_map (λ parts. (parts.0.now, parts.1.now)) parts.entry)) }
{
    match parts {
        None => Err(bad(number, IniFault::NoEquals)),
        Some((key, value)) => {
            set_to(
                alloc,
                so_far,
                number,
                before_blanks(key),
                after_blanks(value),
            )
        }
    }
}

// Sets a key to a value, where a section has begun.
fn set_to(
    alloc: Global,
    so_far: &mut SoFar,
    line: u64,
    key: &[u8],
    value: &[u8],
) -> Result<(), IniErr>
    ensures { Leaves result so_far.new (set_to so_far.old.before so_far.old.current line key.now value.now) }
{
    match so_far.current.take() {
        None => Err(bad(line, IniFault::NoSection)),
        Some(section) => {
            so_far.current = Some(assign(alloc, section, line, key, value)?);
            Ok(())
        }
    }
}

// The section with an assignment more.
fn assign(
    alloc: Global,
    section: Section,
    line: u64,
    key: &[u8],
    value: &[u8],
) -> Result<Section, OutOfMemory>
    ensures { IfOk result (λ next. next ≡ assigned section line key.now value.now) }
{
    let Section {
        name,
        mut assignments,
    } = section;
    let key = Text::from_bytes(alloc, key)?;
    let value = Text::from_bytes(alloc, value)?;
    let setting = Setting { line, value };
    assignments.push(Assignment { key, setting })?;
    Ok(Section { name, assignments })
}

// A faulty line.
fn bad(line: u64, why: IniFault) -> IniErr
    ensures { result ≡ errors.BadIni line why }
{
    IniErr::BadIni { line, why }
}
