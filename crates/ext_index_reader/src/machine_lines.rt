// The first lines of an index: its number, the machine, and the hierarchies.
ghost use Rattle.std.specs.Prelude.{◌≡◌, ◌≢◌, ◌≤◌, ◌↔◌, ℕ, codes, IfOk, IsTrue, MatchOption};
ghost use Rattle.std.specs.Ordering.{eq_by_cmp};
ghost use Rattle.ext_lines.specs.ByteOrder.{bytes_cmp};
ghost use Rattle.ext_index_lines.specs.Lines.{number_line};
ghost use Rattle.ext_index_reader.specs.Reading.{LeadsTo};
ghost use Rattle.ext_index_reader.specs.State.{at};
ghost use Rattle.ext_index_reader.specs.Step.{GivesHierarchy, MayConfext, MaySysext, OneMoreConfext, OneMoreSysext, has_name};
ghost use Rattle.ext_index_reader.specs.declared.state.SoFar.{SoFar};
ghost use Rattle.ext_index_reader.specs.declared.state.Stage.TheVariants as stages;

use crate::following::follows_as_name;
use crate::next::{then_hierarchies, then_machine};
use crate::state::{SoFar, Stage};
use ext_host::MOST_HIERARCHIES;
use ext_index_lines::{after_word, host_of, name_after, number_after, text_of_header};
use ext_lines::OutOfMemory;
use ext_text::{Extension, Name};
use std::alloc::Global;

/// The fewest hierarchies of both classes together.
const FEWEST_OF_BOTH: u64 = 2;

/// The most hierarchies of both classes together.
const MOST_OF_BOTH: u64 = 2 * MOST_HIERARCHIES as u64;

/// After the first line.
pub(crate) fn header_line(so_far: &mut SoFar, line: &[u8]) -> Option<Stage>
    ensures { (g : ℕ) → LeadsTo g (at so_far.old stages.Header) so_far.new line.now result }
{
    match text_of_header(line) {
        None => None,
        Some(text) => {
            so_far.text = text;
            Some(Stage::Machine)
        }
    }
}

/// After the line of the machine.
pub(crate) fn machine_line(
    alloc: Global,
    so_far: &mut SoFar,
    line: &[u8],
) -> Result<Option<Stage>, OutOfMemory>
    ensures { (g : ℕ) → IfOk result (LeadsTo g (at so_far.old stages.Machine) so_far.new line.now) }
{
    match host_of(line) {
        None => Ok(None),
        Some((arch, scope)) => {
            so_far.arch = arch;
            so_far.scope = scope;
            Ok(Some(then_machine(alloc, so_far)?))
        }
    }
}

/// After the line that tells how many hierarchies there are.
pub(crate) fn hierarchies_line(line: &[u8]) -> Option<Stage>
    ensures { (g : ℕ) (s : SoFar) → LeadsTo g (at s stages.Hierarchies) s line.now result }
{
    match count_of_hierarchies(line) {
        None => None,
        Some(count) => Some(then_hierarchies(count)),
    }
}

// How many hierarchies a line tells.
fn count_of_hierarchies(line: &[u8]) -> Option<u64>
    ensures { MatchOption result
        ((n : ℕ) → 2 ≤ n → n ≤ 32 → line.now ≢ number_line (codes "hierarchies") n)
        (λ n. (2 ≤ n) × (n ≤ 32) × (line.now ≡ number_line (codes "hierarchies") n)) }
{
    match number_after(line, b"hierarchies", MOST_OF_BOTH) {
        None => None,
        Some(count) => {
            if count < FEWEST_OF_BOTH {
                return None;
            }
            Some(count)
        }
    }
}

/// After the line of a hierarchy.
pub(crate) fn hierarchy_line(
    alloc: Global,
    so_far: &mut SoFar,
    more: u64,
    line: &[u8],
) -> Result<Option<Stage>, OutOfMemory>
    ensures { (g : ℕ) → IfOk result (LeadsTo g (at so_far.old (stages.Hierarchy more)) so_far.new line.now) }
{
    match hierarchy_of(alloc, line)? {
        None => Ok(None),
        Some((class, name)) => match class {
            Extension::Sysext => sysext_hierarchy(so_far, more, name),
            Extension::Confext => confext_hierarchy(so_far, more, name),
        },
    }
}

// The hierarchy that a line tells.
fn hierarchy_of(alloc: Global, line: &[u8]) -> Result<Option<(Extension, Name)>, OutOfMemory>
    ensures { IfOk result (GivesHierarchy line.now) }
{
    let Some(rest) = after_word(line, b"h") else {
        return Ok(None);
    };
    if let Some(name) = name_after(alloc, rest, b"sysext")? {
        return Ok(Some((Extension::Sysext, name)));
    }
    match name_after(alloc, rest, b"confext")? {
        None => Ok(None),
        Some(name) => Ok(Some((Extension::Confext, name))),
    }
}

// After one of system extensions.
fn sysext_hierarchy(so_far: &mut SoFar, more: u64, name: Name) -> Result<Option<Stage>, OutOfMemory>
    ensures { IfOk result (OneMoreSysext so_far.old so_far.new more name) }
{
    if !may_be_sysext(so_far, more, &name) {
        return Ok(None);
    }
    so_far.sysext_hier.push(name)?;
    Ok(Some(then_hierarchies(more)))
}

// After one of configuration extensions.
fn confext_hierarchy(
    so_far: &mut SoFar,
    more: u64,
    name: Name,
) -> Result<Option<Stage>, OutOfMemory>
    ensures { IfOk result (OneMoreConfext so_far.old so_far.new more name) }
{
    if !may_be_confext(so_far, more, &name) {
        return Ok(None);
    }
    so_far.confext_hier.push(name)?;
    Ok(Some(then_hierarchies(more)))
}

// Whether a hierarchy of system extensions may stand next. It is not the last one of both classes.
fn may_be_sysext(so_far: &SoFar, more: u64, name: &Name) -> bool
    ensures { IsTrue result ↔ MaySysext so_far.now more name.now }
{
    so_far.confext_hier.is_empty()
        && follows_as_name(so_far.sysext_hier.as_slice(), name)
        && so_far.sysext_hier.len() < MOST_HIERARCHIES
        && more > 0
}

// Whether a hierarchy of configuration extensions may stand next. It is the last one of both classes only after one of
// system extensions.
fn may_be_confext(so_far: &SoFar, more: u64, name: &Name) -> bool
    ensures { IsTrue result ↔ MayConfext so_far.now more name.now }
{
    follows_as_name(so_far.confext_hier.as_slice(), name)
        && so_far.confext_hier.len() < MOST_HIERARCHIES
        && !has_name(so_far.sysext_hier.as_slice(), name)
        && (more > 0 || !so_far.sysext_hier.is_empty())
}

// Whether the name is one of these.
fn has_name(names: &[Name], name: &Name) -> bool
    ensures { result ≡ has_name names.now name.now }
{
    names.iter().any(|other| is_equal(other, name))
}

fn is_equal(name: &Name, other: &Name) -> bool
    ensures { result ≡ eq_by_cmp bytes_cmp name.now other.now }
{
    name.bytes().cmp(other.bytes()).is_eq()
}
