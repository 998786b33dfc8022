// What stands next where so many of a kind follow, and what is complete where none does. What has been read is changed where it
// stands and never moved.
ghost use Rattle.std.specs.Prelude.{◌≡◌, if◌then◌else◌, IfOk, OnOk};
ghost use Rattle.ext_index_reader.specs.State.{after_parts, at, host_done, past_done, past_of, then_added, then_attached, then_confext, then_hierarchies, then_items, then_kept, then_lower, then_machine, then_past, then_root, then_sysext, with_defaults};
ghost use Rattle.ext_index_reader.specs.declared.state.SoFar.{SoFar};
ghost use Rattle.ext_index_reader.specs.declared.state.Stage.TheVariants as stages;

use crate::state::{PartStage, Parts, SoFar, Stage, Whose, no_parts};
use ext_host::{Attachment, Manifest, Past, default_hierarchies};
use ext_lines::OutOfMemory;
use ext_text::{Extension, Names};
use std::alloc::Global;
use std::mem;

/// After the line of the machine. A text with number 1 means the default hierarchies.
pub(crate) fn then_machine(alloc: Global, so_far: &mut SoFar) -> Result<Stage, OutOfMemory>
    ensures { IfOk result (λ stage. at so_far.new stage ≡ then_machine so_far.old) }
{
    if so_far.text.is_later() {
        return Ok(Stage::Hierarchies);
    }
    set_defaults(alloc, so_far)?;
    Ok(Stage::Part(PartStage::Sysext))
}

// Sets the default hierarchies.
fn set_defaults(alloc: Global, so_far: &mut SoFar) -> Result<(), OutOfMemory>
    ensures { OnOk result (so_far.new ≡ with_defaults so_far.old) }
{
    so_far.sysext_hier = default_hierarchies(alloc, Extension::Sysext)?;
    so_far.confext_hier = default_hierarchies(alloc, Extension::Confext)?;
    Ok(())
}

pub(crate) fn then_hierarchies(count: u64) -> Stage
    ensures { (s : SoFar) → at s result ≡ then_hierarchies s count }
{
    if count == 0 {
        return Stage::Part(PartStage::Sysext);
    }
    Stage::Hierarchy { more: count - 1 }
}

pub(crate) fn then_sysext(so_far: &mut SoFar, count: u64, names: Names) -> Stage
    ensures { at so_far.new result ≡ then_sysext so_far.old count names }
{
    if count == 0 {
        so_far.parts.sysext = Some(names);
        return Stage::Part(PartStage::Confext);
    }
    let more = count - 1;
    Stage::Part(PartStage::SysextName { more, names })
}

pub(crate) fn then_confext(so_far: &mut SoFar, count: u64, names: Names) -> Stage
    ensures { at so_far.new result ≡ then_confext so_far.old count names }
{
    if count == 0 {
        so_far.parts.confext = Some(names);
        return Stage::Part(PartStage::Attached);
    }
    let more = count - 1;
    Stage::Part(PartStage::ConfextName { more, names })
}

pub(crate) fn then_attached(count: u64) -> Stage
    ensures { (s : SoFar) → at s result ≡ then_attached s count }
{
    if count == 0 {
        return Stage::Part(PartStage::Kept);
    }
    Stage::Part(PartStage::Attachment { more: count - 1 })
}

/// Where so many paths of an attachment follow, and after it so many attachments.
pub(crate) fn then_added(
    so_far: &mut SoFar,
    more: u64,
    count: u64,
    attachment: Attachment,
) -> Result<Stage, OutOfMemory>
    ensures { IfOk result (λ stage. at so_far.new stage ≡ then_added so_far.old more count attachment) }
{
    if count == 0 {
        so_far.parts.attached.push(attachment)?;
        return Ok(then_attached(more));
    }
    let paths = count - 1;
    Ok(Stage::Part(PartStage::Added {
        more,
        paths,
        attachment,
    }))
}

pub(crate) fn then_kept(count: u64) -> Stage
    ensures { (s : SoFar) → at s result ≡ then_kept s count }
{
    if count == 0 {
        return Stage::Part(PartStage::Root);
    }
    Stage::Part(PartStage::Manifest { more: count - 1 })
}

/// Where so many items of a manifest follow, and after it so many manifests.
pub(crate) fn then_items(
    so_far: &mut SoFar,
    more: u64,
    count: u64,
    manifest: Manifest,
) -> Result<Stage, OutOfMemory>
    ensures { IfOk result (λ stage. at so_far.new stage ≡ then_items so_far.old more count manifest) }
{
    if count == 0 {
        so_far.parts.kept.push(manifest)?;
        return Ok(then_kept(more));
    }
    let items = count - 1;
    Ok(Stage::Part(PartStage::Item {
        more,
        items,
        manifest,
    }))
}

pub(crate) fn then_root(count: u64) -> Stage
    ensures { (s : SoFar) → at s result ≡ then_root s count }
{
    if count == 0 {
        return Stage::Part(PartStage::Lower);
    }
    Stage::Part(PartStage::RootEntry { more: count - 1 })
}

pub(crate) fn then_lower(
    alloc: Global,
    so_far: &mut SoFar,
    count: u64,
) -> Result<Stage, OutOfMemory>
    ensures { IfOk result (λ stage. at so_far.new stage ≡ then_lower so_far.old count) }
{
    if count == 0 {
        return after_parts(alloc, so_far);
    }
    Ok(Stage::Part(PartStage::LowerEntry { more: count - 1 }))
}

pub(crate) fn then_past(count: u64) -> Stage
    ensures { (s : SoFar) → at s result ≡ then_past s count }
{
    if count == 0 {
        return Stage::End;
    }
    Stage::Generation { more: count - 1 }
}

// After the parts of the host, or of a past tree.
fn after_parts(alloc: Global, so_far: &mut SoFar) -> Result<Stage, OutOfMemory>
    ensures { IfOk result (λ stage. at so_far.new stage ≡ after_parts so_far.old so_far.old.whose) }
{
    match so_far.whose {
        Whose::Host => {
            host_done(alloc, so_far);
            Ok(after_host(so_far.text.is_later()))
        }
        Whose::Past { generation, more } => {
            past_done(alloc, so_far, generation)?;
            Ok(then_past(more))
        }
    }
}

// After those of the host, which are complete.
fn after_host(later: bool) -> Stage
    ensures { (s : SoFar) → at s result ≡ (if later then at s stages.Past else at s stages.End) }
{
    if later { Stage::Past } else { Stage::End }
}

// The parts are the host's.
fn host_done(alloc: Global, so_far: &mut SoFar)
    ensures { so_far.new ≡ host_done so_far.old }
{
    so_far.host = mem::replace(&mut so_far.parts, no_parts(alloc));
}

// The parts are those of the past generation.
fn past_done(alloc: Global, so_far: &mut SoFar, generation: u32) -> Result<(), OutOfMemory>
    ensures { OnOk result (so_far.new ≡ past_done so_far.old generation) }
{
    let parts = mem::replace(&mut so_far.parts, no_parts(alloc));
    so_far.past.push(past_of(generation, parts))?;
    Ok(())
}

// The past tree of these parts.
fn past_of(generation: u32, parts: Parts) -> Past
    ensures { result ≡ past_of generation parts }
{
    let Parts {
        sysext,
        confext,
        attached,
        kept,
        root,
        lower,
        bytes: _,
    } = parts;
    Past {
        generation,
        root: root.into_tree(),
        lower: lower.into_tree(),
        sysext,
        confext,
        attached,
        kept,
    }
}
