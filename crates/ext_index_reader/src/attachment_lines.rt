// The lines of attachments.
ghost use Rattle.std.specs.Prelude.{ℕ, IfOk};
ghost use Rattle.ext_index_reader.specs.Reading.{LeadsTo};
ghost use Rattle.ext_index_reader.specs.State.{at_part};
ghost use Rattle.ext_index_reader.specs.Step.{GivesAttachment};
ghost use Rattle.ext_index_reader.specs.declared.state.PartStage.TheVariants as parts;
ghost use Rattle.ext_index_reader.specs.declared.state.SoFar.{SoFar};

use crate::following::{follows_as_attachment, follows_as_path};
use crate::next::{then_added, then_kept};
use crate::state::{PartStage, SoFar, Stage};
use ext_host::Attachment;
use ext_index_lines::{MOST_COUNT, after_word, name_after, number_after, path_after};
use ext_lines::OutOfMemory;
use ext_text::{Name, Paths};
use std::alloc::Global;

/// After the first line of an attachment.
pub(crate) fn attachment_line(more: u64, line: &[u8]) -> Option<Stage>
    ensures { (g : ℕ) (s : SoFar) → LeadsTo g (at_part s (parts.Attachment more)) s line.now result }
{
    match attachment_of(line) {
        None => None,
        Some((runtime, paths)) => Some(Stage::Part(PartStage::Image {
            more,
            paths,
            runtime,
        })),
    }
}

// Where an attachment lies, `true` for `run`, and how many paths it has.
fn attachment_of(line: &[u8]) -> Option<(bool, u64)>
    ensures { GivesAttachment line.now result }
{
    let Some(rest) = after_word(line, b"a") else {
        return None;
    };
    if let Some(paths) = number_after(rest, b"etc", MOST_COUNT) {
        return Some((false, paths));
    }
    match number_after(rest, b"run", MOST_COUNT) {
        None => None,
        Some(paths) => Some((true, paths)),
    }
}

/// After the line of an attachment's name.
pub(crate) fn image_line(
    alloc: Global,
    so_far: &SoFar,
    more: u64,
    paths: u64,
    runtime: bool,
    line: &[u8],
) -> Result<Option<Stage>, OutOfMemory>
    ensures { (g : ℕ) → IfOk result (LeadsTo g (at_part so_far.now (parts.Image more paths runtime)) so_far.now line.now) }
{
    match name_after(alloc, line, b"i")? {
        None => Ok(None),
        Some(name) => {
            if !follows_as_attachment(so_far.parts.attached.as_slice(), &name) {
                return Ok(None);
            }
            Ok(Some(Stage::Part(PartStage::Place {
                more,
                paths,
                runtime,
                name,
            })))
        }
    }
}

/// After the line of the place of its image.
pub(crate) fn place_line(
    alloc: Global,
    so_far: &mut SoFar,
    more: u64,
    paths: u64,
    runtime: bool,
    name: Name,
    line: &[u8],
) -> Result<Option<Stage>, OutOfMemory>
    ensures { (g : ℕ) → IfOk result (LeadsTo g (at_part so_far.old (parts.Place more paths runtime name)) so_far.new line.now) }
{
    match path_after(alloc, line, b"s")? {
        None => Ok(None),
        Some(place) => {
            let attachment = Attachment {
                name,
                place,
                runtime,
                added: Paths::new(alloc),
            };
            Ok(Some(then_added(so_far, more, paths, attachment)?))
        }
    }
}

/// After the line of a path that it added.
pub(crate) fn added_line(
    alloc: Global,
    so_far: &mut SoFar,
    more: u64,
    paths: u64,
    mut attachment: Attachment,
    line: &[u8],
) -> Result<Option<Stage>, OutOfMemory>
    ensures { (g : ℕ) → IfOk result (LeadsTo g (at_part so_far.old (parts.Added more paths attachment)) so_far.new line.now) }
{
    match path_after(alloc, line, b"p")? {
        None => Ok(None),
        Some(path) => {
            if !follows_as_path(attachment.added.as_slice(), &path) {
                return Ok(None);
            }
            attachment.added.push(path)?;
            Ok(Some(then_added(so_far, more, paths, attachment)?))
        }
    }
}

/// After the line that tells how many manifests there are.
pub(crate) fn kept_line(line: &[u8]) -> Option<Stage>
    ensures { (g : ℕ) (s : SoFar) → LeadsTo g (at_part s parts.Kept) s line.now result }
{
    match number_after(line, b"kept", MOST_COUNT) {
        None => None,
        Some(count) => Some(then_kept(count)),
    }
}
