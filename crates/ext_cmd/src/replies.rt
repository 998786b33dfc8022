// The texts of answers.
ghost use Rattle.std.specs.Prelude.{◌≡◌, ◌++◌, IfOk, OnOk};
ghost use Rattle.std.specs.List.{flat_map};
ghost use Rattle.ext_cmd.specs.Replies.{answer_text, item_line, kind_words, lined, names_text, order_word, verdict_word, why_word};
ghost use Rattle.ext_cmd.specs.declared.answer.Answer.TheVariants.{Checked, Sample};
ghost use Rattle.ext_cmd.specs.declared.answer.ItemKind.TheVariants.{BadRelease, Broken, Image};

use crate::answer::{Answer, Item, ItemKind};
use crate::appending::{
    append_digest, append_line, append_numbered, append_numbered_line, append_placed, append_words,
};
use crate::mark_replies::{marked_text, marks_text};
use crate::service_replies::{inspect_text, services_text, state_word};
use crate::update_replies::{
    features_text, removed_text, updated_text, version_text, versions_text,
};
use ext_changes::owned_text;
use ext_find::BreakWhy;
use ext_lines::append_decimal;
use ext_match::Verdict;
use ext_origin::origins_text;
use ext_text::{Digest, Name, OutOfMemory, Path, Text};
use std::alloc::Global;
use std::cmp::Ordering;

/// The text of an answer: each line ends in a newline, and paths of the host stand after a `/`. The text of a tree is
/// handed on and not copied.
///
/// # Errors
/// Out of memory alone.
pub fn answer_text(alloc: Global, answer: Answer) -> Result<Text, OutOfMemory>
    ensures { IfOk result (λ text. text ≡ answer_text answer) }
{
    match answer {
        Answer::Done => line_of(alloc, "done"),
        Answer::Unchanged => line_of(alloc, "unchanged"),
        Answer::Merged(names) => names_text(alloc, "merged ", names.as_slice()),
        Answer::Unmerged => line_of(alloc, "unmerged"),
        Answer::Found(items) => found_text(alloc, items.as_slice()),
        Answer::Tree(text) => Ok(text),
        Answer::Order(order) => line_of(alloc, order_word(order)),
        Answer::Checked { files, bytes } => checked_text(alloc, files, bytes),
        Answer::Sample {
            entries,
            files,
            bytes,
            digest,
        } => sample_text(alloc, entries, files, bytes, &digest),
        Answer::Versions(items) => versions_text(alloc, items.as_slice()),
        Answer::Version(version) => version_text(alloc, &version),
        Answer::Updated(version) => updated_text(alloc, &version),
        Answer::Removed(paths) => removed_text(alloc, paths.as_slice()),
        Answer::Features(items) => features_text(alloc, items.as_slice()),
        Answer::Components(names) => names_text(alloc, "components ", names.as_slice()),
        Answer::Marked { generation } => marked_text(alloc, generation),
        Answer::History(marks) => marks_text(alloc, marks.as_slice()),
        Answer::Changes(changes) => owned_text(alloc, changes.as_slice()),
        Answer::Explained(origins) => origins_text(alloc, origins.as_slice()),
        Answer::Services(items) => services_text(alloc, items.as_slice()),
        Answer::Inspected(inspect) => inspect_text(alloc, &inspect),
        Answer::State(state) => line_of(alloc, state_word(state)),
        Answer::Attached(names) => names_text(alloc, "attached ", names.as_slice()),
        Answer::Detached => line_of(alloc, "detached"),
    }
}

// A line alone.
fn line_of(alloc: Global, line: &str) -> Result<Text, OutOfMemory>
    ensures { IfOk result (λ text. text ≡ lined line.now) }
{
    let mut text = Vec::new(alloc);
    append_line(&mut text, line.as_bytes())?;
    Ok(Text::from_vec(text))
}

// The word of an order.
fn order_word(order: Ordering) -> &'static str
    ensures { result.now ≡ order_word order }
{
    match order {
        Ordering::Less => "less",
        Ordering::Equal => "equal",
        Ordering::Greater => "greater",
    }
}

// How many names, after some words, and each name on a line of its own.
fn names_text(alloc: Global, words: &str, names: &[Name]) -> Result<Text, OutOfMemory>
    ensures { IfOk result (λ text. text ≡ names_text words.now names.now) }
{
    let mut text = Vec::new(alloc);
    append_numbered_line(&mut text, words, names.len() as u64)?;
    append_names(&mut text, names)?;
    Ok(Text::from_vec(text))
}

// Each name on a line of its own.
fn append_names(text: &mut Vec<u8>, names: &[Name]) -> Result<(), OutOfMemory>
    ensures { OnOk result (text.new.items ≡ text.old.items ++ flat_map lined names.now) }
{
    'names: for name in names {
        append_line(text, name.bytes())?;
    }
    Ok(())
}

// A line for each item.
fn found_text(alloc: Global, items: &[Item]) -> Result<Text, OutOfMemory>
    ensures { IfOk result (λ text. text ≡ flat_map item_line items.now) }
{
    let mut text = Vec::new(alloc);
    'items: for item in items {
        append_item(&mut text, item)?;
    }
    Ok(Text::from_vec(text))
}

// The line of an item.
fn append_item(text: &mut Vec<u8>, item: &Item) -> Result<(), OutOfMemory>
    ensures { OnOk result (text.new.items ≡ text.old.items ++ item_line item.now) }
{
    text.extend_from_slice(item.name.bytes())?;
    text.push(b' ')?;
    append_kind(text, &item.place, item.kind)?;
    text.push(b'\n')?;
    Ok(())
}

// What an item is, and where.
fn append_kind(text: &mut Vec<u8>, place: &Path, kind: ItemKind) -> Result<(), OutOfMemory>
    ensures { OnOk result (text.new.items ≡ text.old.items ++ kind_words place.now kind) }
{
    match kind {
        ItemKind::Image(verdict) => append_image(text, place, verdict),
        ItemKind::Masked => append_placed(text, "masked ", place),
        ItemKind::Raw => append_placed(text, "raw ", place),
        ItemKind::Broken(why) => append_broken(text, place, why),
        ItemKind::BadRelease { line } => append_bad_release(text, place, line),
    }
}

// An image, and whether it fits.
fn append_image(text: &mut Vec<u8>, place: &Path, verdict: Verdict) -> Result<(), OutOfMemory>
    ensures { OnOk result (text.new.items ≡ text.old.items ++ kind_words place.now (Image verdict)) }
{
    append_placed(text, "image ", place)?;
    text.push(b' ')?;
    append_words(text, verdict_word(verdict))
}

// An image that can't be used, and why.
fn append_broken(text: &mut Vec<u8>, place: &Path, why: BreakWhy) -> Result<(), OutOfMemory>
    ensures { OnOk result (text.new.items ≡ text.old.items ++ kind_words place.now (Broken why)) }
{
    append_placed(text, "broken ", place)?;
    text.push(b' ')?;
    append_words(text, why_word(why))
}

// An image whose release file is faulty, and its first faulty line.
fn append_bad_release(text: &mut Vec<u8>, place: &Path, line: u64) -> Result<(), OutOfMemory>
    ensures { OnOk result (text.new.items ≡ text.old.items ++ kind_words place.now (BadRelease line)) }
{
    append_placed(text, "broken ", place)?;
    text.push(b' ')?;
    append_numbered(text, "bad-release ", line)
}

// The word of a verdict.
pub(crate) fn verdict_word(verdict: Verdict) -> &'static str
    ensures { result.now ≡ verdict_word verdict }
{
    match verdict {
        Verdict::Fits => "fits",
        Verdict::Scope => "scope",
        Verdict::Architecture => "architecture",
        Verdict::NoId => "no-id",
        Verdict::Id => "id",
        Verdict::Level => "level",
        Verdict::Version => "version",
    }
}

// The word of why an image can't be used.
pub(crate) fn why_word(why: BreakWhy) -> &'static str
    ensures { result.now ≡ why_word why }
{
    match why {
        BreakWhy::NotDirectory => "not-directory",
        BreakWhy::HasOsRelease => "has-os-release",
        BreakWhy::NoRelease => "no-release",
    }
}

// How many files, and their bytes.
fn checked_text(alloc: Global, files: u64, bytes: u64) -> Result<Text, OutOfMemory>
    ensures { IfOk result (λ text. text ≡ answer_text (Checked files bytes)) }
{
    let mut text = Vec::from_slice(alloc, b"ok ")?;
    append_decimal(&mut text, files)?;
    text.push(b' ')?;
    append_decimal(&mut text, bytes)?;
    text.push(b'\n')?;
    Ok(Text::from_vec(text))
}

// What a made host comes to, each number on a line of its own.
fn sample_text(
    alloc: Global,
    entries: u64,
    files: u64,
    bytes: u64,
    digest: &Digest,
) -> Result<Text, OutOfMemory>
    ensures { IfOk result (λ text. text ≡ answer_text (Sample entries files bytes digest.now)) }
{
    let mut text = Vec::new(alloc);
    append_numbered_line(&mut text, "entries ", entries)?;
    append_numbered_line(&mut text, "files ", files)?;
    append_numbered_line(&mut text, "bytes ", bytes)?;
    append_digest(&mut text, "sha256 ", digest)?;
    Ok(Text::from_vec(text))
}
