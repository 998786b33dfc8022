// The texts of answers to `sysupdate`.
ghost use Rattle.std.specs.Prelude.{◌≡◌, ◌++◌, codes, IfOk, OnOk};
ghost use Rattle.std.specs.List.{flat_map};
ghost use Rattle.ext_cmd.specs.Replies.{feature_line, feature_word, flag_word, lined, path_line, presence_word, removed_text, version_line};

use crate::answer::{FeatureItem, Presence, VersionItem};
use crate::appending::{append_line, append_numbered_line, append_words};
use ext_text::{OutOfMemory, Path, Text};
use std::alloc::Global;

// A line for each version.
pub(crate) fn versions_text(alloc: Global, items: &[VersionItem]) -> Result<Text, OutOfMemory>
    ensures { IfOk result (λ text. text ≡ flat_map version_line items.now) }
{
    let mut text = Vec::new(alloc);
    'items: for item in items {
        append_version(&mut text, item)?;
    }
    Ok(Text::from_vec(text))
}

// The line of a version, with its flags.
fn append_version(text: &mut Vec<u8>, item: &VersionItem) -> Result<(), OutOfMemory>
    ensures { OnOk result (text.new.items ≡ text.old.items ++ version_line item.now) }
{
    text.extend_from_slice(item.version.bytes())?;
    append_flag(text, item.available, "available")?;
    append_words(text, presence_word(item.presence))?;
    append_flag(text, item.protected, "protected")?;
    append_flag(text, item.obsolete, "obsolete")?;
    text.push(b'\n')?;
    Ok(())
}

// A flag after a space, where it is set.
fn append_flag(text: &mut Vec<u8>, set: bool, word: &str) -> Result<(), OutOfMemory>
    ensures { OnOk result (text.new.items ≡ text.old.items ++ flag_word set word.now) }
{
    if set {
        text.push(b' ')?;
        append_words(text, word)?;
    }
    Ok(())
}

// Which of the targets have a version, after a space.
fn presence_word(presence: Presence) -> &'static str
    ensures { result.now ≡ presence_word presence }
{
    match presence {
        Presence::Absent => "",
        Presence::Partial => " partial",
        Presence::Installed => " installed",
    }
}

// A version, on a line.
pub(crate) fn version_text(alloc: Global, version: &Text) -> Result<Text, OutOfMemory>
    ensures { IfOk result (λ text. text ≡ lined version.now) }
{
    let mut text = Vec::new(alloc);
    append_line(&mut text, version.bytes())?;
    Ok(Text::from_vec(text))
}

// The version that was installed, on a line.
pub(crate) fn updated_text(alloc: Global, version: &Text) -> Result<Text, OutOfMemory>
    ensures { IfOk result (λ text. text ≡ lined (codes "updated " ++ version.now)) }
{
    let mut text = Vec::from_slice(alloc, b"updated ")?;
    append_line(&mut text, version.bytes())?;
    Ok(Text::from_vec(text))
}

// How many paths were removed, and each on a line of its own.
pub(crate) fn removed_text(alloc: Global, paths: &[Path]) -> Result<Text, OutOfMemory>
    ensures { IfOk result (λ text. text ≡ removed_text paths.now) }
{
    let mut text = Vec::new(alloc);
    append_numbered_line(&mut text, "removed ", paths.len() as u64)?;
    append_paths(&mut text, paths)?;
    Ok(Text::from_vec(text))
}

// Each path on a line of its own.
fn append_paths(text: &mut Vec<u8>, paths: &[Path]) -> Result<(), OutOfMemory>
    ensures { OnOk result (text.new.items ≡ text.old.items ++ flat_map path_line paths.now) }
{
    'paths: for path in paths {
        append_path(text, path)?;
    }
    Ok(())
}

// The line of a path of the host.
fn append_path(text: &mut Vec<u8>, path: &Path) -> Result<(), OutOfMemory>
    ensures { OnOk result (text.new.items ≡ text.old.items ++ path_line path.now) }
{
    path.append_absolute(text)?;
    text.push(b'\n')?;
    Ok(())
}

// A line for each feature.
pub(crate) fn features_text(alloc: Global, items: &[FeatureItem]) -> Result<Text, OutOfMemory>
    ensures { IfOk result (λ text. text ≡ flat_map feature_line items.now) }
{
    let mut text = Vec::new(alloc);
    'items: for item in items {
        append_feature(&mut text, item)?;
    }
    Ok(Text::from_vec(text))
}

// The line of a feature.
fn append_feature(text: &mut Vec<u8>, item: &FeatureItem) -> Result<(), OutOfMemory>
    ensures { OnOk result (text.new.items ≡ text.old.items ++ feature_line item.now) }
{
    text.extend_from_slice(item.name.bytes())?;
    append_words(text, feature_word(item.on))?;
    text.push(b'\n')?;
    Ok(())
}

// Whether a feature is on, after a space.
fn feature_word(on: bool) -> &'static str
    ensures { result.now ≡ feature_word on }
{
    if on { " on" } else { " off" }
}
