// The parts of an index are printed one after another.
ghost use Rattle.std.specs.Prelude.{◌++◌, ℕ, List, map, OnOk};
ghost use Rattle.std.specs.List.{flat_map};
ghost use Rattle.ext_lines.specs.Lines.{lines_text};
ghost use Rattle.ext_index_lines.specs.Homes.{line_of_entry};
ghost use Rattle.ext_index_lines.specs.Lines.{path_line, worded};
ghost use Rattle.ext_index.specs.Index.{attachment_lines, line_of_item, listed_tree_lines, manifest_lines, merged_lines, record_lines, section_lines};
ghost use Rattle.ext_index.specs.Sections.{listed};

use crate::sections::Sections;
use ext_host::{Attachment, Attachments, Held, Item, Manifest, Manifests};
use ext_index_lines::{
    Out, put_attachment, put_entry, put_item, put_manifest, put_number, put_path, put_worded,
};
use ext_text::{Name, Names, Path};
use ext_tree::{Entry, Tree};

// Prints names, each on a line of this word.
fn put_names<O: Out>(out: &mut O, word: &[u8], names: &[Name]) -> Result<(), O::Refused>
    ensures { (before : List ℕ) → O.holds out.old before → OnOk result (O.holds out.new
        (before ++ lines_text (map (worded word.now) names.now))) }
{
    'names: for name in names {
        put_worded(out, word, name.bytes())?;
    }
    Ok(())
}

// Prints the merged names of a class, or nothing.
fn put_merged<O: Out>(out: &mut O, word: &[u8], names: &Option<Names>) -> Result<(), O::Refused>
    ensures { (before : List ℕ) → O.holds out.old before → OnOk result (O.holds out.new
        (before ++ lines_text (merged_lines word.now names.now))) }
{
    match names {
        None => Ok(()),
        Some(names) => {
            put_number(out, word, names.len() as u64)?;
            put_names(out, b"n", names.as_slice())
        }
    }
}

// Prints the lines of attachments.
fn put_attachments<O: Out>(out: &mut O, attached: &[Attachment]) -> Result<(), O::Refused>
    ensures { (before : List ℕ) → O.holds out.old before → OnOk result (O.holds out.new
        (before ++ lines_text (flat_map attachment_lines attached.now))) }
{
    'attachments: for attachment in attached {
        put_one_attachment(out, attachment)?;
    }
    Ok(())
}

// Prints the lines of an attachment.
fn put_one_attachment<O: Out>(out: &mut O, attachment: &Attachment) -> Result<(), O::Refused>
    ensures { (before : List ℕ) → O.holds out.old before → OnOk result (O.holds out.new
        (before ++ lines_text (attachment_lines attachment.now))) }
{
    put_attachment(out, attachment.runtime, attachment.added.len() as u64)?;
    put_worded(out, b"i", attachment.name.bytes())?;
    put_path(out, b"s", &attachment.place)?;
    put_paths(out, b"p", attachment.added.as_slice())
}

// Prints paths, each on a line of this word.
fn put_paths<O: Out>(out: &mut O, word: &[u8], paths: &[Path]) -> Result<(), O::Refused>
    ensures { (before : List ℕ) → O.holds out.old before → OnOk result (O.holds out.new
        (before ++ lines_text (map (path_line word.now) paths.now))) }
{
    'paths: for path in paths {
        put_path(out, word, path)?;
    }
    Ok(())
}

// Prints the lines of kept manifests.
fn put_manifests<O: Out>(out: &mut O, kept: &[Manifest]) -> Result<(), O::Refused>
    ensures { (before : List ℕ) → O.holds out.old before → OnOk result (O.holds out.new
        (before ++ lines_text (flat_map manifest_lines kept.now))) }
{
    'manifests: for manifest in kept {
        put_one_manifest(out, manifest)?;
    }
    Ok(())
}

// Prints the lines of a kept manifest.
fn put_one_manifest<O: Out>(out: &mut O, manifest: &Manifest) -> Result<(), O::Refused>
    ensures { (before : List ℕ) → O.holds out.old before → OnOk result (O.holds out.new
        (before ++ lines_text (manifest_lines manifest.now))) }
{
    put_manifest(out, manifest.items.len() as u64, &manifest.path)?;
    put_items(out, manifest.items.as_slice())
}

// Prints the lines of items.
fn put_items<O: Out>(out: &mut O, items: &[Item]) -> Result<(), O::Refused>
    ensures { (before : List ℕ) → O.holds out.old before → OnOk result (O.holds out.new
        (before ++ lines_text (map line_of_item items.now))) }
{
    'items: for item in items {
        put_item(out, &item.digest, &item.path)?;
    }
    Ok(())
}

// Prints the number of a tree's entries and their lines.
fn put_tree<O: Out>(
    out: &mut O,
    word: &[u8],
    generation: u32,
    tree: &Tree<Held>,
) -> Result<(), O::Refused>
    ensures { (before : List ℕ) → O.holds out.old before → OnOk result (O.holds out.new
        (before ++ lines_text (listed_tree_lines word.now generation tree.now))) }
{
    put_number(out, word, tree.entries())?;
    put_entries(out, generation, tree.pairs())
}

// Prints the lines of entries.
fn put_entries<O: Out>(
    out: &mut O,
    generation: u32,
    entries: &[(Path, Entry<Held>)],
) -> Result<(), O::Refused>
    ensures { (before : List ℕ) → O.holds out.old before → OnOk result (O.holds out.new
        (before ++ lines_text (map (line_of_entry generation) entries.now))) }
{
    'entries: for entry in entries {
        put_entry(out, generation, &entry.0, &entry.1)?;
    }
    Ok(())
}

// Prints the parts of a host or of a past tree.
pub(crate) fn put_sections<O: Out>(
    out: &mut O,
    generation: u32,
    sections: Sections<'_>,
) -> Result<(), O::Refused>
    ensures { (before : List ℕ) → O.holds out.old before → OnOk result (O.holds out.new
        (before ++ lines_text (section_lines generation (listed sections.entry)))) }
{
    put_merged(out, b"sysext", sections.sysext)?;
    put_merged(out, b"confext", sections.confext)?;
    put_records(out, sections.attached, sections.kept)?;
    put_tree(out, b"root", generation, sections.root)?;
    put_tree(out, b"lower", generation, sections.lower)
}

// Prints attachments and kept manifests, each with their number before them.
fn put_records<O: Out>(
    out: &mut O,
    attached: &Attachments,
    kept: &Manifests,
) -> Result<(), O::Refused>
    ensures { (before : List ℕ) → O.holds out.old before → OnOk result (O.holds out.new
        (before ++ lines_text (record_lines attached.now kept.now))) }
{
    put_number(out, b"attached", attached.len() as u64)?;
    put_attachments(out, attached.as_slice())?;
    put_number(out, b"kept", kept.len() as u64)?;
    put_manifests(out, kept.as_slice())
}
