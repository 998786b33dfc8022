// How many lines of an index stand before a kept manifest. A count stops at 18,446,744,073,709,551,615.
ghost use Rattle.std.specs.Prelude.{◌≡◌, ◌++◌, ℕ, List, length};
ghost use Rattle.std.specs.List.{flat_map};
ghost use Rattle.ext_index_lines.specs.Out.{at_most_64_bits};
ghost use Rattle.ext_index.specs.Faulty.{head_lines, lines_to_kept, lines_to_past};
ghost use Rattle.ext_index.specs.Index.{attachment_lines, manifest_lines, merged_lines, past_lines, section_lines};
ghost use Rattle.ext_index.specs.Sections.{listed};

use crate::sections::{Sections, sections_of_host, sections_of_past};
use ext_host::{Attachment, Host, Manifest, Past};
use ext_index_lines::TextNumber;
use ext_text::Names;

/// The lines before the sections of the host.
pub(crate) fn head_count(number: TextNumber, host: &Host) -> u64
    ensures { result ≡ at_most_64_bits (length (head_lines number host.now)) }
{
    if !number.is_later() {
        return 2;
    }
    let sysext = host.sysext_hier.len() as u64;
    let confext = host.confext_hier.len() as u64;
    sysext.saturating_add(confext).saturating_add(3)
}

/// The lines of the sections of a host, or of a past tree, before a manifest; those before it are these.
pub(crate) fn count_to_kept(sections: Sections<'_>, before: &[Manifest]) -> u64
    ensures { result ≡ at_most_64_bits (length (lines_to_kept (listed sections.entry) before.now)) }
{
    classes_count(sections)
        .saturating_add(attachments_count(sections.attached.as_slice()))
        .saturating_add(manifests_count(before))
        .saturating_add(2)
}

/// The lines before the sections of a past tree; the past trees before it are these.
pub(crate) fn count_to_past(number: TextNumber, host: &Host, before: &[Past]) -> u64
    ensures { (g : ℕ) (past : Past) → result ≡ at_most_64_bits (length (lines_to_past number g host.now before.now past)) }
{
    head_count(number, host)
        .saturating_add(sections_count(sections_of_host(host)))
        .saturating_add(pasts_count(before))
        .saturating_add(2)
}

// The lines of the merged names of both classes.
fn classes_count(sections: Sections<'_>) -> u64
    ensures { (word other : List ℕ) → result ≡ at_most_64_bits (length
        (merged_lines word (listed sections.entry).sysext ++ merged_lines other (listed sections.entry).confext)) }
{
    merged_count(sections.sysext).saturating_add(merged_count(sections.confext))
}

// The lines of the merged names of a class.
fn merged_count(names: &Option<Names>) -> u64
    ensures { (word : List ℕ) → result ≡ at_most_64_bits (length (merged_lines word names.now)) }
{
    match names {
        None => 0,
        Some(names) => (names.len() as u64).saturating_add(1),
    }
}

// The lines of attachments.
fn attachments_count(attached: &[Attachment]) -> u64
    ensures { result ≡ at_most_64_bits (length (flat_map attachment_lines attached.now)) }
{
    let mut count = 0u64;
    'attachments: for attachment in attached {
        count = count.saturating_add(attachment_count(attachment));
    }
    count
}

// The lines of an attachment.
fn attachment_count(attachment: &Attachment) -> u64
    ensures { result ≡ at_most_64_bits (length (attachment_lines attachment.now)) }
{
    (attachment.added.len() as u64).saturating_add(3)
}

// The lines of manifests.
fn manifests_count(kept: &[Manifest]) -> u64
    ensures { result ≡ at_most_64_bits (length (flat_map manifest_lines kept.now)) }
{
    let mut count = 0u64;
    'manifests: for manifest in kept {
        count = count.saturating_add(manifest_count(manifest));
    }
    count
}

// The lines of a manifest.
fn manifest_count(manifest: &Manifest) -> u64
    ensures { result ≡ at_most_64_bits (length (manifest_lines manifest.now)) }
{
    (manifest.items.len() as u64).saturating_add(1)
}

// The lines of the sections of a host, or of a past tree.
fn sections_count(sections: Sections<'_>) -> u64
    ensures { (g : ℕ) → result ≡ at_most_64_bits (length (section_lines g (listed sections.entry))) }
{
    count_to_kept(sections, sections.kept.as_slice())
        .saturating_add(sections.root.entries())
        .saturating_add(sections.lower.entries())
        .saturating_add(2)
}

// The lines of past trees.
fn pasts_count(pasts: &[Past]) -> u64
    ensures { (g : ℕ) → result ≡ at_most_64_bits (length (flat_map (past_lines g) pasts.now)) }
{
    let mut count = 0u64;
    'pasts: for past in pasts {
        count = count.saturating_add(past_count(past));
    }
    count
}

// The lines of a past tree.
fn past_count(past: &Past) -> u64
    ensures { (g : ℕ) → result ≡ at_most_64_bits (length (past_lines g past.now)) }
{
    sections_count(sections_of_past(past)).saturating_add(1)
}
