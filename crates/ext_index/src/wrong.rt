// The first kept manifest that says other than the base has.
ghost use Rattle.std.specs.Prelude.{◌≡◌, ◌<◌, ◌+◌, ◌++◌, ◌↔◌, ℕ, if◌then◌else◌, length, take, IsTrue, MatchOption};
ghost use Rattle.std.specs.List.{AllByRecursion};
ghost use Rattle.ext_host.specs.Host.{base_at, hierarchies_in, is_in, merged_hierarchies, past_tree, present};
ghost use Rattle.ext_host.specs.Valid.{HasItems, IsManifest};
ghost use Rattle.ext_host.specs.declared.past.Past.{Past};
ghost use Rattle.ext_index_lines.specs.Out.{at_most_64_bits};
ghost use Rattle.ext_index.specs.Faulty.{AreRight, FindsWrong, IsFirstWrong, lines_to_kept, lines_to_past};
ghost use Rattle.ext_index.specs.Sections.{listed};

use crate::counting::{count_to_kept, count_to_past, head_count};
use crate::items::has_items;
use crate::sections::{Sections, sections_of_host, sections_of_past};
use ext_host::{Held, Host, Manifest, Past};
use ext_index_lines::TextNumber;
use ext_index_reader::is_in_class;
use ext_text::Path;
use ext_tree::Tree;

/// The first line of the first manifest that says other than the base has; `None` where there is none.
pub(crate) fn wrong_line(number: TextNumber, host: &Host) -> Option<u64>
    requires now { AllByRecursion IsManifest host.now.kept }
    requires past { AllByRecursion (λ (past : Past). AllByRecursion IsManifest past.kept) host.now.past }
    ensures { (g : ℕ) → FindsWrong number g host.now result }
{
    let sections = sections_of_host(host);
    match first_wrong(host, sections) {
        None => wrong_line_past(number, host),
        Some(index) => {
            let (before, _rest) = host.kept.as_slice().split_at(index);
            let lines = head_count(number, host).saturating_add(count_to_kept(sections, before));
            Some(lines.saturating_add(1))
        }
    }
}

// The line of the first such manifest of a past tree; `None` where there is none.
fn wrong_line_past(number: TextNumber, host: &Host) -> Option<u64>
    requires now { AreRight (hierarchies_in host.now) (present host.now) }
    requires past { AllByRecursion (λ (past : Past). AllByRecursion IsManifest past.kept) host.now.past }
    ensures { (g : ℕ) → FindsWrong number g host.now result }
{
    let pasts = host.past.as_slice();
    'pasts: for (at, past) in pasts.iter().enumerate() {
        if let Some(index) = first_wrong(host, sections_of_past(past)) {
            let (before, _rest) = pasts.split_at(at);
            return Some(line_in_past(number, host, before, past, index));
        }
    }
    None
}

// The line of the manifest with this index in a past tree; the past trees before it are these.
fn line_in_past(number: TextNumber, host: &Host, trees: &[Past], past: &Past, index: usize) -> u64
    requires { index < length past.now.kept }
    ensures { (g : ℕ) → result ≡ at_most_64_bits (length (lines_to_past number g host.now trees.now past.now
        ++ lines_to_kept (past_tree past.now) (take index past.now.kept)) + 1) }
{
    let (before, _rest) = past.kept.as_slice().split_at(index);
    count_to_past(number, host, trees)
        .saturating_add(count_to_kept(sections_of_past(past), before))
        .saturating_add(1)
}

// The index of the first manifest of a host, or of a past tree of it, that says other than the base has.
fn first_wrong(host: &Host, sections: Sections<'_>) -> Option<usize>
    requires { AllByRecursion IsManifest (listed sections).kept }
    ensures { MatchOption result
        (AreRight (hierarchies_in host.now) (listed sections.entry))
        (λ index. (index < length (listed sections.entry).kept)
        × IsFirstWrong (hierarchies_in host.now) (listed sections.entry) (take index (listed sections.entry).kept)) }
{
    'manifests: for (index, manifest) in sections.kept.as_slice().iter().enumerate() {
        if !is_right(host, sections, manifest) {
            return Some(index);
        }
    }
    None
}

// Whether a manifest says what the base has.
fn is_right(host: &Host, sections: Sections<'_>, manifest: &Manifest) -> bool
    requires { IsManifest manifest.now }
    ensures { IsTrue result ↔ HasItems (base_at (hierarchies_in host.now) (listed sections.entry)) manifest.now }
{
    has_items(base_around(host, sections, &manifest.path), manifest)
}

// The tree in which the base has what stands at and below a path, which is not the root.
fn base_around<'a>(host: &Host, sections: Sections<'a>, path: &Path) -> &'a Tree<Held>
    ensures { result.now ≡ (if is_in (merged_hierarchies (hierarchies_in host.now) (listed sections.entry)) path.now
        then (listed sections.entry).lower
        else (listed sections.entry).root) }
{
    if is_in_class(sections.sysext, &host.sysext_hier, path)
        || is_in_class(sections.confext, &host.confext_hier, path)
    {
        sections.lower
    } else {
        sections.root
    }
}
