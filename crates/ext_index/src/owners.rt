// Whether an index tells owners and capabilities.
ghost use Rattle.std.specs.Prelude.{◌≡◌, not};
ghost use Rattle.std.specs.List.{list_any};
ghost use Rattle.ext_index.specs.Sections.{listed};
ghost use Rattle.ext_index.specs.ValidIndex.{has_owners, host_has_owners, tree_has_owners};
ghost use Rattle.ext_host.specs.Host.{past_tree};
ghost use Rattle.ext_tree.specs.Tree.{is_plain_entry};

use crate::sections::{Sections, sections_of_host, sections_of_past};
use ext_host::{Held, Host, Past};
use ext_text::Path;
use ext_tree::Entry;

/// Whether some entry of the host, or of a past tree, is not root's or has a capability.
pub(crate) fn host_has_owners(host: &Host) -> bool
    ensures { result ≡ host_has_owners host.now }
{
    have_owners(sections_of_host(host)) || pasts_have_owners(host.past.as_slice())
}

// Whether some entry of these past trees is.
fn pasts_have_owners(pasts: &[Past]) -> bool
    ensures { result ≡ list_any (λ past. tree_has_owners (past_tree past)) pasts.now }
{
    pasts.iter().any(|past| past_has_owners(past))
}

// Whether some entry of a past tree is.
fn past_has_owners(past: &Past) -> bool
    ensures { result ≡ tree_has_owners (past_tree past.now) }
{
    have_owners(sections_of_past(past))
}

// Whether some entry of either tree is.
fn have_owners(sections: Sections<'_>) -> bool
    ensures { result ≡ tree_has_owners (listed sections.entry) }
{
    has_owners(sections.root.pairs()) || has_owners(sections.lower.pairs())
}

// Whether one of these is.
fn has_owners(entries: &[(Path, Entry<Held>)]) -> bool
    ensures { result ≡ has_owners entries.now }
{
    entries.iter().any(|entry| is_owned(entry))
}

fn is_owned(entry: &(Path, Entry<Held>)) -> bool
    ensures { result ≡ not (is_plain_entry entry.now.1) }
{
    !entry.1.is_plain()
}
