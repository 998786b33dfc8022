// What an index lists of a host, and again of each past tree of it.
ghost use Rattle.std.specs.Prelude.{◌≡◌};
ghost use Rattle.ext_host.specs.Host.{past_tree, present};
ghost use Rattle.ext_index.specs.Sections.{listed};

use ext_host::{Attachments, Held, Host, Manifests, Past};
use ext_text::Names;
use ext_tree::Tree;

// The parts, borrowed.
#[derive(Clone, Copy)]
pub(crate) struct Sections<'a> {
    pub(crate) sysext: &'a Option<Names>,
    pub(crate) confext: &'a Option<Names>,
    pub(crate) attached: &'a Attachments,
    pub(crate) kept: &'a Manifests,
    pub(crate) root: &'a Tree<Held>,
    pub(crate) lower: &'a Tree<Held>,
}

// The sections of the host itself.
pub(crate) fn sections_of_host(host: &Host) -> Sections<'_>
    ensures { listed result ≡ present host.now }
{
    Sections {
        sysext: &host.sysext,
        confext: &host.confext,
        attached: &host.attached,
        kept: &host.kept,
        root: &host.root,
        lower: &host.lower,
    }
}

// The sections of a past tree.
pub(crate) fn sections_of_past(past: &Past) -> Sections<'_>
    ensures { listed result ≡ past_tree past.now }
{
    Sections {
        sysext: &past.sysext,
        confext: &past.confext,
        attached: &past.attached,
        kept: &past.kept,
        root: &past.root,
        lower: &past.lower,
    }
}
