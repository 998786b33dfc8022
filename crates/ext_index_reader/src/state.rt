// How far an index has been read: the states between its lines.
ghost use Rattle.std.specs.Prelude.{◌≡◌};
ghost use Rattle.ext_index_reader.specs.State.{no_parts, start};

use crate::homes::Homes;
use crate::rows::Rows;
use ext_host::{Attachment, Attachments, Manifest, Manifests, Pasts};
use ext_index_lines::TextNumber;
use ext_text::{Arch, Name, Names, Scope};
use std::alloc::Global;

/// What has been read.
#[derive(Drop)]
pub(crate) struct SoFar {
    /// Which text it is.
    pub(crate) text: TextNumber,
    pub(crate) arch: Arch,
    pub(crate) scope: Scope,
    pub(crate) sysext_hier: Names,
    pub(crate) confext_hier: Names,
    /// The homes of all files so far.
    pub(crate) homes: Homes,
    /// The parts of the host, once they are complete.
    pub(crate) host: Parts,
    /// The past trees that are complete.
    pub(crate) past: Pasts,
    /// Whose parts are being read.
    pub(crate) whose: Whose,
    /// The parts that are being read.
    pub(crate) parts: Parts,
}

/// The parts of a host, or of a past tree.
#[derive(Drop)]
pub(crate) struct Parts {
    pub(crate) sysext: Option<Names>,
    pub(crate) confext: Option<Names>,
    pub(crate) attached: Attachments,
    pub(crate) kept: Manifests,
    pub(crate) root: Rows,
    pub(crate) lower: Rows,
    /// How many bytes the files of both trees have.
    pub(crate) bytes: u64,
}

/// Whose parts are being read.
#[derive(Clone, Copy)]
pub(crate) enum Whose {
    /// Those of the host.
    Host,
    /// Those of the tree of this past generation, after which so many more follow.
    Past { generation: u32, more: u64 },
}

/// Which line stands next. A count of more lines is that of those after it.
#[derive(Drop)]
pub(crate) enum Stage {
    Header,
    Machine,
    Hierarchies,
    Hierarchy { more: u64 },
    Part(PartStage),
    Past,
    Generation { more: u64 },
    End,
    Done,
}

/// Which line of the parts stands next, with the record that it belongs to.
#[derive(Drop)]
pub(crate) enum PartStage {
    Sysext,
    SysextName {
        more: u64,
        names: Names,
    },
    Confext,
    ConfextName {
        more: u64,
        names: Names,
    },
    Attached,
    Attachment {
        more: u64,
    },
    Image {
        more: u64,
        paths: u64,
        runtime: bool,
    },
    Place {
        more: u64,
        paths: u64,
        runtime: bool,
        name: Name,
    },
    Added {
        more: u64,
        paths: u64,
        attachment: Attachment,
    },
    Kept,
    Manifest {
        more: u64,
    },
    Item {
        more: u64,
        items: u64,
        manifest: Manifest,
    },
    Root,
    RootEntry {
        more: u64,
    },
    Lower,
    LowerEntry {
        more: u64,
    },
}

/// What has been read, and which line stands next.
#[derive(Drop)]
pub(crate) struct Reading {
    pub(crate) so_far: SoFar,
    pub(crate) stage: Stage,
}

/// Nothing is read. The architecture and the scope are those of no host: the second line has them.
pub(crate) fn start(alloc: Global) -> Reading
    ensures { result ≡ start }
{
    Reading {
        so_far: SoFar {
            text: TextNumber::One,
            arch: Arch::X86,
            scope: Scope::System,
            sysext_hier: Names::new(alloc),
            confext_hier: Names::new(alloc),
            homes: Homes::new(alloc),
            host: no_parts(alloc),
            past: Pasts::new(alloc),
            whose: Whose::Host,
            parts: no_parts(alloc),
        },
        stage: Stage::Header,
    }
}

/// No parts.
pub(crate) fn no_parts(alloc: Global) -> Parts
    ensures { result ≡ no_parts }
{
    Parts {
        sysext: None,
        confext: None,
        attached: Attachments::new(alloc),
        kept: Manifests::new(alloc),
        root: Rows::new(alloc),
        lower: Rows::new(alloc),
        bytes: 0,
    }
}
