// What is said of each command to a person, and which folders one can't have.
use ext_cmd::{Command, UpdateVerb};
use ext_folder::{Nesting, nesting_of};
use ext_text::OutOfMemory;

/// A command's first word, and what its words are.
pub(crate) struct Synopsis {
    pub(crate) word: &'static str,
    pub(crate) words: &'static str,
}

/// One of each command.
pub(crate) static SYNOPSES: [Synopsis; 19] = [
    Synopsis {
        word: "init",
        words: "init ARCH SCOPE [HIERS [HIERS]], where ARCH is x86, x86-64, arm, arm64, riscv64, s390x, ppc64-le or loongarch64, SCOPE is system or initrd, and HIERS are as /usr:/opt",
    },
    Synopsis {
        word: "import-fs",
        words: "import-fs RES PATH, where RES.tree is in the depot, and PATH begins with a slash",
    },
    Synopsis {
        word: "remove",
        words: "remove PATH, where PATH begins with a slash, and isn't the root",
    },
    Synopsis {
        word: "sysext",
        words: "sysext list, status, merge [--force], unmerge, refresh [--force], changes [--force] or explain [--force] PATH, where PATH begins with a slash, and isn't the root",
    },
    Synopsis {
        word: "confext",
        words: "confext list, status, merge [--force], unmerge, refresh [--force], changes [--force] or explain [--force] PATH, where PATH begins with a slash, and isn't the root",
    },
    Synopsis {
        word: "sysupdate",
        words: "sysupdate [--component=NAME] list, check-new, update [VERSION], vacuum or features, or sysupdate components, where sysupdate.NAME.d is a name, NAME doesn't begin with a dash, and VERSION is as 2.0~rc1",
    },
    Synopsis {
        word: "portable",
        words: "portable list, inspect IMAGE [PREFIX ..], is-attached NAME, attach IMAGE [PREFIX ..], detach NAME or reattach IMAGE [PREFIX ..], where IMAGE is a name or begins with a slash, and a name doesn't begin with a dash; attach and reattach take --runtime, --profile=NAME, --copy=copy, symlink, auto or mixed, and --extension=IMAGE, not with --copy=symlink",
    },
    Synopsis {
        word: "mark",
        words: "mark [K], where K is 1 to 16",
    },
    Synopsis {
        word: "history",
        words: "history [--changes G], where G is the number of a generation",
    },
    Synopsis {
        word: "rollback",
        words: "rollback G, where G is the number of a generation",
    },
    Synopsis {
        word: "forget",
        words: "forget G, where G is the number of a generation",
    },
    Synopsis {
        word: "tree",
        words: "tree [PATH], where PATH begins with a slash",
    },
    Synopsis {
        word: "cat",
        words: "cat PATH, where PATH begins with a slash, and isn't the root",
    },
    Synopsis {
        word: "compare",
        words: "compare TEXT TEXT",
    },
    Synopsis {
        word: "check",
        words: "check",
    },
    Synopsis {
        word: "layer",
        words: "layer, which reads tree texts from standard input",
    },
    Synopsis {
        word: "migrate",
        words: "migrate",
    },
    Synopsis {
        word: "batch",
        words: "batch, which reads lines of commands from standard input",
    },
    Synopsis {
        word: "sample",
        words: "sample N, where N is 1 to 500",
    },
];

/// How the depot stands to the store folder, where a command reads what stands in the depot, or a line of a batch may: in it or
/// below it cleaning would take away what is to be read. A `list` cleans nothing, but must not offer what its `update` could not take.
///
/// # Errors
/// `OutOfMemory` alone.
pub(crate) fn nesting_for(
    rt: &HostRuntime,
    command: &Command,
    store: &str,
    depot: &str,
) -> Result<Nesting, OutOfMemory> {
    if !reads_depot(command) {
        return Ok(Nesting::Apart);
    }
    nesting_of(rt.alloc(), rt, depot, store)
}

// Whether a command reads what stands in the depot, or a line of a batch may.
fn reads_depot(command: &Command) -> bool {
    match command {
        Command::ImportFs { .. } | Command::Batch => true,
        Command::Sysupdate { verb, .. } => verb_reads_depot(verb),
        _ => false,
    }
}

fn verb_reads_depot(verb: &UpdateVerb) -> bool {
    match verb {
        UpdateVerb::List | UpdateVerb::CheckNew | UpdateVerb::Update { .. } => true,
        UpdateVerb::Vacuum | UpdateVerb::Features => false,
    }
}
