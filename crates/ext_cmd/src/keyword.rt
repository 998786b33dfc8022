// The words that say which command is meant.
ghost use Rattle.std.specs.Prelude.{◌≡◌, ◌<◌, IfSome, bytes_eq, length, position};
ghost use Rattle.ext_cmd.specs.Keyword.{ReadsKeyword, ReadsPortWord, ReadsUpdateWord, ReadsVerb};

/// The first word of a command.
#[derive(Clone, Copy)]
pub(crate) enum Keyword {
    /// `init`.
    Init,
    /// `import-fs`.
    ImportFs,
    /// `remove`.
    Remove,
    /// `sysext`.
    Sysext,
    /// `confext`.
    Confext,
    /// `tree`.
    Tree,
    /// `cat`.
    Cat,
    /// `compare`.
    Compare,
    /// `check`.
    Check,
    /// `layer`.
    Layer,
    /// `migrate`.
    Migrate,
    /// `batch`.
    Batch,
    /// `sample`.
    Sample,
    /// `sysupdate`.
    Sysupdate,
    /// `portable`.
    Portable,
    /// `mark`.
    Mark,
    /// `history`.
    History,
    /// `rollback`.
    Rollback,
    /// `forget`.
    Forget,
}

// The keywords.
const KEYWORDS: [Keyword; 19] = [
    Keyword::Init,
    Keyword::ImportFs,
    Keyword::Remove,
    Keyword::Sysext,
    Keyword::Confext,
    Keyword::Tree,
    Keyword::Cat,
    Keyword::Compare,
    Keyword::Check,
    Keyword::Layer,
    Keyword::Migrate,
    Keyword::Batch,
    Keyword::Sample,
    Keyword::Sysupdate,
    Keyword::Portable,
    Keyword::Mark,
    Keyword::History,
    Keyword::Rollback,
    Keyword::Forget,
];

// Their texts, in the same order.
const KEYWORD_TEXTS: [&str; 19] = [
    "init",
    "import-fs",
    "remove",
    "sysext",
    "confext",
    "tree",
    "cat",
    "compare",
    "check",
    "layer",
    "migrate",
    "batch",
    "sample",
    "sysupdate",
    "portable",
    "mark",
    "history",
    "rollback",
    "forget",
];

impl Keyword {
    /// The keyword of this text; `None` exactly where it is none.
    pub(crate) fn read(text: &[u8]) -> Option<Keyword>
        ensures { ReadsKeyword text.now result }
    {
        match place_in(&KEYWORD_TEXTS, text) {
            None => None,
            Some(place) => Some(KEYWORDS[place]),
        }
    }
}

/// The word after `sysext` and `confext`.
#[derive(Clone, Copy)]
pub(crate) enum Verb {
    /// `list`.
    List,
    /// `status`.
    Status,
    /// `merge`.
    Merge,
    /// `unmerge`.
    Unmerge,
    /// `refresh`.
    Refresh,
    /// `changes`.
    Changes,
    /// `explain`.
    Explain,
}

// The verbs.
const VERBS: [Verb; 7] = [
    Verb::List,
    Verb::Status,
    Verb::Merge,
    Verb::Unmerge,
    Verb::Refresh,
    Verb::Changes,
    Verb::Explain,
];

// Their texts, in the same order.
const VERB_TEXTS: [&str; 7] = [
    "list", "status", "merge", "unmerge", "refresh", "changes", "explain",
];

impl Verb {
    /// The verb of this text; `None` exactly where it is none.
    pub(crate) fn read(text: &[u8]) -> Option<Verb>
        ensures { ReadsVerb text.now result }
    {
        match place_in(&VERB_TEXTS, text) {
            None => None,
            Some(place) => Some(VERBS[place]),
        }
    }
}

/// The word by which something is asked of updates.
#[derive(Clone, Copy)]
pub(crate) enum UpdateWord {
    /// `list`.
    List,
    /// `check-new`.
    CheckNew,
    /// `update`.
    Update,
    /// `vacuum`.
    Vacuum,
    /// `features`.
    Features,
}

// The words by which something is asked of updates.
const UPDATE_WORDS: [UpdateWord; 5] = [
    UpdateWord::List,
    UpdateWord::CheckNew,
    UpdateWord::Update,
    UpdateWord::Vacuum,
    UpdateWord::Features,
];

// Their texts, in the same order.
const UPDATE_WORD_TEXTS: [&str; 5] = ["list", "check-new", "update", "vacuum", "features"];

impl UpdateWord {
    /// What is asked by this text; `None` exactly where it asks nothing.
    pub(crate) fn read(text: &[u8]) -> Option<UpdateWord>
        ensures { ReadsUpdateWord text.now result }
    {
        match place_in(&UPDATE_WORD_TEXTS, text) {
            None => None,
            Some(place) => Some(UPDATE_WORDS[place]),
        }
    }
}

/// The word after `portable`.
#[derive(Clone, Copy)]
pub(crate) enum PortWord {
    /// `list`.
    List,
    /// `inspect`.
    Inspect,
    /// `is-attached`.
    IsAttached,
    /// `attach`.
    Attach,
    /// `detach`.
    Detach,
    /// `reattach`.
    Reattach,
}

// The words after `portable`.
const PORT_WORDS: [PortWord; 6] = [
    PortWord::List,
    PortWord::Inspect,
    PortWord::IsAttached,
    PortWord::Attach,
    PortWord::Detach,
    PortWord::Reattach,
];

// Their texts, in the same order.
const PORT_WORD_TEXTS: [&str; 6] = [
    "list",
    "inspect",
    "is-attached",
    "attach",
    "detach",
    "reattach",
];

impl PortWord {
    /// What is done by this text; `None` exactly where nothing is.
    pub(crate) fn read(text: &[u8]) -> Option<PortWord>
        ensures { ReadsPortWord text.now result }
    {
        match place_in(&PORT_WORD_TEXTS, text) {
            None => None,
            Some(place) => Some(PORT_WORDS[place]),
        }
    }
}

// The place of a text among words.
fn place_in(words: &[&str], text: &[u8]) -> Option<usize>
    ensures value { result ≡ position (λ word. bytes_eq word.now text.now) words.now }
    ensures within { IfSome result (λ place. place < length words.now) }
{
    words.iter().position(|word| word.as_bytes() == text)
}
