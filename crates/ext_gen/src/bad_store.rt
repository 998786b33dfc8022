use ext_host::Damage;

/// Why what is in the store folder is no store.
#[derive(Clone, Copy, PartialEq, Eq)]
pub enum BadStore {
    /// `current`, or the index that it names, is none.
    Broken {
        /// 0 where `current` names no generation, else the first line of the index that breaks a rule.
        line: u64,
    },
    /// A kept file is another than the one that is listed.
    Damaged(Damage),
}
