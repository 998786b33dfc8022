ghost use Rattle.std.specs.Prelude.{◌≡◌};
ghost use Rattle.ext_configs.specs.Configs.{config_suffix};

/// Which configuration files are looked for.
#[derive(Clone, Copy, PartialEq, Eq)]
pub enum ConfigKind {
    /// Transfer files, whose names end in `.transfer`; sysupdate.d(5).
    Transfer,
    /// Feature files, whose names end in `.feature`; sysupdate.features(5).
    Feature,
}

impl ConfigKind {
    /// What the names of such files end in.
    pub fn suffix(self) -> &'static [u8]
        ensures { result.now ≡ config_suffix self }
    {
        match self {
            ConfigKind::Transfer => b".transfer",
            ConfigKind::Feature => b".feature",
        }
    }
}
