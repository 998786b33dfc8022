// Feature files are read: first the syntax, then their one key.
ghost use Rattle.std.specs.Option.{option_copied};
ghost use Rattle.ext_transfer.specs.Feature.{GivesFeature, enabled_set, feature_of};

use crate::choices::{is_no, is_yes};
use ext_ini::{IniErr, Setting, read_ini};
use ext_text::OutOfMemory;
use std::alloc::Global;
use thiserror::Error;

/// Why bytes are no feature file.
#[derive(Clone, Copy, Debug, PartialEq, Eq, Error)]
pub enum FeatureErr {
    /// An allocation failed.
    #[error("out of memory")]
    OutOfMemory,
    /// The file is faulty.
    #[error("line {line} of the feature file is faulty: {why}")]
    BadFeature {
        /// The line of the fault, counted from 1. A line that goes on has the number of its first line.
        line: u64,
        /// What is wrong.
        why: FeatureFault,
    },
}

/// What is wrong with a feature file.
#[derive(Clone, Copy, Debug, PartialEq, Eq, Error)]
pub enum FeatureFault {
    /// The line is faulty by the syntax of unit files.
    #[error("it is no line of a unit file")]
    Syntax,
    /// `Enabled=` of `[Feature]` is no boolean.
    #[error("Enabled= of [Feature]")]
    Enabled,
}

impl From<OutOfMemory> for FeatureErr {
    ghost use Rattle.std.specs.Prelude.{◌≡◌};
    ghost use Rattle.ext_transfer.specs.declared.feature.FeatureErr.TheVariants as errors;

    ghost from_gives = { λ _ e. e ≡ errors.OutOfMemory };

    fn from(_failed: OutOfMemory) -> FeatureErr {
        FeatureErr::OutOfMemory
    }
}

/// Reads a feature file, which has the syntax of unit files: whether the feature is on, by the last `Enabled=` of `[Feature]`;
/// sysupdate.features(5). It is on for `yes`, `true`, `on`, `1`, `y` or `t`, and off for `no`, `false`, `off`, `0`, `n` or `f`,
/// or where the key is absent. Unknown sections and keys count for nothing.
///
/// # Errors
/// - `BadFeature` with the first fault: `Syntax` with the first line that is no line of a unit file, and else `Enabled` with the
///   line of the last `Enabled=`, if its value is none of these words.
/// - `OutOfMemory`.
pub fn read_feature(alloc: Global, bytes: &[u8]) -> Result<bool, FeatureErr>
    ensures { GivesFeature result (feature_of bytes.now) }
{
    match read_ini(alloc, bytes) {
        Ok(ini) => enabled(ini.last("Feature", "Enabled")),
        Err(IniErr::OutOfMemory) => Err(FeatureErr::OutOfMemory),
        Err(IniErr::BadIni { line, why: _ }) => Err(FeatureErr::BadFeature {
            line,
            why: FeatureFault::Syntax,
        }),
    }
}

// Enabled= of [Feature].
fn enabled(setting: Option<&Setting>) -> Result<bool, FeatureErr>
    ensures { GivesFeature result (enabled_set (option_copied setting.entry)) }
{
    match setting {
        None => Ok(false),
        Some(setting) if is_yes(setting.value.bytes()) => Ok(true),
        Some(setting) if is_no(setting.value.bytes()) => Ok(false),
        Some(setting) => Err(FeatureErr::BadFeature {
            line: setting.line,
            why: FeatureFault::Enabled,
        }),
    }
}
