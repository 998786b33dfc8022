use ext_text::OutOfMemory;
use ext_view::ViewErr;
use thiserror::Error;

/// Why a path is not explained.
#[derive(Clone, Copy, Debug, PartialEq, Eq, Error)]
pub enum ExplainErr {
    /// The host is not surveyed; never `Merged` nor `Limit`.
    #[error("the host is not surveyed")]
    Survey(ViewErr),
    /// No layer has an entry at the path, nor hides what is below one there.
    #[error("no layer has an entry there")]
    NoEntry,
}

impl From<ViewErr> for ExplainErr {
    ghost use Rattle.std.specs.Prelude.{◌≡◌};
    ghost use Rattle.ext_explain.specs.declared.errors.ExplainErr.TheVariants as errors;

    ghost from_gives = { λ failed e. e ≡ errors.Survey failed };

    fn from(failed: ViewErr) -> ExplainErr {
        ExplainErr::Survey(failed)
    }
}

impl From<OutOfMemory> for ExplainErr {
    ghost use Rattle.std.specs.Prelude.{◌≡◌};
    ghost use Rattle.ext_view.specs.declared.errors.ViewErr.TheVariants as view_errors;
    ghost use Rattle.ext_explain.specs.declared.errors.ExplainErr.TheVariants as errors;

    ghost from_gives = { λ _ e. e ≡ errors.Survey view_errors.OutOfMemory };

    fn from(_failed: OutOfMemory) -> ExplainErr {
        ExplainErr::Survey(ViewErr::OutOfMemory)
    }
}
