// The keys of a release file that are those of a class of extensions.
ghost use Rattle.std.specs.Prelude.{◌≡◌};
ghost use Rattle.ext_match.specs.Keys.{level_key, scope_key};

use ext_text::Extension;

// The key of the level.
pub(crate) fn level_key(class: Extension) -> &'static str
    ensures { result.now ≡ level_key class }
{
    match class {
        Extension::Sysext => "SYSEXT_LEVEL",
        Extension::Confext => "CONFEXT_LEVEL",
    }
}

// The key of the list of scopes.
pub(crate) fn scope_key(class: Extension) -> &'static str
    ensures { result.now ≡ scope_key class }
{
    match class {
        Extension::Sysext => "SYSEXT_SCOPE",
        Extension::Confext => "CONFEXT_SCOPE",
    }
}
