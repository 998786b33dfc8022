ghost use Rattle.std.specs.Prelude.{◌≡◌, ◌↔◌, true, IsTrue, codes};
ghost use Rattle.std.specs.FinMap as map;
ghost use Rattle.ext_match.specs.Keys.{level_key};
ghost use Rattle.ext_match.specs.Verdict.{FitsArch, FitsLevel, FitsVersion, HasScope, HaveLevels, IsVerdict, JudgesRelease};

use crate::keys::{level_key, scope_key};
use ext_release::Release;
use ext_text::{Arch, Extension, Scope};

/// Whether an extension fits a host, or the first reason why it doesn't.
#[derive(Clone, Copy, Debug, PartialEq, Eq)]
pub enum Verdict {
    /// It fits, or was forced to.
    Fits,
    /// The host's scope is not in the extension's list.
    Scope,
    /// The extension is made for another architecture.
    Architecture,
    /// The extension has no `ID`.
    NoId,
    /// The extension is made for hosts of another `ID`.
    Id,
    /// The extension and the host have different levels.
    Level,
    /// The extension is not made for the host's `VERSION_ID`.
    Version,
}

/// Whether an extension of this class fits a host of this scope and architecture, by their release files. The first of
/// these that holds:
///
/// 1. `Fits` where `force` is set.
/// 2. `Scope` where the list of the class, `SYSEXT_SCOPE` or `CONFEXT_SCOPE`, lacks the host's scope. An extension
///    without a list has `system portable`.
/// 3. `Architecture` where `ARCHITECTURE` is set, is not `_any` and is not the host's.
/// 4. `NoId` where the extension has no `ID`.
/// 5. `Fits` where its `ID` is `_any`.
/// 6. `Id` where its `ID` is not the host's. A host without one has `linux`.
/// 7. Where both set the class's level, `SYSEXT_LEVEL` or `CONFEXT_LEVEL`: `Fits` where it is the same, else `Level`.
/// 8. `Version` where the host sets `VERSION_ID` and the extension doesn't set the same.
/// 9. `Fits`.
///
/// After systemd-sysext(8) and os-release(5).
pub fn judge(
    host: &Release,
    ext: &Release,
    class: Extension,
    scope: Scope,
    arch: Arch,
    force: bool,
) -> Verdict
    ensures { IsVerdict host.now ext.now class scope arch force result }
{
    if force {
        return Verdict::Fits;
    }
    if !has_scope(ext, class, scope) {
        return Verdict::Scope;
    }
    if !fits_arch(ext, arch) {
        return Verdict::Architecture;
    }
    match ext.value("ID") {
        None => Verdict::NoId,
        Some("_any") => Verdict::Fits,
        Some(id) if id != host.value("ID").unwrap_or("linux") => Verdict::Id,
        Some(_) => judge_release(host, ext, class),
    }
}

// Whether the scope is in the extension's list.
fn has_scope(ext: &Release, class: Extension, scope: Scope) -> bool
    ensures { IsTrue result ↔ HasScope ext.now class scope }
{
    let key = scope_key(class);
    match ext.value(key) {
        Some(_) => ext.has_word(key, scope.name()),
        None => matches!(scope, Scope::System | Scope::Portable),
    }
}

// Whether the extension is made for the architecture.
fn fits_arch(ext: &Release, arch: Arch) -> bool
    ensures { IsTrue result ↔ FitsArch ext.now arch }
{
    match ext.value("ARCHITECTURE") {
        None => true,
        Some(name) => name == "_any" || name == arch.name(),
    }
}

// What the level decides, or else the version.
fn judge_release(host: &Release, ext: &Release, class: Extension) -> Verdict
    ensures { JudgesRelease host.now ext.now class result }
{
    let key = level_key(class);
    match (host.value(key), ext.value(key)) {
        (Some(a), Some(b)) if a == b => Verdict::Fits,
        (Some(_), Some(_)) => Verdict::Level,
        _ if fits_version(host, ext) => Verdict::Fits,
        _ => Verdict::Version,
    }
}

// Whether the extension is made for the host's version.
fn fits_version(host: &Release, ext: &Release) -> bool
    ensures { IsTrue result ↔ FitsVersion host.now ext.now }
{
    match host.value("VERSION_ID") {
        None => true,
        Some(version) => ext.value("VERSION_ID") == Some(version),
    }
}
