// What may follow in the lists of an index, by a look at the last item alone.
ghost use Rattle.std.specs.Prelude.{◌≡◌};
ghost use Rattle.std.specs.Ordering.{nat_cmp};
ghost use Rattle.ext_lines.specs.ByteOrder.{bytes_cmp};
ghost use Rattle.ext_text.specs.Path.{path_cmp};
ghost use Rattle.ext_vers.specs.Version.{order_of};
ghost use Rattle.ext_host.specs.declared.attachment.Attachment.{Attachment};
ghost use Rattle.ext_host.specs.declared.manifest.Item.{Item};
ghost use Rattle.ext_host.specs.declared.manifest.Manifest.{Manifest};
ghost use Rattle.ext_host.specs.declared.past.Past.{Past};
ghost use Rattle.ext_index_reader.specs.Following.{may_follow, may_follow_apart};

use ext_host::{Attachment, Item, Manifest, Past};
use ext_text::{Name, Path};

/// Whether a name follows merged names, in the order of versions.
pub(crate) fn follows_as_version(names: &[Name], name: &Name) -> bool
    ensures { result ≡ may_follow order_of (λ n. n) names.now name.now }
{
    match names {
        [] => true,
        [.., last] => ext_vers::order(last.bytes(), name.bytes()).is_lt(),
    }
}

/// Whether a name follows hierarchies, in the order of their bytes.
pub(crate) fn follows_as_name(names: &[Name], name: &Name) -> bool
    ensures { result ≡ may_follow bytes_cmp (λ n. n) names.now name.now }
{
    match names {
        [] => true,
        [.., last] => last.cmp(name).is_lt(),
    }
}

/// Whether a name follows attachments, in the order of the bytes of their names.
pub(crate) fn follows_as_attachment(attached: &[Attachment], name: &Name) -> bool
    ensures { result ≡ may_follow bytes_cmp (λ (a : Attachment). a.name) attached.now name.now }
{
    match attached {
        [] => true,
        [.., last] => last.name.cmp(name).is_lt(),
    }
}

/// Whether a path follows paths.
pub(crate) fn follows_as_path(paths: &[Path], path: &Path) -> bool
    ensures { result ≡ may_follow path_cmp (λ p. p) paths.now path.now }
{
    match paths {
        [] => true,
        [.., last] => last.cmp(path).is_lt(),
    }
}

/// Whether a path follows those of items.
pub(crate) fn follows_as_item(items: &[Item], path: &Path) -> bool
    ensures { result ≡ may_follow path_cmp (λ (i : Item). i.path) items.now path.now }
{
    match items {
        [] => true,
        [.., last] => last.path.cmp(path).is_lt(),
    }
}

/// Whether a path follows those of manifests, and is not below the last of them.
pub(crate) fn follows_as_manifest(kept: &[Manifest], path: &Path) -> bool
    ensures { result ≡ may_follow_apart (λ (m : Manifest). m.path) kept.now path.now }
{
    match kept {
        [] => true,
        [.., last] => last.path.cmp(path).is_lt() && !path.starts_with(&last.path),
    }
}

/// Whether a generation follows those of past trees.
pub(crate) fn follows_as_generation(past: &[Past], generation: u32) -> bool
    ensures { result ≡ may_follow nat_cmp (λ (p : Past). p.generation) past.now generation }
{
    match past {
        [] => true,
        [.., last] => last.generation < generation,
    }
}
