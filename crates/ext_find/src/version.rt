// The version that the end of a candidate's name names.
ghost use Rattle.std.specs.Prelude.{◌≡◌, ◌∷◌, ◌++◌, MatchOption};
ghost use Rattle.std.specs.Ordering.{eq_by_cmp};
ghost use Rattle.ext_lines.specs.ByteOrder.{bytes_cmp};
ghost use Rattle.ext_lines.specs.Split.{Lacks};
ghost use Rattle.ext_text.specs.Arch.{arch_name};
ghost use Rattle.ext_find.specs.Version.{EndsWithArch, ReadsVersion, ReadsVersionAfter};

use ext_text::Arch;
use ext_vers::is_version;
use memchr::memrchr;

// The version that a name names past its first bytes; `None` also where it does not begin with these.
pub(crate) fn version_after<'a>(name: &'a [u8], start: &[u8], arch: Arch) -> Option<&'a [u8]>
    ensures { ReadsVersionAfter arch start.now name.now result }
{
    match name.strip_prefix(start) {
        None => None,
        Some(text) => version_of(text, arch),
    }
}

// The version for the architecture that the text names: what stands before `_` and the architecture, or the whole text
// where it ends with no architecture after a version.
fn version_of(text: &[u8], arch: Arch) -> Option<&[u8]>
    ensures { ReadsVersion arch text.now result }
{
    match split_at_arch(text) {
        Some((version, word)) => {
            if is_name_of(word, arch) {
                Some(version)
            } else {
                None
            }
        }
        None => { if is_version(text) { Some(text) } else { None } }
    }
}

// Whether the text is the name of the architecture.
fn is_name_of(text: &[u8], arch: Arch) -> bool
    ensures { result ≡ eq_by_cmp bytes_cmp text.now (arch_name arch) }
{
    text.cmp(arch.name().as_bytes()).is_eq()
}

// The version and, after its last `_`, the architecture with which a text ends; `None` exactly where it ends with none.
fn split_at_arch(text: &[u8]) -> Option<(&[u8], &[u8])>
    ensures { EndsWithArch text.now result }
{
    match split_last(text) {
        None => None,
        Some((version, word)) => {
            if is_version(version) && Arch::read(word).is_some() {
                Some((version, word))
            } else {
                None
            }
        }
    }
}

// The text before its last `_`, and the text after it; `None` exactly where it has none.
fn split_last(text: &[u8]) -> Option<(&[u8], &[u8])>
    ensures { MatchOption result (Lacks 95 text.now) (λ p. (text.now ≡ p.0.now ++ 95 ∷ p.1.now) × Lacks 95 p.1.now) }
{
    match memrchr(b'_', text) {
        None => None,
        Some(index) => {
            let (before, rest) = text.split_at(index);
            match rest {
                [] => None,
                [_bar, after @ ..] => Some((before, after)),
            }
        }
    }
}
