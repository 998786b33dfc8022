// What a layer has at a path and above it: the entry of each name of the path is searched near that of the name before.
ghost use Rattle.std.specs.Prelude.{◌≡◌, ◌++◌, if◌then◌else◌, Some, None, IfOk};
ghost use Rattle.std.specs.Option.{option_copied, option_map};
ghost use Rattle.ext_tree.specs.Part.{part};
ghost use Rattle.ext_tree.specs.Tree.{lookup};
ghost use Rattle.ext_layer.specs.Layered.{cuts_below};
ghost use Rattle.ext_host.specs.Stamped.{stamped_entry};
ghost use Rattle.ext_explain.specs.Finding.{cover_of, finding_of};
ghost use Rattle.ext_explain.specs.Search.{StandsFrom};

use crate::searching::spot_near;
use ext_host::Held;
use ext_origin::Finding;
use ext_text::{OutOfMemory, Path, PathRef};
use ext_tree::{Entry, Stamp, Tree};

type Pair = (Path, Entry<Held>);

// What is seen of a layer along a path: the entry at the path, and the path in the base of the topmost entry above it that
// lets nothing of lower layers through below it.
#[derive(Clone, Copy)]
struct Sight<'a> {
    found: Option<&'a Entry<Held>>,
    cover: Option<&'a Path>,
}

// What the layer that the base has below these names has at the path, or hides there.
pub(crate) fn finding_in(
    base: &Tree<Held>,
    layer: &PathRef,
    path: &Path,
) -> Result<Option<Finding>, OutOfMemory>
    ensures { IfOk result (λ finding. finding ≡ finding_of (part layer.now base.now) path.now) }
{
    finding_from(base, 0, layer, &path.names())
}

// The same, where all that is directly in the layer stands from this index on.
pub(crate) fn finding_from(
    base: &Tree<Held>,
    from: usize,
    layer: &PathRef,
    path: &PathRef,
) -> Result<Option<Finding>, OutOfMemory>
    requires { StandsFrom base.now layer.now from }
    ensures { IfOk result (λ finding. finding ≡ finding_of (part layer.now base.now) path.now) }
{
    let sight = see(base, from, layer, path);
    match (sight.found, sight.cover) {
        (Some(entry), _) => Ok(Some(Finding::Has(stamped(entry)?))),
        (None, Some(at)) => Ok(Some(Finding::Covers(at.rest(layer.depth())?))),
        (None, None) => Ok(None),
    }
}

// What is seen along the path from the directory of the base that has these names, and in which all stands from this index on.
fn see<'a>(base: &'a Tree<Held>, from: usize, directory: &PathRef, path: &PathRef) -> Sight<'a>
    requires { StandsFrom base.now directory.now from }
    ensures found { option_copied result.found ≡ lookup (part directory.now base.now) path.now }
    ensures cover { option_copied result.cover ≡ option_map (λ at. directory.now ++ at) (cover_of (part directory.now base.now) path.now) }
{
    let Some((name, below)) = path.split_first() else {
        return nothing();
    };
    let Some(spot) = spot_near(base, from, directory, name) else {
        return nothing();
    };
    if below.is_root() {
        return at_end(spot.pair);
    }
    let deeper = see(base, spot.inside, &spot.pair.0.names(), &below);
    seen_over(spot.pair, deeper)
}

// Nothing is seen.
fn nothing<'a>() -> Sight<'a>
    ensures found { option_copied result.found ≡ None }
    ensures cover { option_copied result.cover ≡ None }
{
    Sight {
        found: None,
        cover: None,
    }
}

// What is seen where the path ends at this entry.
fn at_end(pair: &Pair) -> Sight<'_>
    ensures found { option_copied result.found ≡ Some pair.now.1 }
    ensures cover { option_copied result.cover ≡ None }
{
    Sight {
        found: Some(&pair.1),
        cover: None,
    }
}

// What is seen along a path that goes on below this entry, by what is seen from there.
fn seen_over<'a>(pair: &'a Pair, deeper: Sight<'a>) -> Sight<'a>
    ensures found { option_copied result.found ≡ option_copied deeper.entry.found }
    ensures cover { option_copied result.cover
        ≡ (if cuts_below (Some pair.now.1) then Some pair.now.0 else option_copied deeper.entry.cover) }
{
    let cover = if cuts_below(&pair.1) {
        Some(&pair.0)
    } else {
        deeper.cover
    };
    Sight {
        found: deeper.found,
        cover,
    }
}

// Whether the entry lets nothing of lower layers through below it: all but directories that are not opaque.
fn cuts_below(entry: &Entry<Held>) -> bool
    ensures { result ≡ cuts_below (Some entry.now) }
{
    !entry.is_directory() || entry.is_opaque()
}

// The entry, a file with its stamp alone.
fn stamped(entry: &Entry<Held>) -> Result<Entry<Stamp>, OutOfMemory>
    ensures { IfOk result (λ copy. copy ≡ stamped_entry entry.now) }
{
    match entry {
        Entry::Dir(attributes) => Ok(Entry::Dir(*attributes)),
        Entry::Opaque(attributes) => Ok(Entry::Opaque(*attributes)),
        Entry::File(attributes, held) => Ok(Entry::File(attributes.copy()?, *held.stamp())),
        Entry::Link(owner, target) => Ok(Entry::Link(*owner, target.copy()?)),
        Entry::Hide => Ok(Entry::Hide),
    }
}
