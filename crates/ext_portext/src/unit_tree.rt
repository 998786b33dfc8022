// The tree in which the units of a service with extensions are looked for.
ghost use Rattle.std.specs.Prelude.{◌≡◌, ◌≢◌, ◌≤◌, [], length, map, reverse, IfOk, IsTrue, None, OnOk};
ghost use Rattle.std.specs.FinMap.{is_sorted};
ghost use Rattle.std.specs.List.{AllByRecursion};
ghost use Rattle.ext_text.specs.Path.{path_cmp};
ghost use Rattle.ext_tree.specs.Joining.{put_all};
ghost use Rattle.ext_tree.specs.Tree.{IsTree, lookup, most_entries};
ghost use Rattle.ext_host.specs.Host.{is_in};
ghost use Rattle.ext_portext.specs.Steps.{FitsTree, GivesUnitTree};
ghost use Rattle.ext_portext.specs.UnitTree.{inside_tree, outside_tree};

use crate::errors::PortExtErr;
use crate::extending::Extending;
use ext_host::{Held, is_in};
use ext_layer::{Layers, layer};
use ext_text::{Name, OutOfMemory, Path, Which};
use ext_tree::{Entry, MOST_ENTRIES, Tree, joined};
use std::alloc::Global;

type Pair = (Path, Entry<Held>);

// That tree, of an image and its extensions.
pub(crate) fn unit_tree(
    alloc: Global,
    hierarchies: &[Name],
    image: &Tree<Held>,
    extensions: &[Extending],
) -> Result<Tree<Held>, PortExtErr>
    ensures { GivesUnitTree hierarchies.now image.now extensions.now result }
{
    if extensions.is_empty() {
        Ok(copied(image)?)
    } else {
        extended_tree(alloc, hierarchies, image, extensions)
    }
}

// The image itself.
fn copied(image: &Tree<Held>) -> Result<Tree<Held>, OutOfMemory>
    ensures same { IfOk result (λ tree. tree ≡ image.now) }
    ensures count { length image.now ≤ most_entries }
{
    // `pairs` says of the image that it is a tree within the limit.
    let _entries = image.pairs();
    image.copy()
}

// The tree of an image and its extensions, of which there is one at least.
fn extended_tree(
    alloc: Global,
    hierarchies: &[Name],
    image: &Tree<Held>,
    extensions: &[Extending],
) -> Result<Tree<Held>, PortExtErr>
    requires { extensions.now ≢ [] }
    ensures { GivesUnitTree hierarchies.now image.now extensions.now result }
{
    // `pairs` says of the image that it is a tree.
    let _entries = image.pairs();
    let layers = layers_of(alloc, hierarchies, extensions)?;
    let under = inside(hierarchies, image)?;
    match layer(alloc, &layers, &under) {
        Ok(view) => with_view(alloc, hierarchies, image, view),
        Err(failed) => Err(PortExtErr::from(failed)),
    }
}

// What the image has elsewhere, with what is visible at and below the hierarchies.
fn with_view(
    alloc: Global,
    hierarchies: &[Name],
    image: &Tree<Held>,
    view: Tree<Held>,
) -> Result<Tree<Held>, PortExtErr>
    requires apart { AllByRecursion (λ e. lookup view e.0 ≡ None) (outside_tree hierarchies.now image.now) }
    requires tree { IsTree (put_all (outside_tree hierarchies.now image.now) view) }
    ensures { FitsTree (put_all (outside_tree hierarchies.now image.now) view) result }
{
    let others = outside(hierarchies, image)?;
    let pairs = joined(alloc, others, view.into_pairs())?;
    within_limit(pairs)
}

// The entries as a tree, where they are not too many.
fn within_limit(pairs: Vec<Pair>) -> Result<Tree<Held>, PortExtErr>
    requires { IsTree pairs.items }
    ensures { FitsTree pairs.items result }
{
    if pairs.len() > MOST_ENTRIES {
        return Err(PortExtErr::Limit {
            which: Which::Entries,
        });
    }
    Ok(Tree::from_pairs(pairs))
}

// What the extensions have at and below the hierarchies, the last one first.
fn layers_of(
    alloc: Global,
    hierarchies: &[Name],
    extensions: &[Extending],
) -> Result<Layers<Held>, OutOfMemory>
    ensures layers { IfOk result (λ layers. layers ≡
        reverse (map (λ extending. inside_tree hierarchies.now extending.tree) extensions.now)) }
    ensures trees { OnOk result (AllByRecursion (λ extending. IsTree extending.tree) extensions.now) }
{
    let mut layers = Vec::with_capacity(alloc, extensions.len())?;
    'extensions: for extending in extensions {
        layers.push(inside(hierarchies, &extending.tree)?)?;
    }
    layers.reverse();
    Ok(Layers::from_vec(layers))
}

// What the tree has at and below the hierarchies, copied.
fn inside(hierarchies: &[Name], tree: &Tree<Held>) -> Result<Tree<Held>, OutOfMemory>
    ensures inside { IfOk result (λ inside. inside ≡ inside_tree hierarchies.now tree.now) }
    ensures tree { IsTree tree.now }
{
    // `pairs` says of the tree that it is one.
    let _entries = tree.pairs();
    let mut pairs = tree.copy()?.into_pairs();
    pairs.retain(|pair| is_inside(hierarchies, pair));
    Ok(Tree::from_pairs(pairs))
}

// What the tree has elsewhere, copied.
fn outside(hierarchies: &[Name], tree: &Tree<Held>) -> Result<Vec<Pair>, OutOfMemory>
    ensures outside { IfOk result (λ pairs. pairs.items ≡ outside_tree hierarchies.now tree.now) }
    ensures sorted { IfOk result (λ pairs. IsTrue (is_sorted path_cmp pairs.items)) }
{
    let mut pairs = tree.copy()?.into_pairs();
    pairs.retain(|pair| !is_inside(hierarchies, pair));
    Ok(pairs)
}

// Whether the entry is at or below one of the hierarchies.
fn is_inside(hierarchies: &[Name], pair: &Pair) -> bool
    ensures { result ≡ is_in hierarchies.now pair.now.0 }
{
    is_in(hierarchies, &pair.0.names())
}
