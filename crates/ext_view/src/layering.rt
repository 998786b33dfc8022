// The merged host of some images.
ghost use Rattle.std.specs.Prelude.{◌<◌, length, IfOk};
ghost use Rattle.std.specs.List.{AllByRecursion};
ghost use Rattle.ext_tree.specs.Tree.{IsTree};
ghost use Rattle.ext_host.specs.Planning.{IsBaseTree, IsPlannedHost};
ghost use Rattle.ext_host.specs.Valid.{IsValidHost};
ghost use Rattle.ext_view.specs.Layering.{AreChosen, FitsWithin, GivesHost, GivesTrees, GivesView};
ghost use Rattle.ext_view.specs.Parts.{LeadsItem};

use crate::errors::ViewErr;
use crate::hierarchies::hierarchies_of;
use crate::inside::{Pair, entries_inside};
use crate::layers::layers_of;
use crate::merging::names_of;
use crate::replaced::replaced;
use crate::surveyed::SurveyItem;
use crate::view::with_view;
use ext_host::{Held, Host, passed_limit};
use ext_layer::layer;
use ext_text::{Extension, Name};
use ext_tree::Tree;
use std::alloc::Global;

// The merged host of these images, of which there is one at least.
pub(crate) fn merged(
    alloc: Global,
    host: &Host,
    class: Extension,
    base: Tree<Held>,
    items: &[SurveyItem],
) -> Result<Host, ViewErr>
    requires valid { IsValidHost host.now }
    requires base { IsBaseTree host.now base }
    requires chosen { AreChosen base items.now }
    requires non_empty { 0 < length items.now }
    ensures gives { GivesHost host.now class base items.now result }
    ensures next { IfOk result (IsPlannedHost host.now) }
{
    let (root, lower) = view_trees(alloc, host, class, base, items)?;
    let names = names_of(alloc, items)?;
    Ok(with_view(alloc, host, class, Some(names), root, lower)?)
}

// What is seen in the merged host, and what lies under it.
fn view_trees(
    alloc: Global,
    host: &Host,
    class: Extension,
    base: Tree<Held>,
    items: &[SurveyItem],
) -> Result<(Tree<Held>, Tree<Held>), ViewErr>
    requires base { IsBaseTree host.now base }
    requires chosen { AreChosen base items.now }
    ensures { GivesTrees host.now class base items.now result }
{
    let hierarchies = hierarchies_of(host, class).as_slice();
    let old_root = host.root.pairs();
    let old_lower = host.lower.pairs();
    let (view, under) = view_of(alloc, base, hierarchies, items)?;
    let root = replaced(alloc, hierarchies, old_root, view.into_pairs())?;
    let lower = replaced(alloc, hierarchies, old_lower, under.into_pairs())?;
    within_limits(root, lower)
}

// What the images of the items show at the hierarchies over the base, and what the base has there, which is not copied.
fn view_of(
    alloc: Global,
    base: Tree<Held>,
    hierarchies: &[Name],
    items: &[SurveyItem],
) -> Result<(Tree<Held>, Tree<Held>), ViewErr>
    requires tree { IsTree base }
    requires lead { AllByRecursion (LeadsItem base) items.now }
    ensures { GivesView hierarchies.now base items.now result }
{
    let layers = layers_of(alloc, &base, hierarchies, items)?;
    let under = entries_inside(base, hierarchies);
    let view = layer(alloc, &layers, &under)?;
    Ok((view, under))
}

// Both as trees, where they are within the limits of a host.
fn within_limits(root: Vec<Pair>, lower: Vec<Pair>) -> Result<(Tree<Held>, Tree<Held>), ViewErr>
    requires root { IsTree root.items }
    requires lower { IsTree lower.items }
    ensures { FitsWithin root.items lower.items result }
{
    match passed_limit(root.as_slice(), lower.as_slice()) {
        Some(which) => Err(ViewErr::Limit { which }),
        None => Ok((Tree::from_pairs(root), Tree::from_pairs(lower))),
    }
}
