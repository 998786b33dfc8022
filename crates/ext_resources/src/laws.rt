//! Laws of what the depot tells of resources, each the contract of a function that does nothing.
ghost use Rattle.ext_resources.specs.Laws.{HasWhatTheTreeHas, InstanceOrResource, NameIsReadBack, OneTaken, PlacesAscend, ToldAreListed};

use ext_tree::laws::{first_fault_of_text, one_tree_of_text};

/// Where the depot tells its files, it tells one thing of the resources of a version: one list of them, or one error. So
/// [`resources`](crate::resources) has one answer, but where memory runs out or the depot fails.
pub fn one_told()
    ensures { OneTaken }
{
    one_tree_of_text();
    first_fault_of_text();
}

/// Offers as [`offers`](ext_available::offers) gives them are listed, those of each transfer by a manifest.
pub fn what_is_told_is_listed()
    ensures { ToldAreListed }
{}

/// Among the instances that [`installed`](ext_installed::installed) finds there is one of the version for a transfer exactly where
/// the tree has one. So a resource is taken for just those transfers of which the tree has no instance of the version.
pub fn an_instance_is_one_of_the_tree<C>()
    ensures { HasWhatTheTreeHas C }
{}

/// Each transfer has an instance of the version, or one resource is taken for it, and never both.
pub fn a_transfer_has_an_instance_or_a_resource()
    ensures either { InstanceOrResource }
    ensures one { PlacesAscend }
{}

/// The name of a resource is read as its version by the patterns of its target: what is written under it is an instance.
pub fn a_name_is_read_back()
    ensures { NameIsReadBack }
{}
