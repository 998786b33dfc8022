// What a search looks for, and where.
use crate::kind::ConfigKind;
use ext_find::Measured;
use ext_transfer::Component;
use ext_tree::Tree;
use std::alloc::Global;

// A search through a base for the configuration files of a component, or of none.
#[derive(Drop)]
pub struct Search<'a, 'b, C: Measured> {
    pub(crate) alloc: Global,
    pub(crate) base: &'a Tree<C>,
    pub(crate) component: Option<&'b Component>,
    pub(crate) kind: ConfigKind,
}
