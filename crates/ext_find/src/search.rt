// What a search looks for, and where.
use crate::content::Measured;
use ext_text::{Arch, Class, Names};
use ext_tree::Tree;
use std::alloc::Global;

// A search through a base for the images of a class.
#[derive(Drop)]
pub struct Search<'a, C: Measured> {
    pub(crate) alloc: Global,
    pub(crate) base: &'a Tree<C>,
    pub(crate) class: Class,
    pub(crate) arch: Arch,
    pub(crate) hierarchies: &'a Names,
}
