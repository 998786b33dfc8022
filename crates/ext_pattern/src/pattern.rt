use crate::part::Part;
use ext_text::{ListOf, Text};
use std::alloc::Global;
use std::marker::Model;

/// Text with wildcards in it: `@v` once, and `@h` at most once. Contracts see it as its first literal and the parts that
/// follow it.
#[derive(Drop)]
pub struct Pattern {
    pub(crate) alloc: Global,
    pub(crate) first: Text,
    pub(crate) parts: ListOf<Part>,
}

impl Model for Pattern {
    ghost use Rattle.ext_pattern.specs.Pattern.{IsPattern, PatternView};

    ghost Value = { PatternView };

    ghost view = { λ p. record { first = p.first; parts = p.parts } };

    ghost invariant = { λ p. IsPattern (record { first = p.first; parts = p.parts }) };
}
