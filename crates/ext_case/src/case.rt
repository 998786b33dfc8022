use crate::trouble::Trouble;
use ext_text::{Text, Words};

/// What a file of cases holds.
#[derive(Drop)]
pub struct Cases {
    /// The statements before the first case, which are carried out at the beginning of each. It has no name.
    pub before: Case,
    /// The cases, in their order.
    pub cases: Vec<Case>,
}

/// A case: what it shows, and statements that are carried out one after another.
#[derive(Drop)]
pub struct Case {
    /// The number of the line that begins it, counted from 1.
    pub line: u64,
    /// Its name, which says what it shows.
    pub name: Text,
    /// Its statements.
    pub statements: Vec<Statement>,
}

/// A statement: words, and what they should write.
#[derive(Drop)]
pub struct Statement {
    /// The number of its line, counted from 1.
    pub line: u64,
    /// Its words, at least one, with their escapes undone.
    pub words: Words,
    /// What it should write; nothing where no expected line follows it.
    pub expected: Text,
    /// Whether an expected line ended without a newline, so that no further one may follow.
    pub is_ended: bool,
}

/// Why a file of cases can't be read.
#[derive(Clone, Copy)]
pub struct Fault {
    /// The number of the line, counted from 1.
    pub line: u64,
    /// What is wrong with it.
    pub trouble: Trouble,
}
