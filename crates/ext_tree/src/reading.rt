// Reads tree texts line by line. What was read so far is known to be the start of a text, so each line is judged by the
// entries before it alone, and the first line that may not stand there is the first faulty one.
ghost use Rattle.std.specs.Prelude.{◌≡◌, ◌+◌, ◌<◌, ◌≤◌, ◌^◌, ◌↔◌, [], ◌∷◌, ◌++◌, length, MatchOption, MatchResult, IfOk, IsTrue, OnOk};
ghost use Rattle.ext_tree.specs.declared.entry.Entry.{Entry};
ghost use Rattle.ext_tree.specs.declared.stamp.Stamp.{Stamp};
ghost use Rattle.ext_tree.specs.FirstFault.{ReadsTree, ReadsSequence};
ghost use Rattle.ext_tree.specs.TreeText.{HasTreeLine, HasText, IsVersion, header, needed_version, version_of};
ghost use Rattle.ext_tree.specs.Reading.{Judges, BeginsBody, BodyFault, BeginsText, IsHeader, TextFault};

use crate::Trees;
use crate::entry::{Entry, higher};
use crate::entry_line::entry_of_line;
use crate::following::may_follow;
use crate::stamp::Stamp;
use crate::tree::{MOST_ENTRIES, Tree};
use ext_lines::{OutOfMemory, split_line};
use ext_text::{ListOf, Path};
use std::alloc::Global;
use thiserror::Error;

/// The first line of a text that no entry needs more for.
const HEADER_1: &[u8] = b"hostext-tree 1";

/// The first line of a text with lines `o` and `w`.
const HEADER_2: &[u8] = b"hostext-tree 2";

/// The first line of a text with owners or capabilities.
const HEADER_3: &[u8] = b"hostext-tree 3";

/// The last line of a tree text.
const END: &[u8] = b"end";

/// Why bytes are not read as trees.
#[derive(Clone, Copy, Debug, PartialEq, Eq, Error)]
pub enum TreeTextErr {
    /// An allocation failed.
    #[error("out of memory")]
    OutOfMemory,
    /// The bytes are no tree text, or no sequence of them. The line is the first faulty one, counted from 1.
    #[error("faulty tree text at line {line}")]
    BadTree {
        /// The first faulty line.
        line: u64,
    },
}

impl From<OutOfMemory> for TreeTextErr {
    ghost use Rattle.std.specs.Prelude.{◌≡◌};
    ghost use Rattle.ext_tree.specs.declared.reading.TreeTextErr.TheVariants as errors;

    ghost from_gives = { λ _ e. e ≡ errors.OutOfMemory };

    fn from(_failed: OutOfMemory) -> TreeTextErr {
        TreeTextErr::OutOfMemory
    }
}

// What a line is after the lines of entries.
#[derive(Drop)]
enum Line {
    // The last line of their text.
    End,
    // The line of one more entry.
    Item(Path, Entry<Stamp>),
    // No line that may stand there.
    Fault,
}

// The entries of a text, and where it ends.
#[derive(Drop)]
struct Body<'a> {
    entries: Vec<(Path, Entry<Stamp>)>,
    // The bytes after the text.
    rest: &'a [u8],
    // The number of the line after the text.
    line: u64,
}

/// The tree of a tree text, which nothing may follow.
///
/// # Errors
/// `BadTree` exactly where the bytes are no tree text. Its line, counted from 1, is the first with which no tree text
/// begins, or the `end` line of a text of a version that no line of it needs. Where the bytes stop early, it is the line
/// after their last newline, also where that line has begun. `OutOfMemory` may come at any time.
pub fn read_tree(alloc: Global, bytes: &[u8]) -> Result<Tree<Stamp>, TreeTextErr>
    ensures { ReadsTree bytes.now result }
{
    let text = read_text(alloc, bytes, 1)?;
    if text.rest.is_empty() {
        Ok(Tree::from_pairs(text.entries))
    } else {
        Err(TreeTextErr::BadTree { line: text.line })
    }
}

/// The trees of a sequence of tree texts, of one at least, in their order.
///
/// # Errors
/// `BadTree` exactly where the bytes are no such sequence. The empty bytes are none. Its line is as for `read_tree`, and
/// the lines are counted through all the texts. `OutOfMemory` may come at any time.
pub fn read_trees(alloc: Global, bytes: &[u8]) -> Result<Trees, TreeTextErr>
    ensures { ReadsSequence bytes.now result }
{
    let mut trees = Vec::new(alloc);
    let mut rest = bytes;
    let mut line = 1;
    'texts: loop {
        let text = read_text(alloc, rest, line)?;
        push(&mut trees, Tree::from_pairs(text.entries))?;
        if text.rest.is_empty() {
            return Ok(ListOf::from_vec(trees));
        }
        rest = text.rest;
        line = text.line;
    }
}

// The text at the start of the bytes, whose first line has this number.
fn read_text(alloc: Global, bytes: &[u8], line: u64) -> Result<Body, TreeTextErr>
    requires { line + length bytes.now ≤ 2 ^ 64 }
    ensures { MatchResult result (λ body. BeginsText bytes.now line body.entries.items body.rest.now body.line) (TextFault bytes.now line) }
{
    match split_line(bytes) {
        None => Err(TreeTextErr::BadTree { line }),
        Some((header, body)) => match version_of(header) {
            None => Err(TreeTextErr::BadTree { line }),
            Some(version) => read_body(alloc, body, line + 1, version),
        },
    }
}

// The version that a header tells.
fn version_of(line: &[u8]) -> Option<u8>
    ensures { MatchOption result (¬ IsHeader line.now) (λ version. IsVersion version × (line.now ≡ header version)) }
{
    if line == HEADER_1 {
        Some(1)
    } else if line == HEADER_2 {
        Some(2)
    } else if line == HEADER_3 {
        Some(3)
    } else {
        None
    }
}

// The entries and the last line of a text at the start of the bytes; their first line has this number.
fn read_body(alloc: Global, bytes: &[u8], first: u64, version: u8) -> Result<Body, TreeTextErr>
    requires room { first + length bytes.now < 2 ^ 64 }
    requires version { IsVersion version }
    ensures { MatchResult result (λ body. BeginsBody version bytes.now first body.entries.items body.rest.now body.line)
        (BodyFault version bytes.now first) }
{
    let mut entries = Vec::new(alloc);
    let mut needed = 1;
    let mut rest = bytes;
    let mut line = first;
    'lines: loop {
        match split_line(rest) {
            None => return Err(TreeTextErr::BadTree { line }),
            Some((text, after)) => match judge(alloc, entries.as_slice(), text, version, needed)? {
                Line::Fault => return Err(TreeTextErr::BadTree { line }),
                Line::End => {
                    // A sequence may hold very many small trees.
                    entries.shrink_to_fit();
                    return Ok(Body {
                        entries,
                        rest: after,
                        line: line + 1,
                    });
                }
                Line::Item(path, entry) => {
                    let more = higher(needed, entry.needed_version());
                    needed = more;
                    push(&mut entries, (path, entry))?;
                    rest = after;
                    line += 1;
                }
            },
        }
    }
}

// What the line is after the lines of the entries, which need that version.
fn judge(
    alloc: Global,
    entries: &[(Path, Entry<Stamp>)],
    line: &[u8],
    version: u8,
    needed: u8,
) -> Result<Line, OutOfMemory>
    requires text { HasText entries.now }
    requires needed { needed ≡ version_of entries.now }
    ensures { IfOk result (Judges version entries.now line.now) }
{
    if line == END {
        if version != needed {
            return Ok(Line::Fault);
        }
        return Ok(Line::End);
    }
    match entry_of_line(alloc, line)? {
        None => Ok(Line::Fault),
        Some((path, entry)) => {
            if !has_line(&entry, version) {
                return Ok(Line::Fault);
            }
            if may_add(entries, &path) {
                Ok(Line::Item(path, entry))
            } else {
                Ok(Line::Fault)
            }
        }
    }
}

// Whether the version has a line for the entry.
fn has_line(entry: &Entry<Stamp>, version: u8) -> bool
    ensures { IsTrue result ↔ (needed_version entry.now ≤ version) }
{
    entry.needed_version() <= version
}

// Whether the entries with one more at this path still have a text.
fn may_add(entries: &[(Path, Entry<Stamp>)], path: &Path) -> bool
    requires { HasText entries.now }
    ensures { (e : Entry Stamp) → HasTreeLine (path.now, e) → (IsTrue result ↔ HasText (entries.now ++ (path.now, e) ∷ [])) }
{
    entries.len() < MOST_ENTRIES && may_follow(entries, path)
}

// Adds an item at the end.
fn push<T: Drop>(items: &mut Vec<T>, item: T) -> Result<(), OutOfMemory>
    ensures { OnOk result (items.new.items ≡ items.old.items ++ item ∷ []) }
{
    items.push(item)?;
    Ok(())
}
