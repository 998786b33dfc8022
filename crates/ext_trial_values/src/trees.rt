// Words about tree texts, trees, streams and laws.
use crate::asked::{Asked, MANY, Row, Said, Stop};
use crate::laws::call_laws;
use crate::paths::{path_at, sorted_paths};
use crate::streams::{read_reader, write_vector, write_writer};
use ext_attributes::Attributes;
use ext_text::{Mode, Text};
use ext_tree::{
    Entry, Stamp, Tree, TreeErr, TreeTextErr, after, read_tree, read_trees, write_entries_into,
    write_tree,
};

pub(crate) const WORDS: [Row; 10] = [
    ("tree", "read", MANY),
    ("trees", "read", MANY),
    ("tree", "entries", 1),
    ("tree", "cut insert", MANY),
    ("tree", "named", 3),
    ("tree", "after", 4),
    ("reader", "read", 3),
    ("writer", "write", 4),
    ("writer", "vector", 1),
    ("laws", "stamps", 0),
];

/// What the word of a number writes.
pub(crate) fn reply(asked: Asked, number: usize) -> Said {
    match number {
        0 => {
            let tree = tree(read_tree(asked.alloc, asked.joined(0)?.bytes()))?;
            asked.count("entries ", tree.entries() as usize)
        }
        10 => {
            let trees = tree(read_trees(asked.alloc, asked.joined(0)?.bytes()))?;
            asked.count("trees ", trees.as_slice().len())
        }
        20..=50 => of_tree(asked, number, tree_at(asked, 0)?),
        60 => read_reader(asked),
        70 => write_writer(asked),
        80 => write_vector(asked),
        _ => {
            call_laws();
            Ok(Text::new(asked.alloc))
        }
    }
}

// A tree, or trees, that were read.
fn tree<T: Drop>(read: Result<T, TreeTextErr>) -> Result<T, Stop> {
    match read {
        Ok(tree) => Ok(tree),
        Err(TreeTextErr::BadTree { line }) => Err(Stop::Fault("fault ", line, "")),
        Err(TreeTextErr::OutOfMemory) => Err(Stop::OutOfMemory),
    }
}

/// The tree that an argument is the text of.
pub(crate) fn tree_at(asked: Asked, index: usize) -> Result<Tree<Stamp>, Stop> {
    tree(read_tree(asked.alloc, asked.bytes(index)))
}

fn of_tree(asked: Asked, number: usize, tree: Tree<Stamp>) -> Said {
    match number {
        20 => entries(asked, &tree),
        30 => {
            let mut without = tree.copy()?;
            without.cut_all(&sorted_paths(asked, 1)?);
            Ok(write_tree(asked.alloc, &without)?)
        }
        31 => insert(asked, tree),
        _ => named(asked, number, &tree),
    }
}

// The text of the tree's entries, borrowed, as they show.
fn entries(asked: Asked, tree: &Tree<Stamp>) -> Said {
    let mut entries = Vec::new(asked.alloc);
    for entry in tree.pairs() {
        entries.push(entry)?;
    }
    Ok(write_entries_into(Text::new(asked.alloc), entries.as_slice())?)
}

// A directory of mode 755 is put at each path in turn. A line for each that is refused, and then the text of the tree.
fn insert(asked: Asked, tree: Tree<Stamp>) -> Said {
    let Some(mode) = Mode::new(0o755) else {
        return Err(Stop::Bad("not a mode"));
    };
    let mut tree = tree;
    let mut text = Text::new(asked.alloc);
    for index in 1..asked.rest.len() {
        text.append(refusal(tree.insert(
            path_at(asked, index)?,
            Entry::Dir(Attributes::of_mode(mode)),
        ))?)?;
    }
    text.append(write_tree(asked.alloc, &tree)?.bytes())?;
    Ok(text)
}

fn refusal(outcome: Result<(), TreeErr>) -> Result<&'static [u8], Stop> {
    match outcome {
        Ok(()) => Ok(b""),
        Err(TreeErr::OutOfMemory) => Err(Stop::OutOfMemory),
        Err(TreeErr::Exists) => Ok(b"exists\n"),
        Err(TreeErr::NotDirectory) => Ok(b"not a directory\n"),
        Err(TreeErr::Limit) => Ok(b"too many entries\n"),
        Err(TreeErr::Path) => Ok(b"too long a path\n"),
    }
}

// How many entries stand at and below those names in a directory that begin so, or come after the last path and what is below
// it; and the path of the first of them.
fn named(asked: Asked, number: usize, tree: &Tree<Stamp>) -> Said {
    let at = path_at(asked, 1)?;
    let from = path_at(asked, 3)?;
    let named = tree.named(&at.names(), asked.bytes(2));
    let entries = if number == 40 {
        named
    } else {
        after(named, &from.names())
    };
    let count = asked.digits(entries.len() as u64)?;
    match entries {
        [] => Err(Stop::Says("entries 0")),
        [(first, _), ..] => {
            asked.line(&[b"entries ", count.as_slice(), b" from ", first.text()])
        }
    }
}
