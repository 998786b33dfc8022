// Words about names, paths, walks and the order of versions.
use crate::asked::{Asked, MANY, Row, Said, Stop, append, name, path};
use crate::trees::tree_at;
use ext_text::{Name, Path, PathRef, SortedPaths, Text};
use ext_tree::{Stamp, Tree};
use ext_vers::{compare, order};
use ext_walk::{end_of_path, end_of_text, resolve};
use std::cmp::Ordering;

pub(crate) const WORDS: [Row; 7] = [
    ("name", "read", 1),
    ("path", "read parent absolute", 1),
    ("path", "child join prefix compare", 2),
    ("path", "sorted among", MANY),
    ("version", "ascending", MANY),
    ("walk", "text path", 3),
    ("walk", "resolve", 2),
];

/// What the word of a number writes.
pub(crate) fn reply(asked: Asked, number: usize) -> Said {
    match number {
        0 => asked.line(&[
            name(Name::read(asked.alloc, asked.bytes(0)))?
                .copy()?
                .bytes(),
        ]),
        10..=23 => of_path(asked, number, &path_at(asked, 0)?),
        30 => sorted(asked),
        31 => among(asked),
        40 => ascending(asked),
        _ => walk(asked, number),
    }
}

/// An argument as a path.
pub(crate) fn path_at(asked: Asked, index: usize) -> Result<Path, Stop> {
    path(Path::read(asked.alloc, asked.bytes(index)))
}

fn of_path(asked: Asked, number: usize, at: &Path) -> Said {
    match number {
        10 => asked.count("names ", at.depth()),
        11 => asked.line(&[at.parent().text()]),
        12 => {
            let mut text = Vec::new(asked.alloc);
            at.append_absolute(&mut text)?;
            asked.line(&[text.as_slice()])
        }
        20 => {
            let name = name(Name::read(asked.alloc, asked.bytes(1)))?;
            asked.line(&[path(at.child(&name))?.copy()?.text()])
        }
        21 => asked.line(&[path(at.join(&path_at(asked, 1)?))?.copy()?.text()]),
        22 => asked.line(&[at.prefix(asked.number(1)? as usize)?.text()]),
        _ => relations(asked, at, &path_at(asked, 1)?),
    }
}

/// `less`, `equal` or `greater`.
pub(crate) fn order_word(order: Ordering) -> &'static [u8] {
    match order {
        Ordering::Less => b"less",
        Ordering::Equal => b"equal",
        Ordering::Greater => b"greater",
    }
}

// The word where it holds.
fn holds(holds: bool, word: &'static [u8]) -> &'static [u8] {
    if holds { word } else { b"" }
}

// The order of two paths, whether they are the same, and whether the first starts with the other, is below it, and is related to it.
fn relations(asked: Asked, at: &Path, other: &Path) -> Said {
    asked.line(&[
        order_word(at.cmp(other)),
        holds(at == other, b" same"),
        holds(at.starts_with(other), b" starts"),
        holds(at.is_below(other), b" below"),
        holds(at.is_related(other), b" related"),
    ])
}

/// The paths of arguments, from one on, in path order, each once.
pub(crate) fn sorted_paths(asked: Asked, from: usize) -> Result<SortedPaths, Stop> {
    let mut paths = Vec::new(asked.alloc);
    for argument in asked.after(from) {
        paths.push(path(Path::read(asked.alloc, argument.bytes()))?)?;
    }
    Ok(SortedPaths::of(paths))
}

fn sorted(asked: Asked) -> Said {
    let mut text = Text::new(asked.alloc);
    for path in sorted_paths(asked, 0)?.into_vec() {
        append(&mut text, &[path.text()])?;
    }
    Ok(text)
}

// Whether the first path is one of the others, is covered by one, has one at or below it, and is related to one.
fn among(asked: Asked) -> Said {
    let path = path_at(asked, 0)?;
    let (names, paths) = (path.names(), sorted_paths(asked, 1)?);
    asked.line(&[
        b"paths",
        holds(paths.has(&names), b" has"),
        holds(paths.covers(&names), b" covers"),
        holds(paths.has_below(&names), b" below"),
        holds(paths.meets(&names), b" meets"),
    ])
}

// Whether the texts of each line of the arguments are below those of each later line, and those of one line, parted by `=`,
// are equal: by tokens, and where they are equal in their bytes' order. Else the first two that aren't.
fn ascending(asked: Asked) -> Said {
    let mut texts = Vec::new(asked.alloc);
    let mut line: usize = 0;
    for argument in asked.rest {
        let lines = argument.bytes().strip_suffix(b"\n".as_slice());
        for rung in lines
            .unwrap_or(argument.bytes())
            .split(|byte| *byte == b'\n')
        {
            for text in rung.split(|byte| *byte == b'=') {
                texts.push((line, text))?;
            }
            line = line.saturating_add(1);
        }
    }
    match first_wrong(texts.as_slice()) {
        None => asked.yes_or_no(true),
        Some((low, high)) => wrong(asked, low, high),
    }
}

// What two texts are that are not ordered so.
fn wrong(asked: Asked, low: &[u8], high: &[u8]) -> Said {
    let mut text = Text::from_bytes(asked.alloc, low)?;
    text.append(b" is ")?;
    text.append(order_word(compare(low, high)))?;
    text.append(b" than ")?;
    text.append(high)?;
    text.append(b"\n")?;
    Ok(text)
}

fn first_wrong<'a>(texts: &[(usize, &'a [u8])]) -> Option<(&'a [u8], &'a [u8])> {
    for (line, low) in texts {
        for (other, high) in texts {
            let wanted = line.cmp(other);
            if compare(low, high) != wanted || order(low, high) != wanted.then(low.cmp(high)) {
                return Some((low, high));
            }
        }
    }
    None
}

// Where the walk along a text or a path ends, inside the image at a path, or along a path from the root.
fn walk(asked: Asked, number: usize) -> Said {
    let tree = tree_at(asked, 0)?;
    let image = path_at(asked, 1)?;
    match number {
        50 => along_text(asked, &tree, &image),
        51 => along_path(asked, &tree, &image, &path_at(asked, 2)?),
        _ => match resolve(asked.alloc, &tree, &image)? {
            Some(path) => asked.line(&[path.text()]),
            None => Err(Stop::Says("none")),
        },
    }
}

fn along_text(asked: Asked, tree: &Tree<Stamp>, image: &Path) -> Said {
    let end = end_of_text(asked.alloc, tree, &image.names(), asked.bytes(2))?;
    end_line(asked, end)
}

fn along_path(asked: Asked, tree: &Tree<Stamp>, image: &Path, along: &Path) -> Said {
    let end = end_of_path(asked.alloc, tree, &image.names(), &along.names())?;
    end_line(asked, end)
}

fn end_line(asked: Asked, end: Option<PathRef>) -> Said {
    match end {
        Some(names) => asked.line(&[names.text()]),
        None => Err(Stop::Says("none")),
    }
}
