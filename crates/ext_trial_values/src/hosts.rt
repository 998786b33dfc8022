// Words about texts of indexes, and about answers and refusals to which no command of a case comes: with the largest numbers, of the
// root, and of what no host has.
use crate::asked::{Asked, MANY, Row, Said, Stop, name};
use ext_changes::{ChangeKind, Changes};
use ext_cmd::{
    Answer, Presence, Refusal, VersionItem, VersionItems, answer_text, number, refusal_text,
};
use ext_history::{Mark, Marks};
use ext_host::Host;
use ext_index::{IndexErr, index_size, read_index, write_index};
use ext_text::{Digest, Name, Names, Path, Text, Which};
use ext_transfer::TransferFault;
use ext_tree::Stamp;
use ext_vers::Version;

pub(crate) const WORDS: [Row; 2] = [
    ("index", "read number size", MANY),
    ("told", "answers refusals", 0),
];

/// What the word of a number writes.
pub(crate) fn reply(asked: Asked, number: usize) -> Said {
    match number {
        0..=2 => index(asked, number),
        _ => told(asked, number == 10),
    }
}

// What is asked of an index of a generation.
fn index(asked: Asked, asks: usize) -> Said {
    let generation = asked.number(0)?;
    let text = asked.joined(1)?;
    match read_index(asked.alloc, text.bytes(), generation) {
        Ok((host, number)) => shown(asked, asks, generation, &host, number),
        Err(IndexErr::Broken { line }) => Err(Stop::Fault("fault ", line, "")),
        Err(IndexErr::OutOfMemory) => Err(Stop::OutOfMemory),
    }
}

// The index printed again, the number of its text, or the length of the index printed again.
fn shown(asked: Asked, asks: usize, generation: u32, host: &Host, number: u32) -> Said {
    match asks {
        0 => Ok(write_index(asked.alloc, host, generation)?),
        1 => asked.line(&[asked.digits(u64::from(number))?.as_slice()]),
        _ => asked.line(&[asked.digits(index_size(host, generation))?.as_slice()]),
    }
}

// The text of each answer, or the number and the line of each refusal.
fn told(asked: Asked, answers: bool) -> Said {
    let mut text = Text::new(asked.alloc);
    for row in 0..7u64 {
        text.append(told_row(asked, answers, row)?.bytes())?;
    }
    Ok(text)
}

fn told_row(asked: Asked, answers: bool, row: u64) -> Said {
    if !answers {
        return refused(asked, &refusal(asked, row)?);
    }
    let answer = answer(asked, row)?;
    Ok(answer_text(asked.alloc, answer)?)
}

fn answer(asked: Asked, row: u64) -> Result<Answer, Stop> {
    match row {
        0 => Ok(Answer::Checked {
            files: 262_144,
            bytes: u64::MAX,
        }),
        1 => Ok(Answer::Sample {
            entries: 262_144,
            files: 1,
            bytes: u64::MAX,
            digest: Digest::of(b"abc"),
        }),
        2 => Ok(Answer::Marked {
            generation: u32::MAX,
        }),
        3 => history(asked),
        4 => changes(asked),
        5 => versions(asked),
        _ => Ok(Answer::Attached(Names::new(asked.alloc))),
    }
}

fn history(asked: Asked) -> Result<Answer, Stop> {
    let mut marks = Marks::new(asked.alloc);
    marks.push(Mark {
        generation: u32::MAX,
        entries: 262_144,
        files: 262_143,
    })?;
    Ok(Answer::History(marks))
}

fn changes(asked: Asked) -> Result<Answer, Stop> {
    let mut changes = Changes::new(asked.alloc);
    changes.push((Path::root(asked.alloc), ChangeKind::Changed))?;
    Ok(Answer::Changes(changes))
}

// Versions that are neither available nor installed, and one that is all.
fn versions(asked: Asked) -> Result<Answer, Stop> {
    let mut items = VersionItems::new(asked.alloc);
    for row in 0..4u64 {
        items.push(version_item(Text::from_bytes(asked.alloc, b"1.0")?, row))?;
    }
    Ok(Answer::Versions(items))
}

fn version_item(text: Text, row: u64) -> VersionItem {
    VersionItem {
        version: Version::new(text),
        available: row == 3,
        presence: match row {
            3 => Presence::Installed,
            _ => Presence::Absent,
        },
        protected: row == 1 || row == 3,
        obsolete: row >= 2,
    }
}

// The number of a refusal and its line.
fn refused(asked: Asked, refusal: &Refusal) -> Said {
    let number = asked.digits(u64::from(number(refusal)))?;
    let mut text = asked.line(&[number.as_slice()])?;
    text.append(refusal_text(asked.alloc, refusal)?.bytes())?;
    Ok(text)
}

fn refusal(asked: Asked, row: u64) -> Result<Refusal, Stop> {
    match row {
        0 => Ok(Refusal::ReadOnly {
            path: Path::root(asked.alloc),
        }),
        1 => Ok(Refusal::Limit { which: Which::File }),
        2 => Ok(Refusal::Limit {
            which: Which::Index,
        }),
        3 => Ok(Refusal::BadRelease { line: u64::MAX }),
        4 => Ok(Refusal::BadTransfer {
            line: u64::MAX,
            why: TransferFault::Specifier,
            file: file(asked)?,
        }),
        5 => Ok(Refusal::NoRoom {
            count: u64::MAX,
            file: file(asked)?,
        }),
        _ => Ok(mismatch(asked)),
    }
}

fn mismatch(asked: Asked) -> Refusal {
    Refusal::Mismatch {
        path: Path::root(asked.alloc),
        listed: stamp(1_073_741_824, b"abc"),
        found: stamp(1_073_741_825, b""),
    }
}

fn stamp(size: u64, bytes: &[u8]) -> Stamp {
    Stamp {
        size,
        digest: Digest::of(bytes),
    }
}

fn file(asked: Asked) -> Result<Name, Stop> {
    name(Name::read(asked.alloc, b"a b.transfer"))
}
