// What is asked: tables of words, the arguments of a word, and lines that come of it.
use ext_case::{Trouble, line_of, number_text, place_in};
use ext_lines::{append_decimal, append_octal, read_decimal};
use ext_text::{Name, NameErr, OutOfMemory, Path, PathErr, Text};
use std::alloc::{AllocError, AllocFailed, Global};
use std::str;

/// A word, what may be asked, with a space between each two, and how many arguments follow.
pub(crate) type Row = (&'static str, &'static str, usize);

/// In the place of a number of arguments: any number of them.
pub(crate) const MANY: usize = 9;

/// The number of a word in a table.
pub(crate) fn number_of(
    rows: &[Row],
    word: &str,
    asked: &[u8],
    count: usize,
) -> Result<Option<usize>, Trouble> {
    for (index, row) in rows.iter().enumerate() {
        if row.0 == word
            && let Some(place) = place_in(row.1, asked)
        {
            if row.2 != MANY && row.2 != count {
                return Err(Trouble::Unreadable("too few or too many arguments"));
            }
            return Ok(Some(index.saturating_mul(10).saturating_add(place)));
        }
    }
    Ok(None)
}

/// What a word writes, or why it writes something else than what it calls gives.
pub(crate) type Said = Result<Text, Stop>;

/// Why a word doesn't write what it calls gives.
#[derive(Clone, Copy)]
pub(crate) enum Stop {
    OutOfMemory,
    /// The statement means nothing.
    Bad(&'static str),
    /// A line says why there is nothing.
    Says(&'static str),
    /// A line of a word, of a number and, where there is one, of a further word.
    Fault(&'static str, u64, &'static str),
}

impl Stop {
    /// What is written.
    pub(crate) fn text(self, alloc: Global) -> Result<Option<Text>, Trouble> {
        match self {
            Stop::OutOfMemory => Err(Trouble::OutOfMemory),
            Stop::Bad(why) => Err(Trouble::Unreadable(why)),
            Stop::Says(line) => Ok(Some(line_of(alloc, line)?)),
            Stop::Fault(word, number, more) => {
                let mut text = Text::from_bytes(alloc, word.as_bytes())?;
                text.append(number_text(alloc, number)?.bytes())?;
                if !more.is_empty() {
                    text.append(b" ")?;
                }
                text.append(line_of(alloc, more)?.bytes())?;
                Ok(Some(text))
            }
        }
    }
}

impl From<OutOfMemory> for Stop {
    fn from(_failed: OutOfMemory) -> Stop {
        Stop::OutOfMemory
    }
}

impl From<AllocError> for Stop {
    fn from(_failed: AllocError) -> Stop {
        Stop::OutOfMemory
    }
}

impl<T: Drop> From<AllocFailed<T>> for Stop {
    fn from(_failed: AllocFailed<T>) -> Stop {
        Stop::OutOfMemory
    }
}

/// The arguments of a word.
#[derive(Clone, Copy)]
pub(crate) struct Asked<'a> {
    pub(crate) alloc: Global,
    pub(crate) rest: &'a [Text],
}

impl<'a> Asked<'a> {
    /// The bytes of an argument; none where there are fewer.
    pub(crate) fn bytes(&self, index: usize) -> &'a [u8] {
        match self.rest.get(index) {
            Some(text) => text.bytes(),
            None => b"",
        }
    }

    /// The arguments after the first ones, so many of them.
    pub(crate) fn after(&self, count: usize) -> &'a [Text] {
        self.rest.get(count..).unwrap_or(&[])
    }

    /// An argument as text.
    pub(crate) fn str(&self, index: usize) -> Result<&'a str, Stop> {
        match str::from_utf8(self.bytes(index)) {
            Ok(text) => Ok(text),
            Err(_) => Err(Stop::Bad("not UTF-8")),
        }
    }

    /// An argument as a number.
    pub(crate) fn number(&self, index: usize) -> Result<u32, Stop> {
        match read_decimal(self.bytes(index), 4_294_967_295) {
            Some(number) => Ok(number as u32),
            None => Err(Stop::Bad("not a number, or too large")),
        }
    }

    /// The arguments from one on, one after another.
    pub(crate) fn joined(&self, from: usize) -> Said {
        let mut text = Text::new(self.alloc);
        for part in self.after(from) {
            text.append(part.bytes())?;
        }
        Ok(text)
    }

    /// A line of these parts.
    pub(crate) fn line(&self, parts: &[&[u8]]) -> Said {
        let mut text = Text::new(self.alloc);
        append(&mut text, parts)?;
        Ok(text)
    }

    /// A line of `yes` or `no`.
    pub(crate) fn yes_or_no(&self, holds: bool) -> Said {
        self.line(&[if holds {
            b"yes".as_slice()
        } else {
            b"no".as_slice()
        }])
    }

    /// A line of the bytes, or of `none`.
    pub(crate) fn line_or_none(&self, line: Option<&[u8]>) -> Said {
        self.line(&[line.unwrap_or(b"none")])
    }

    /// A line of a word and a number.
    pub(crate) fn count(&self, word: &str, count: usize) -> Said {
        self.line(&[word.as_bytes(), self.digits(count as u64)?.as_slice()])
    }

    /// The digits of a number.
    pub(crate) fn digits(&self, number: u64) -> Result<Vec<u8>, Stop> {
        let mut digits = Vec::new(self.alloc);
        append_decimal(&mut digits, number)?;
        Ok(digits)
    }

    /// Its octal digits.
    pub(crate) fn octal(&self, number: u64) -> Result<Vec<u8>, Stop> {
        let mut digits = Vec::new(self.alloc);
        append_octal(&mut digits, number)?;
        Ok(digits)
    }
}

/// Adds a line of these parts.
pub(crate) fn append(text: &mut Text, parts: &[&[u8]]) -> Result<(), Stop> {
    for part in parts {
        text.append(part)?;
    }
    text.append(b"\n")?;
    Ok(())
}

/// A name that was read.
pub(crate) fn name(read: Result<Name, NameErr>) -> Result<Name, Stop> {
    match read {
        Ok(name) => Ok(name),
        Err(NameErr::BadName) => Err(Stop::Says("bad name")),
        Err(NameErr::OutOfMemory) => Err(Stop::OutOfMemory),
    }
}

/// A path that was read or made.
pub(crate) fn path(made: Result<Path, PathErr>) -> Result<Path, Stop> {
    match made {
        Ok(path) => Ok(path),
        Err(PathErr::OutOfMemory) => Err(Stop::OutOfMemory),
        Err(PathErr::TooLong) => Err(Stop::Says("too long")),
        Err(PathErr::TooDeep) => Err(Stop::Says("too deep")),
        Err(PathErr::BadName) => Err(Stop::Says("bad name")),
    }
}
