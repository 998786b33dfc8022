// The escapes of a word or a line are undone, byte by byte.
use crate::repetition::Repetition;
use crate::trouble::Trouble;
use std::alloc::Global;
use std::mem;

// What stands in front of the next byte.
#[derive(Clone, Copy)]
enum State {
    Plain,
    // A backslash.
    Escape,
    // A backslash and an `x`.
    FirstDigit,
    // The same and a digit of this value.
    SecondDigit(u8),
    // A backslash, a parenthesis and the digits of this number.
    Count(u64),
}

/// The text of the bytes so far, and what an escape still waits for.
#[derive(Drop)]
pub(crate) struct Undoing {
    state: State,
    // The repetitions that are open, the outermost first.
    open: Vec<Repetition>,
    // The text of the innermost of them, or the whole text where none is open.
    text: Vec<u8>,
    // Where the number of the repetition stands in it.
    marks: Vec<usize>,
}

impl Undoing {
    /// No byte so far.
    pub(crate) fn new(alloc: Global) -> Undoing {
        Undoing {
            state: State::Plain,
            open: Vec::new(alloc),
            text: Vec::new(alloc),
            marks: Vec::new(alloc),
        }
    }

    /// Takes the next byte.
    pub(crate) fn take(&mut self, alloc: Global, byte: u8) -> Result<(), Trouble> {
        match self.state {
            State::Plain => self.take_plain(byte),
            State::Escape => self.take_escape(byte),
            State::FirstDigit => {
                self.state = State::SecondDigit(digit(byte)?);
                Ok(())
            }
            State::SecondDigit(high) => self.take_second_digit(high, byte),
            State::Count(count) => self.take_count(alloc, count, byte),
        }
    }

    /// Whether no escape and no repetition is open.
    pub(crate) fn is_between(&self) -> bool {
        matches!(self.state, State::Plain) && self.open.is_empty()
    }

    /// The text, and whether a lone backslash ends it.
    pub(crate) fn finish(self) -> Result<(Vec<u8>, bool), Trouble> {
        let ends_open = matches!(self.state, State::Escape);
        if self.open.is_empty() && (ends_open || matches!(self.state, State::Plain)) {
            Ok((self.text, ends_open))
        } else {
            Err(Trouble::Unreadable("an escape or a repetition has no end"))
        }
    }

    // A byte that no escape stands in front of.
    fn take_plain(&mut self, byte: u8) -> Result<(), Trouble> {
        match byte {
            b'\\' => self.state = State::Escape,
            b')' if !self.open.is_empty() => self.close()?,
            _ => self.text.push(byte)?,
        }
        Ok(())
    }

    // The byte after a backslash.
    fn take_escape(&mut self, byte: u8) -> Result<(), Trouble> {
        self.state = State::Plain;
        match byte {
            b'x' => self.state = State::FirstDigit,
            b'(' => self.state = State::Count(0),
            b'#' => self.marks.push(self.text.len())?,
            b'e' => {}
            _ => self.text.push(named_byte(byte)?)?,
        }
        Ok(())
    }

    fn take_second_digit(&mut self, high: u8, byte: u8) -> Result<(), Trouble> {
        self.state = State::Plain;
        self.text.push(high << 4 | digit(byte)?)?;
        Ok(())
    }

    // A byte of the count of a repetition, or the space that ends it.
    fn take_count(&mut self, alloc: Global, count: u64, byte: u8) -> Result<(), Trouble> {
        if byte == b' ' {
            self.state = State::Plain;
            return self.begin(alloc, count);
        }
        self.state = State::Count(longer(count, byte)?);
        Ok(())
    }

    // Begins the text of a repetition.
    fn begin(&mut self, alloc: Global, count: u64) -> Result<(), Trouble> {
        let around = mem::replace(&mut self.text, Vec::new(alloc));
        let marks = mem::replace(&mut self.marks, Vec::new(alloc));
        self.open.push(Repetition {
            count,
            around,
            marks,
        })?;
        Ok(())
    }

    // Ends the innermost repetition.
    fn close(&mut self) -> Result<(), Trouble> {
        if let Some(repetition) = self.open.pop() {
            let Repetition {
                count,
                around,
                marks,
            } = repetition;
            let text = mem::replace(&mut self.text, around);
            let inner_marks = mem::replace(&mut self.marks, marks);
            crate::repetition::append_repeated(&mut self.text, &text, &inner_marks, count)?;
        }
        Ok(())
    }
}

// The byte that an escape of one letter stands for.
fn named_byte(byte: u8) -> Result<u8, Trouble> {
    match byte {
        b's' => Ok(b' '),
        b'n' => Ok(b'\n'),
        b't' => Ok(b'\t'),
        b'r' => Ok(b'\r'),
        b'\\' | b')' => Ok(byte),
        _ => Err(Trouble::Unreadable("no such escape")),
    }
}

// The value of a hexadecimal digit.
fn digit(byte: u8) -> Result<u8, Trouble> {
    match char::from(byte).to_digit(16) {
        Some(value) => Ok((value & 15) as u8),
        None => Err(Trouble::Unreadable("\\x takes two hexadecimal digits")),
    }
}

// The number with one decimal digit more.
fn longer(count: u64, byte: u8) -> Result<u64, Trouble> {
    if byte.is_ascii_digit() && count <= 100_000_000 {
        Ok(count * 10 + u64::from(byte & 15))
    } else {
        Err(Trouble::Unreadable("\\( takes a number, a space and a text"))
    }
}
