// A line is cut into words.
use crate::trouble::Trouble;
use crate::undoing::Undoing;
use ext_text::Text;
use std::alloc::Global;
use std::mem;

/// A word of a line, with its escapes undone.
#[derive(Drop)]
pub(crate) struct Cut {
    /// Its bytes.
    pub(crate) text: Text,
    /// Whether it began with a dollar that no escape made.
    pub(crate) refers: bool,
}

// What of a line was cut so far.
#[derive(Drop)]
struct Cutting {
    words: Vec<Cut>,
    undoing: Undoing,
    // Whether the word has a byte in the line.
    is_begun: bool,
    refers: bool,
}

/// The words of a line. A space stands between each two.
pub(crate) fn words_of(alloc: Global, line: &[u8]) -> Result<Vec<Cut>, Trouble> {
    let mut cutting = Cutting {
        words: Vec::new(alloc),
        undoing: Undoing::new(alloc),
        is_begun: false,
        refers: false,
    };
    for byte in line {
        cutting.take(alloc, *byte)?;
    }
    cutting.end_word(alloc)?;
    Ok(cutting.words)
}

impl Cutting {
    fn take(&mut self, alloc: Global, byte: u8) -> Result<(), Trouble> {
        if byte == b' ' && self.undoing.is_between() {
            return self.end_word(alloc);
        }
        if !self.is_begun {
            self.is_begun = true;
            self.refers = byte == b'$';
        }
        self.undoing.take(alloc, byte)
    }

    fn end_word(&mut self, alloc: Global) -> Result<(), Trouble> {
        if !self.is_begun {
            return Err(Trouble::Unreadable("a space too many; the empty word is \\e"));
        }
        let undoing = mem::replace(&mut self.undoing, Undoing::new(alloc));
        let text = whole(undoing.finish()?)?;
        self.is_begun = false;
        self.words.push(Cut {
            text,
            refers: self.refers,
        })?;
        Ok(())
    }
}

/// A line with its escapes undone, and whether a lone backslash ends it.
pub(crate) fn undone(alloc: Global, line: &[u8]) -> Result<(Vec<u8>, bool), Trouble> {
    let mut undoing = Undoing::new(alloc);
    for byte in line {
        undoing.take(alloc, *byte)?;
    }
    undoing.finish()
}

// The text of bytes that no lone backslash ends.
fn whole(undone: (Vec<u8>, bool)) -> Result<Text, Trouble> {
    let (text, ends_open) = undone;
    if ends_open {
        return Err(Trouble::Unreadable("a lone backslash"));
    }
    Ok(Text::from_vec(text))
}

/// A line with its escapes undone.
pub(crate) fn whole_line(alloc: Global, line: &[u8]) -> Result<Text, Trouble> {
    whole(undone(alloc, line)?)
}
