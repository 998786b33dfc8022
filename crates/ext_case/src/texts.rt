// Texts that have names.
use crate::cutting::{Cut, undone};
use crate::trouble::Trouble;
use ext_text::{Text, Words};
use std::alloc::Global;

/// A text, and the name that it is written by.
#[derive(Drop)]
pub(crate) struct Named {
    pub(crate) name: Text,
    pub(crate) text: Text,
}

/// The texts of a file: those of all cases, and those of the case that is read.
#[derive(Drop)]
pub(crate) struct Texts {
    of_all: Vec<Named>,
    of_case: Vec<Named>,
}

impl Texts {
    /// None.
    pub(crate) fn new(alloc: Global) -> Texts {
        Texts {
            of_all: Vec::new(alloc),
            of_case: Vec::new(alloc),
        }
    }

    /// Forgets those of the case.
    pub(crate) fn begin_case(&mut self) {
        self.of_case.clear();
    }

    /// Adds one.
    pub(crate) fn add(&mut self, named: Named, of_all: bool) -> Result<(), Trouble> {
        if self.find(named.name.bytes()).is_some() {
            return Err(Trouble::Unreadable("two texts of one name"));
        }
        if of_all {
            self.of_all.push(named)?;
        } else {
            self.of_case.push(named)?;
        }
        Ok(())
    }

    // The text of a name.
    fn find(&self, name: &[u8]) -> Option<&Text> {
        match found(self.of_case.as_slice(), name) {
            Some(text) => Some(text),
            None => found(self.of_all.as_slice(), name),
        }
    }

    /// The text of a name, copied.
    pub(crate) fn text(&self, name: &[u8]) -> Result<Text, Trouble> {
        match self.find(name) {
            Some(text) => Ok(text.copy()?),
            None => Err(Trouble::Unreadable("no text has that name")),
        }
    }

    /// The words of a statement: those that are written by the name of a text are that text.
    pub(crate) fn words(&self, alloc: Global, cuts: Vec<Cut>) -> Result<Words, Trouble> {
        let mut words = Words::new(alloc);
        for cut in cuts {
            words.push(self.word(cut)?)?;
        }
        Ok(words)
    }

    fn word(&self, cut: Cut) -> Result<Text, Trouble> {
        match cut.text.bytes() {
            [b'$', name @ ..] if cut.refers && !name.is_empty() => self.text(name),
            _ => Ok(cut.text),
        }
    }
}

fn found<'a>(texts: &'a [Named], name: &[u8]) -> Option<&'a Text> {
    for named in texts {
        if named.name.bytes() == name {
            return Some(&named.text);
        }
    }
    None
}

/// Adds a line of a text, with its escapes undone. A lone backslash at its end leaves out its newline.
pub(crate) fn append_text_line(alloc: Global, text: &mut Text, line: &[u8]) -> Result<(), Trouble> {
    let (bytes, ends_open) = undone(alloc, line)?;
    text.append(bytes.as_slice())?;
    if !ends_open {
        text.append(b"\n")?;
    }
    Ok(())
}
