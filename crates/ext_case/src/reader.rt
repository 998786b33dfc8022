// A file of cases is read line by line.
use crate::case::{Case, Cases, Fault, Statement};
use crate::cutting::{whole_line, words_of};
use crate::texts::{Named, Texts, append_text_line};
use crate::trouble::Trouble;
use ext_text::Text;
use std::alloc::Global;

// What was read so far.
#[derive(Drop)]
struct Reader {
    // The statements before the first case.
    before: Case,
    cases: Vec<Case>,
    texts: Texts,
    // The text whose end was not read yet.
    open: Option<Named>,
}

/// The cases of a file. Errors: The first line that can't be read, and why.
pub fn read_cases(alloc: Global, bytes: &[u8]) -> Result<Cases, Fault> {
    let mut reader = Reader {
        before: Case {
            line: 1,
            name: Text::new(alloc),
            statements: Vec::new(alloc),
        },
        cases: Vec::new(alloc),
        texts: Texts::new(alloc),
        open: None,
    };
    let mut number = 0u64;
    for line in bytes.split(|byte| *byte == b'\n') {
        number = number.saturating_add(1);
        match reader.take(alloc, number, line) {
            Ok(()) => {}
            Err(trouble) => {
                return Err(Fault {
                    line: number,
                    trouble,
                });
            }
        }
    }
    reader.finish(number)
}

impl Reader {
    // The cases, where no text is open.
    fn finish(self, line: u64) -> Result<Cases, Fault> {
        match self.open {
            None => Ok(Cases {
                before: self.before,
                cases: self.cases,
            }),
            Some(_) => Err(Fault {
                line,
                trouble: Trouble::Unreadable("a text has no end"),
            }),
        }
    }

    fn take(&mut self, alloc: Global, number: u64, line: &[u8]) -> Result<(), Trouble> {
        match self.open.take() {
            Some(open) => self.take_in_text(alloc, open, line),
            None => self.take_outside(alloc, number, line),
        }
    }

    // A line of a text, or its end.
    fn take_in_text(&mut self, alloc: Global, open: Named, line: &[u8]) -> Result<(), Trouble> {
        let mut open = open;
        if is_end_of(line, open.name.bytes()) {
            return self.texts.add(open, self.cases.is_empty());
        }
        append_text_line(alloc, &mut open.text, line)?;
        self.open = Some(open);
        Ok(())
    }

    fn take_outside(&mut self, alloc: Global, number: u64, line: &[u8]) -> Result<(), Trouble> {
        match line {
            [] | [b'#', ..] => Ok(()),
            [b'c', b'a', b's', b'e', b' ', name @ ..] => self.begin_case(alloc, number, name),
            [b't', b'e', b'x', b't', b' ', name @ ..] => self.begin_text(alloc, name),
            [b'>'] => self.expect_line(alloc, b""),
            [b'>', b' ', line @ ..] => self.expect_line(alloc, line),
            [b'>', b'|', b' ', line @ ..] => self.expect_end(alloc, line),
            _ => self.add_statement(alloc, number, line),
        }
    }

    fn begin_case(&mut self, alloc: Global, line: u64, name: &[u8]) -> Result<(), Trouble> {
        let name = Text::from_bytes(alloc, name)?;
        self.texts.begin_case();
        self.cases.push(Case {
            line,
            name,
            statements: Vec::new(alloc),
        })?;
        Ok(())
    }

    fn begin_text(&mut self, alloc: Global, name: &[u8]) -> Result<(), Trouble> {
        if name.is_empty() {
            return Err(Trouble::Unreadable("a text has no name"));
        }
        self.open = Some(Named {
            name: Text::from_bytes(alloc, name)?,
            text: Text::new(alloc),
        });
        Ok(())
    }

    fn add_statement(&mut self, alloc: Global, line: u64, bytes: &[u8]) -> Result<(), Trouble> {
        let words = self.texts.words(alloc, words_of(alloc, bytes)?)?;
        self.last_case().statements.push(Statement {
            line,
            words,
            expected: Text::new(alloc),
            is_ended: false,
        })?;
        Ok(())
    }

    // The case that is read, or the statements before the first.
    fn last_case(&mut self) -> &mut Case {
        match self.cases.last_mut() {
            Some(case) => case,
            None => &mut self.before,
        }
    }

    // An expected line: the text of a name, or a line and its newline.
    fn expect_line(&mut self, alloc: Global, line: &[u8]) -> Result<(), Trouble> {
        match line {
            [b'$', name @ ..] if !name.is_empty() => {
                let text = self.texts.text(name)?;
                self.expect(text.bytes(), false)
            }
            _ => {
                let mut text = whole_line(alloc, line)?;
                text.append(b"\n")?;
                self.expect(text.bytes(), false)
            }
        }
    }

    // An expected line without a newline.
    fn expect_end(&mut self, alloc: Global, line: &[u8]) -> Result<(), Trouble> {
        let text = whole_line(alloc, line)?;
        self.expect(text.bytes(), true)
    }

    // Adds to what the last statement should write.
    fn expect(&mut self, bytes: &[u8], ends: bool) -> Result<(), Trouble> {
        expect_of(self.last_case(), bytes, ends)
    }
}

// Adds to what the last statement of a case should write.
fn expect_of(case: &mut Case, bytes: &[u8], ends: bool) -> Result<(), Trouble> {
    match case.statements.last_mut() {
        None => Err(Trouble::Unreadable("an expected line without a statement")),
        Some(statement) if statement.is_ended => {
            Err(Trouble::Unreadable("an expected line after the last one"))
        }
        Some(statement) => {
            statement.expected.append(bytes)?;
            statement.is_ended = ends;
            Ok(())
        }
    }
}

// Whether a line ends the text of a name.
fn is_end_of(line: &[u8], name: &[u8]) -> bool {
    match line {
        [b'e', b'n', b'd', b' ', b'o', b'f', b' ', rest @ ..] => rest == name,
        _ => false,
    }
}
