ghost use Rattle.std.specs.Prelude.{◌≡◌, [], ◌∷◌, None, Ok, IfOk, OnOk};
ghost use Rattle.ext_ini.specs.Reading.{finished, follow, ini_of, step};
ghost use Rattle.ext_ini.specs.Taking.{Gives, Leaves, all_sections};
ghost use Rattle.ext_ini.specs.Whole.{ended, going_on, of_comment};

use crate::err::IniErr;
use crate::ini::Ini;
use crate::line::{fault_of, is_comment};
use crate::taking::{SoFar, take};
use crate::whole::Whole;
use ext_lines::{OutOfMemory, before_last, next_text_line, strip_carriage_return};
use std::alloc::Global;

/// What was read so far, and the whole line that goes on, if the last line goes on.
#[derive(Drop)]
pub(crate) struct Reading {
    so_far: SoFar,
    pending: Option<Whole>,
}

/// Reads a unit file. Its lines end at newlines, the last one perhaps not. One carriage return at the end of a line does not
/// count. Blanks are spaces and tabs.
///
/// - A line whose first byte after blanks is `#` or `;` is a comment. It counts for nothing, also between lines that go
///   on, and never goes on itself.
/// - Any other line whose last byte is a backslash goes on with the next line that is no comment, and the backslash
///   becomes a space. At the end of the file it ends. All of its lines are one whole line, which has the number of the
///   first.
/// - A whole line counts without the blanks at both ends. An empty one counts for nothing.
/// - One that begins with `[` begins a section. What stands between this and the `]` at its end is the section's name. It has
///   a byte at least, and no bracket.
/// - Any other whole line sets a key to a value. The key stands before its first `=` and the value after it, both without
///   blanks at both ends.
///
/// Sections, assignments, comments and lines that go on are those of systemd.syntax(7). What is faulty, and at which line,
/// is this project's own.
///
/// # Errors
/// - `BadIni` with the first line, counted from 1, that is faulty, and why: `NotText` for a line that is no UTF-8 or holds
///   a control byte other than a tab, also a comment. `BadSection` for a whole line that begins with `[` and is no name in
///   brackets. `NoEquals` for any other whole line that has no `=`, and else `NoSection` for one before the first section.
///   These three have the number of the first line of the whole. At one number `NotText` comes first.
/// - `OutOfMemory`.
pub fn read_ini(alloc: Global, bytes: &[u8]) -> Result<Ini, IniErr>
    ensures { Gives result (ini_of bytes.now) }
{
    let mut reading = Reading {
        so_far: SoFar::new(alloc),
        pending: None,
    };
    let mut rest = bytes;
    let mut number = 0;
    'lines: loop {
        match next_text_line(rest) {
            None => return finish(alloc, reading),
            Some((line, after)) => {
                number += 1;
                match step(alloc, &mut reading, number, strip_carriage_return(line)) {
                    Err(refused) => return Err(refused),
                    Ok(()) => rest = after,
                }
            }
        }
    }
}

// Reads a line. What was read is changed where it is, and of no use after an error.
fn step(alloc: Global, reading: &mut Reading, number: u64, line: &[u8]) -> Result<(), IniErr>
    ensures { Leaves result reading.new (step reading.old number line.now) }
{
    let fault = fault_of(number, line);
    if is_comment(line) {
        return comment(alloc, reading, number, fault);
    }
    match before_last(line, b'\\') {
        None => end(alloc, reading, number, fault, line),
        Some(prefix) => Ok(go_on(alloc, reading, number, fault, prefix)?),
    }
}

// Reads a comment. Only that it is text counts.
fn comment(
    alloc: Global,
    reading: &mut Reading,
    number: u64,
    fault: Option<u64>,
) -> Result<(), IniErr>
    ensures { Leaves result reading.new (follow reading.old.so_far (of_comment reading.old.pending number fault)) }
{
    match reading.pending.take() {
        None => take_alone(alloc, reading, number, &[], fault),
        Some(whole) => {
            reading.pending = Some(whole.with_fault(fault));
            Ok(())
        }
    }
}

// Reads a line with which a whole line ends. One line alone is not copied.
fn end(
    alloc: Global,
    reading: &mut Reading,
    number: u64,
    fault: Option<u64>,
    line: &[u8],
) -> Result<(), IniErr>
    ensures { Leaves result reading.new (follow reading.old.so_far (ended reading.old.pending number fault line.now)) }
{
    match reading.pending.take() {
        None => take_alone(alloc, reading, number, line, fault),
        Some(whole) => {
            let whole = whole.extended(fault, line)?;
            take_whole(alloc, reading, &whole)
        }
    }
}

// Takes a whole line that went on, where no other does.
fn take_whole(alloc: Global, reading: &mut Reading, whole: &Whole) -> Result<(), IniErr>
    requires { reading.old.pending ≡ None }
    ensures { Leaves result reading.new (follow reading.old.so_far (whole.now ∷ [], None)) }
{
    take_alone(
        alloc,
        reading,
        whole.number,
        whole.text.bytes(),
        whole.fault,
    )
}

// Takes a whole line, where no line goes on.
fn take_alone(
    alloc: Global,
    reading: &mut Reading,
    number: u64,
    text: &[u8],
    fault: Option<u64>,
) -> Result<(), IniErr>
    requires { reading.old.pending ≡ None }
    ensures { Leaves result reading.new (follow reading.old.so_far
        (record { number = number; text = text.now; fault = fault } ∷ [], None)) }
{
    take(alloc, &mut reading.so_far, number, text, fault)
}

// Reads a line that goes on. A blank stands for the backslash at its end.
fn go_on(
    alloc: Global,
    reading: &mut Reading,
    number: u64,
    fault: Option<u64>,
    prefix: &[u8],
) -> Result<(), OutOfMemory>
    ensures { OnOk result (follow reading.old.so_far (going_on reading.old.pending number fault prefix.now) ≡ Ok reading.new) }
{
    let whole = Whole::begun(alloc, reading.pending.take(), number).extended(fault, prefix)?;
    reading.pending = Some(whole.extended(None, b" ")?);
    Ok(())
}

// What was read at the end of the file, where the whole line ends that goes on.
fn finish(alloc: Global, reading: Reading) -> Result<Ini, IniErr>
    ensures { Gives result (finished reading) }
{
    let Reading {
        mut so_far,
        pending,
    } = reading;
    match pending {
        None => Ok(ini(alloc, so_far)?),
        Some(whole) => {
            match take(
                alloc,
                &mut so_far,
                whole.number,
                whole.text.bytes(),
                whole.fault,
            ) {
                Err(refused) => Err(refused),
                Ok(()) => Ok(ini(alloc, so_far)?),
            }
        }
    }
}

// The unit file that was read.
fn ini(alloc: Global, so_far: SoFar) -> Result<Ini, OutOfMemory>
    ensures { IfOk result (λ ini. ini ≡ all_sections so_far) }
{
    Ok(Ini::new(alloc, so_far.into_sections()?))
}
