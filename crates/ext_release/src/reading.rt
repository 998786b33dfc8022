ghost use Rattle.std.specs.Prelude.{◌≡◌, true, IfOk};
ghost use Rattle.ext_lines.specs.Plain.{is_plain_text_with_tabs};
ghost use Rattle.ext_release.specs.Line.{assigns, is_key, line_of, meaning};
ghost use Rattle.ext_release.specs.Reading.{FollowsAs};
ghost use Rattle.ext_release.specs.Release.{ReadsRelease};

use crate::line::is_key;
use crate::release::Release;
use crate::value::unquoted;
use ext_lines::{
    next_line, plain_text_with_tabs, split_str_at_byte, strip_carriage_return, trimmed_str,
};
use ext_text::OutOfMemory;
use std::alloc::Global;
use thiserror::Error;

/// Why bytes are no release file.
#[derive(Clone, Copy, Debug, PartialEq, Eq, Error)]
pub enum ReleaseErr {
    /// An allocation failed.
    #[error("out of memory")]
    OutOfMemory,
    /// A line is faulty.
    #[error("line {line} of the release file is faulty")]
    BadRelease {
        /// The first line that is, counted from 1.
        line: u64,
    },
}

impl From<OutOfMemory> for ReleaseErr {
    ghost use Rattle.std.specs.Prelude.{◌≡◌};
    ghost use Rattle.ext_release.specs.declared.reading.ReleaseErr.TheVariants as errors;

    ghost from_gives = { λ _ e. e ≡ errors.OutOfMemory };

    fn from(_failed: OutOfMemory) -> ReleaseErr {
        ReleaseErr::OutOfMemory
    }
}

/// What a release file assigns. Its lines end at newlines, the last one perhaps not. One carriage return at the end of a
/// line and blanks, spaces and tabs, at both ends do not count. A line is skipped where no `=` stands in it, or where what
/// stands before the first is no key of the form `[A-Z_][A-Z0-9_]*`: an empty line and a comment are such lines. What
/// stands after it is the value, without blanks at both ends. It stands there in one of three ways:
///
/// - In double quotes, where a backslash escapes `"`, `$`, a backquote and a backslash, and before any other byte stands
///   for itself.
/// - In single quotes, where nothing is special.
/// - Without quotes, where a backslash escapes any byte, and at the end stands for nothing.
///
/// What is escaped stands for itself and its backslash for nothing. The last assignment of a key counts, and an empty value
/// counts as none.
///
/// Quotes, comments and empty lines are os-release(5)'s. The rest of the rule is this project's own.
///
/// # Errors
/// - `BadRelease` with the first line, counted from 1, that is no UTF-8, holds a control byte other than a tab, or assigns
///   to a key a value whose quote does not close or has text after it.
/// - `OutOfMemory`.
pub fn read_release(alloc: Global, bytes: &[u8]) -> Result<Release, ReleaseErr>
    ensures { ReadsRelease bytes.now result }
{
    let mut release = Release::new(alloc);
    let mut rest = bytes;
    let mut number = 0;
    'lines: loop {
        let (line, after) = next_line(rest);
        number += 1;
        if !follow(&mut release, line)? {
            return Err(ReleaseErr::BadRelease { line: number });
        }
        match after {
            None => return Ok(release),
            Some(more) => rest = more,
        }
    }
}

// Follows a line; whether it is sound.
fn follow(release: &mut Release, line: &[u8]) -> Result<bool, OutOfMemory>
    ensures { IfOk result (FollowsAs (line_of line.now) release.old release.new) }
{
    match plain_text_with_tabs(strip_carriage_return(line)) {
        None => Ok(false),
        Some(text) => follow_text(release, text),
    }
}

// Follows a line without its carriage return.
fn follow_text(release: &mut Release, text: &str) -> Result<bool, OutOfMemory>
    requires { is_plain_text_with_tabs text.now ≡ true }
    ensures { IfOk result (FollowsAs (meaning text.now) release.old release.new) }
{
    match split_str_at_byte(trimmed_str(text), b'=') {
        Some((key, value)) if is_key(key.as_bytes()) => assign(release, key, value),
        _ => Ok(true),
    }
}

// Follows an assignment; whether its value is sound.
fn assign(release: &mut Release, key: &str, text: &str) -> Result<bool, OutOfMemory>
    requires { is_key key.now ≡ true }
    ensures { IfOk result (FollowsAs (assigns key.now text.now) release.old release.new) }
{
    match unquoted(release.allocator(), trimmed_str(text))? {
        None => Ok(false),
        Some(value) => {
            release.set(key, value)?;
            Ok(true)
        }
    }
}
