// The value that the text of an assignment stands for.
ghost use Rattle.std.specs.Prelude.{◌≡◌, ◌<◌, ◌≤◌, ◌∷◌, ◌++◌, length, IfOk, MatchOption, Some};
ghost use Rattle.std.specs.Option.{option_map};
ghost use Rattle.std.specs.String.{string_bytes};
ghost use Rattle.ext_lines.specs.Split.{IsSplitBy, NonePass, split_of};
ghost use Rattle.ext_release.specs.Value.{bare, closed, is_mark, is_special, split_double, unquoted, with_prefix};

use ext_lines::{split_around, split_str_at_byte};
use ext_text::OutOfMemory;
use memchr::memchr2;
use std::alloc::Global;

// The value that a text stands for; `None` where its quote does not close, or where text follows that.
pub(crate) fn unquoted(alloc: Global, text: &str) -> Result<Option<String>, OutOfMemory>
    ensures { IfOk result (λ value. option_map string_bytes value ≡ unquoted text.now) }
{
    match text.as_bytes() {
        [b'"', ..] => read_double(alloc, split_around(text, 0).1),
        [b'\'', ..] => read_single(alloc, split_around(text, 0).1),
        _ => Ok(Some(read_bare(alloc, text)?)),
    }
}

// The value in double quotes, from after the first of them.
fn read_double(alloc: Global, text: &str) -> Result<Option<String>, OutOfMemory>
    ensures { IfOk result (λ value. option_map string_bytes value ≡ closed (split_double text.now)) }
{
    let mut value = String::new(alloc);
    let mut rest = text;
    'pieces: loop {
        match split_at_mark(rest) {
            None => return Ok(None),
            Some((piece, mark, after)) => {
                value.push_str(piece)?;
                if mark == b'"' {
                    return Ok(closed(value, after));
                }
                if after.is_empty() {
                    return Ok(None);
                }
                rest = push_double_escape(&mut value, after)?;
            }
        }
    }
}

// The text before the first double quote or backslash, that byte, and the text after it.
fn split_at_mark(text: &str) -> Option<(&str, u8, &str)>
    ensures { MatchOption result (NonePass is_mark text.now) (λ parts. IsSplitBy is_mark text.now parts.0.now parts.1 parts.2.now) }
{
    match memchr2(b'"', b'\\', text.as_bytes()) {
        None => None,
        Some(index) => {
            let mark = text.as_bytes()[index];
            let (prefix, after) = split_around(text, index);
            Some((prefix, mark, after))
        }
    }
}

// Adds what a backslash before this text stands for inside double quotes, with the first byte of the text where the
// backslash escapes it; the text that is left to read.
fn push_double_escape<'t>(value: &mut String, text: &'t str) -> Result<&'t str, OutOfMemory>
    requires { 0 < length text.now }
    ensures escaped { IfOk result (λ rest. with_prefix (string_bytes value.new) (split_double rest.now)
        ≡ with_prefix (string_bytes value.old) (split_double (92 ∷ text.now))) }
    ensures shorter { IfOk result (λ rest. length rest.now ≤ length text.now) }
{
    let first = text.as_bytes()[0];
    if is_special(first) {
        value.push(first as char)?;
        let (_before, after) = split_around(text, 0);
        return Ok(after);
    }
    value.push('\\')?;
    Ok(text)
}

// Whether a backslash escapes the byte inside double quotes.
fn is_special(byte: u8) -> bool
    ensures { result ≡ is_special byte }
{
    matches!(byte, b'"' | b'$' | b'`' | b'\\')
}

// The value in quotes that have closed, unless text stands after them.
fn closed(value: String, after: &str) -> Option<String>
    ensures { option_map string_bytes result ≡ closed (Some (string_bytes value, after.now)) }
{
    if after.is_empty() { Some(value) } else { None }
}

// The value in single quotes, from after the first of them.
fn read_single(alloc: Global, text: &str) -> Result<Option<String>, OutOfMemory>
    ensures { IfOk result (λ value. option_map string_bytes value ≡ closed (split_of 39 text.now)) }
{
    match split_str_at_byte(text, b'\'') {
        Some((value, "")) => Ok(Some(String::from_str(alloc, value)?)),
        _ => Ok(None),
    }
}

// The value without quotes.
fn read_bare(alloc: Global, text: &str) -> Result<String, OutOfMemory>
    ensures { IfOk result (λ value. string_bytes value ≡ bare text.now) }
{
    let mut value = String::new(alloc);
    let mut rest = text;
    'pieces: loop {
        match split_str_at_byte(rest, b'\\') {
            None => {
                value.push_str(rest)?;
                return Ok(value);
            }
            Some((piece, after)) => {
                value.push_str(piece)?;
                rest = push_bare_escape(&mut value, after)?;
            }
        }
    }
}

// Adds the byte that a backslash before this text escapes, where that is a backslash too: any other byte is left to read,
// as it stands for itself.
fn push_bare_escape<'t>(value: &mut String, text: &'t str) -> Result<&'t str, OutOfMemory>
    ensures escaped { IfOk result (λ rest. string_bytes value.new ++ bare rest.now ≡ string_bytes value.old ++ bare (92 ∷ text.now)) }
    ensures shorter { IfOk result (λ rest. length rest.now ≤ length text.now) }
{
    match text.as_bytes() {
        [b'\\', ..] => {
            value.push('\\')?;
            let (_before, after) = split_around(text, 0);
            Ok(after)
        }
        _ => Ok(text),
    }
}
