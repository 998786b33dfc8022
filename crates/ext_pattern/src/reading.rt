ghost use Rattle.std.specs.Prelude.{◌≡◌, ◌∷◌, [], Ok, true, IfOk};
ghost use Rattle.std.specs.Option.{option_map};
ghost use Rattle.ext_pattern.specs.Literal.{is_literal};
ghost use Rattle.ext_pattern.specs.Part.{AreParts};
ghost use Rattle.ext_pattern.specs.Reading.{GivesAsRead, ReadsPattern, part_of, part_of_wildcard, parts_of, pattern_of_parts, pieces_left, pieces_of};

use crate::literal::is_literal;
use crate::part::{Part, ends_in_wildcard, has, is_short};
use crate::pattern::Pattern;
use crate::wildcard::Wildcard;
use ext_lines::split_at_byte;
use ext_text::{ListOf, OutOfMemory, Text};
use std::alloc::Global;
use thiserror::Error;

/// Why a text is no pattern.
#[derive(Clone, Copy, Debug, PartialEq, Eq, Error)]
pub enum PatternErr {
    /// An allocation failed.
    #[error("out of memory")]
    OutOfMemory,
    /// An `@` stands before a byte that names no wildcard.
    #[error("an @ stands before the byte {byte}, which names no wildcard")]
    Unknown {
        /// That byte, or 0 where the text ends with the `@`.
        byte: u8,
    },
    /// Two wildcards have no byte between them.
    #[error("two wildcards have no byte between them")]
    Adjacent,
    /// A wildcard stands a second time.
    #[error("a wildcard stands a second time")]
    Repeated,
    /// A byte is `/` or a control byte, or begins no character.
    #[error("a byte may not stand in a pattern")]
    BadByte,
    /// There is no `@v`.
    #[error("there is no @v")]
    NoVersion,
    /// Its names may be longer than a name may be.
    #[error("its names may be too long")]
    TooLong,
}

impl From<OutOfMemory> for PatternErr {
    ghost use Rattle.std.specs.Prelude.{◌≡◌};
    ghost use Rattle.ext_pattern.specs.declared.reading.PatternErr.TheVariants as errors;

    ghost from_gives = { λ _ e. e ≡ errors.OutOfMemory };

    fn from(_failed: OutOfMemory) -> PatternErr {
        PatternErr::OutOfMemory
    }
}

/// The pattern that a text writes: literals, with `@v` for a version and `@h` for a digest between them.
///
/// # Errors
/// The first of these from the left, where at one `@` the earlier in this list comes first:
///
/// - `Unknown` with the byte after an `@` that is neither `v` nor `h`, or with 0 where the text ends with the `@`.
/// - `Adjacent` where two wildcards have no byte between them.
/// - `Repeated` where a wildcard stands a second time.
/// - `BadByte` where a byte is `/` or a control byte, or begins no UTF-8 character.
///
/// A text without these faults has the first of these:
///
/// - `NoVersion` where there is no `@v`.
/// - `TooLong` where the bytes of the literals, 128 for `@v`, and 64 for an `@h` are more than 255.
///
/// And for any text `OutOfMemory`.
pub fn read_pattern(alloc: Global, text: &[u8]) -> Result<Pattern, PatternErr>
    ensures { ReadsPattern text.now result }
{
    let (first, left) = next_piece(text);
    if !is_literal(first) {
        return Err(PatternErr::BadByte);
    }
    match read_parts(alloc, left) {
        Err(fault) => Err(fault),
        Ok(parts) => of_parts(alloc, first, parts),
    }
}

// The text before the first `@`, and the text after it.
fn next_piece(text: &[u8]) -> (&[u8], Option<&[u8]>)
    ensures { pieces_of text.now ≡ result.0.now ∷ pieces_left (option_map (λ t. t.now) result.1) }
{
    match split_at_byte(text, b'@') {
        None => (text, None),
        Some((piece, after)) => (piece, Some(after)),
    }
}

// The parts that are written after the first `@`, if there is one.
fn read_parts(alloc: Global, left: Option<&[u8]>) -> Result<ListOf<Part>, PatternErr>
    ensures gives { GivesAsRead result (parts_of [] (pieces_left (option_map (λ t. t.now) left.entry))) }
    ensures parts { IfOk result (λ parts. AreParts [] parts) }
{
    let mut parts = ListOf::new(alloc);
    let mut rest = left;
    'pieces: while let Some(text) = rest {
        let (piece, after) = next_piece(text);
        match read_part(alloc, parts.as_slice(), piece, after.is_none()) {
            Err(fault) => return Err(fault),
            Ok(part) => parts.push(part)?,
        }
        rest = after;
    }
    Ok(parts)
}

// The part that a piece writes, after the parts before it.
fn read_part(
    alloc: Global,
    before: &[Part],
    piece: &[u8],
    is_last: bool,
) -> Result<Part, PatternErr>
    ensures { GivesAsRead result (part_of before.now piece.now is_last) }
{
    match piece.split_first() {
        None => Err(PatternErr::Unknown {
            byte: if is_last { 0 } else { b'@' },
        }),
        Some((letter, literal)) => match Wildcard::of(*letter) {
            None => Err(PatternErr::Unknown { byte: *letter }),
            Some(wildcard) => place(alloc, before, wildcard, literal),
        },
    }
}

// The part of a wildcard and its literal, after the parts before it.
fn place(
    alloc: Global,
    before: &[Part],
    wildcard: Wildcard,
    literal: &[u8],
) -> Result<Part, PatternErr>
    ensures { GivesAsRead result (part_of_wildcard before.now wildcard literal.now) }
{
    if ends_in_wildcard(before) {
        return Err(PatternErr::Adjacent);
    }
    if has(wildcard, before) {
        return Err(PatternErr::Repeated);
    }
    if !is_literal(literal) {
        return Err(PatternErr::BadByte);
    }
    Ok(Part {
        wildcard,
        literal: Text::from_bytes(alloc, literal)?,
    })
}

// The pattern of a first literal and these parts.
fn of_parts(alloc: Global, first: &[u8], parts: ListOf<Part>) -> Result<Pattern, PatternErr>
    requires first { is_literal first.now ≡ true }
    requires parts { AreParts [] parts }
    ensures { GivesAsRead result (pattern_of_parts first.now (Ok parts)) }
{
    if !has(Wildcard::Version, parts.as_slice()) {
        return Err(PatternErr::NoVersion);
    }
    if !is_short(first, parts.as_slice()) {
        return Err(PatternErr::TooLong);
    }
    Ok(Pattern {
        alloc,
        first: Text::from_bytes(alloc, first)?,
        parts,
    })
}
