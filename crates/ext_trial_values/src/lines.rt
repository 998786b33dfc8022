// Words about lines, words, numbers and small values, which take no memory beside what they write.
use crate::asked::{Asked, Row, Said, Stop};
use crate::paths::order_word;
use ext_lines::{
    after_blanks, before_blanks, before_last, begins_with, five_digits, has_word, hex_digits,
    is_plain, next_line, next_text_line, next_word, plain_text, plain_text_with_tabs, read_decimal,
    read_five_digits, read_hex_digits, read_octal, split_at_byte, split_str_at_byte,
    strip_carriage_return, trimmed, trimmed_str,
};
use ext_text::{Arch, Class, Digest, Mode, Scope};
use ext_vers::{compare, is_version, order};
use std::str;

pub(crate) const WORDS: [Row; 20] = [
    ("split", "bytes text last", 2),
    ("line", "next text strip", 1),
    ("line", "begins", 2),
    ("blanks", "trim bytes first last", 1),
    ("word", "next", 1),
    ("word", "has", 2),
    ("plain", "bytes text tabs", 1),
    ("decimal", "read", 2),
    ("octal", "read", 2),
    ("five", "read write", 1),
    ("hexadecimal", "read write", 1),
    ("decimal", "write", 1),
    ("octal", "write", 1),
    ("digest", "of read", 1),
    ("mode", "new", 1),
    ("version", "is", 1),
    ("version", "compare order", 2),
    ("arch", "read", 1),
    ("scope", "read", 1),
    ("class", "read", 1),
];

// What a word writes.
enum Out<'a> {
    Line(&'a [u8]),
    Lines(&'a [u8], &'a [u8]),
    Holds(bool),
    Number(u64),
    Octal(u64),
    Digits([u8; 64]),
    Bytes([u8; 32]),
    Five([u8; 5]),
}

/// What the word of a number writes: `none` where nothing comes, and where an argument is none of the word's.
pub(crate) fn reply(asked: Asked, number: usize) -> Said {
    let (first, second) = (asked.bytes(0), asked.bytes(1));
    let out = match number {
        0..=62 => of_lines(number, first, second),
        70..=120 => of_numbers(number, first, second),
        _ => of_values(number, first, second),
    };
    match out {
        None => Err(Stop::Says("none")),
        Some(Out::Line(line)) => asked.line(&[line]),
        Some(Out::Lines(line, other)) => asked.line(&[line, b"\n", other]),
        Some(Out::Holds(holds)) => asked.yes_or_no(holds),
        Some(Out::Number(number)) => asked.line(&[asked.digits(number)?.as_slice()]),
        Some(Out::Octal(number)) => asked.line(&[asked.octal(number)?.as_slice()]),
        Some(Out::Digits(digits)) => asked.line(&[&digits]),
        Some(Out::Bytes(bytes)) => asked.line(&[&bytes]),
        Some(Out::Five(digits)) => asked.line(&[&digits]),
    }
}

fn of_lines<'a>(number: usize, first: &'a [u8], second: &'a [u8]) -> Option<Out<'a>> {
    match number {
        0 => both(split_at_byte(second, byte(first)?)),
        1 => split_text(second, byte(first)?),
        2 => Some(Out::Line(before_last(second, byte(first)?)?)),
        10 => match next_line(first) {
            (line, None) => Some(Out::Line(line)),
            (line, Some(after)) => Some(Out::Lines(line, after)),
        },
        11 => both(next_text_line(first)),
        12 => Some(Out::Line(strip_carriage_return(first))),
        20 => Some(Out::Holds(begins_with(first, second))),
        30 => Some(Out::Line(trimmed_str(text(first)?).as_bytes())),
        31 => Some(Out::Line(trimmed(first))),
        32 => Some(Out::Line(after_blanks(first))),
        33 => Some(Out::Line(before_blanks(first))),
        40 => both(next_word(first)),
        50 => Some(Out::Holds(has_word(first, second))),
        60 => Some(Out::Holds(is_plain(first))),
        61 => Some(Out::Holds(plain_text(first).is_some())),
        _ => Some(Out::Holds(plain_text_with_tabs(first).is_some())),
    }
}

fn both<'a>(parts: Option<(&'a [u8], &'a [u8])>) -> Option<Out<'a>> {
    let (first, second) = parts?;
    Some(Out::Lines(first, second))
}

fn byte(bytes: &[u8]) -> Option<u8> {
    match bytes {
        [byte] => Some(*byte),
        _ => None,
    }
}

fn text(bytes: &[u8]) -> Option<&str> {
    str::from_utf8(bytes).ok()
}

fn split_text(bytes: &[u8], at: u8) -> Option<Out<'_>> {
    if at >= 128 {
        return None;
    }
    let (before, after) = split_str_at_byte(text(bytes)?, at)?;
    Some(Out::Lines(before.as_bytes(), after.as_bytes()))
}

fn of_numbers<'a>(number: usize, first: &'a [u8], second: &'a [u8]) -> Option<Out<'a>> {
    match number {
        70 => Some(Out::Number(read_decimal(first, read_decimal(second, u64::MAX)?)?)),
        80 => Some(Out::Number(read_octal(first, read_decimal(second, u64::MAX)?)?)),
        90 => Some(Out::Number(u64::from(read_five_digits(first)?))),
        91 => Some(Out::Five(five_digits(read_decimal(first, 1_048_575)? as u32))),
        100 => Some(Out::Bytes(read_hex_digits(first)?)),
        101 => Some(Out::Digits(hex_digits(&<[u8; 32]>::try_from(first).ok()?))),
        110 => Some(Out::Number(read_decimal(first, u64::MAX)?)),
        _ => Some(Out::Octal(read_decimal(first, u64::MAX)?)),
    }
}

fn of_values<'a>(number: usize, first: &'a [u8], second: &'a [u8]) -> Option<Out<'a>> {
    match number {
        130 => Some(Out::Digits(Digest::of(first).digits())),
        131 => Some(Out::Digits(Digest::read(first)?.digits())),
        140 => Some(Out::Octal(u64::from(Mode::new(read_octal(first, 65_535)? as u16)?.bits()))),
        150 => Some(Out::Holds(is_version(first))),
        160 => Some(Out::Line(order_word(compare(first, second)))),
        161 => Some(Out::Line(order_word(order(first, second)))),
        170 => Some(Out::Line(Arch::read(first)?.name().as_bytes())),
        180 => Some(Out::Line(Scope::read(first)?.name().as_bytes())),
        _ => Some(Out::Line(Class::read(first)?.name().as_bytes())),
    }
}
