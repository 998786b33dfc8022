// The arguments of a word: how many there are, and what they are.
ghost use Rattle.std.specs.Prelude.{◌<◌, ◌≤◌, ◌^◌, IfOk};

use crate::trouble::Trouble;
use ext_lines::read_decimal;
use ext_text::{Name, NameErr, Path, PathErr, Text};
use std::alloc::Global;
use std::str;

/// The one argument. Errors: `Unreadable` where there is none, or there are more.
pub fn one(arguments: &[Text]) -> Result<&Text, Trouble> {
    match arguments {
        [first] => Ok(first),
        _ => Err(Trouble::Unreadable("one argument is wanted")),
    }
}

/// The two arguments. Errors: `Unreadable` where there are fewer or more.
pub fn two(arguments: &[Text]) -> Result<(&Text, &Text), Trouble> {
    match arguments {
        [first, second] => Ok((first, second)),
        _ => Err(Trouble::Unreadable("two arguments are wanted")),
    }
}

/// The three arguments. Errors: `Unreadable` where there are fewer or more.
pub fn three(arguments: &[Text]) -> Result<(&Text, &Text, &Text), Trouble> {
    match arguments {
        [first, second, third] => Ok((first, second, third)),
        _ => Err(Trouble::Unreadable("three arguments are wanted")),
    }
}

/// The first argument, and the others. Errors: `Unreadable` where there is none.
pub fn one_and_more(arguments: &[Text]) -> Result<(&Text, &[Text]), Trouble> {
    match arguments {
        [first, others @ ..] => Ok((first, others)),
        [] => Err(Trouble::Unreadable("an argument is wanted")),
    }
}

/// The first two arguments, and the others. Errors: `Unreadable` where there are fewer than two.
pub fn two_and_more(arguments: &[Text]) -> Result<(&Text, &Text, &[Text]), Trouble> {
    match arguments {
        [first, second, others @ ..] => Ok((first, second, others)),
        _ => Err(Trouble::Unreadable("two arguments or more are wanted")),
    }
}

/// The argument as a name. Errors: `Unreadable` where it is none.
pub fn name(alloc: Global, argument: &Text) -> Result<Name, Trouble> {
    match Name::read(alloc, argument.bytes()) {
        Ok(name) => Ok(name),
        Err(NameErr::OutOfMemory) => Err(Trouble::OutOfMemory),
        Err(NameErr::BadName) => Err(Trouble::Unreadable("not a name")),
    }
}

/// The argument as a path. The empty one is the path without names. Errors: `Unreadable` where it is none.
pub fn path(alloc: Global, argument: &Text) -> Result<Path, Trouble> {
    match Path::read(alloc, argument.bytes()) {
        Ok(path) => Ok(path),
        Err(PathErr::OutOfMemory) => Err(Trouble::OutOfMemory),
        Err(_) => Err(Trouble::Unreadable("not a path")),
    }
}

/// The argument as a decimal number of at most so much. Errors: `Unreadable` where it is none.
pub fn number(argument: &Text, most: u64) -> Result<u64, Trouble>
    ensures { IfOk result (λ number. number ≤ most) }
{
    match read_decimal(argument.bytes(), most) {
        Some(number) => Ok(number),
        None => Err(Trouble::Unreadable("not a number, or too large")),
    }
}

/// The argument as a decimal number that an index may be. Errors: `Unreadable` where it is none.
pub fn size(argument: &Text) -> Result<usize, Trouble> {
    Ok(number(argument, u64::MAX)? as usize)
}

/// The argument as text. Errors: `Unreadable` where it is not UTF-8.
pub fn string(argument: &Text) -> Result<&str, Trouble> {
    match str::from_utf8(argument.bytes()) {
        Ok(text) => Ok(text),
        Err(_) => Err(Trouble::Unreadable("not UTF-8")),
    }
}

/// The place of a word among words with a space between each two; `None` where it is none of them.
pub fn place_in(words: &str, asked: &[u8]) -> Option<usize> {
    let mut place: usize = 0;
    for word in words.as_bytes().split(|byte| *byte == b' ') {
        if word == asked {
            return Some(place);
        }
        place = place.saturating_add(1);
    }
    None
}
