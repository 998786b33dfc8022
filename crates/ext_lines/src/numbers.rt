// Numbers as text: decimal and octal digits without leading zeros.
ghost use Rattle.std.specs.Prelude.{◌≡◌, ◌≢◌, ◌+◌, ◌*◌, ◌<◌, ◌≤◌, ◌↔◌, ◌++◌, ℕ, length, take, decimal, IsTrue, MatchOption, OnOk, OnErr, SomeIff, slice_index};
ghost use Rattle.std.specs.Str.Parse.{AllDigits, digits_value};
ghost use Rattle.ext_lines.specs.Numbers.{octal};

use crate::memory::{OutOfMemory, allocated};
use itoa::Buffer;

/// The number that a text writes in decimal digits without leading zeros; `None` exactly where no number up to `most` is
/// written so.
pub fn read_decimal(text: &[u8], most: u64) -> Option<u64>
    ensures { MatchOption result
        ((n : ℕ) → n ≤ most → text.now ≢ decimal n)
        (λ n. (n ≤ most) × (text.now ≡ decimal n)) }
{
    if is_short(text) {
        value_of(text, 10, most)
    } else {
        None
    }
}

/// The number that a text writes in octal digits without leading zeros; `None` exactly where no number up to `most` is
/// written so.
pub fn read_octal(text: &[u8], most: u64) -> Option<u64>
    ensures { MatchOption result
        ((n : ℕ) → n ≤ most → text.now ≢ octal n)
        (λ n. (n ≤ most) × (text.now ≡ octal n)) }
{
    if is_short(text) {
        value_of(text, 8, most)
    } else {
        None
    }
}

/// Adds the decimal digits of a number.
///
/// # Errors
/// `OutOfMemory`. The text is then as before.
pub fn append_decimal(text: &mut Vec<u8>, number: u64) -> Result<(), OutOfMemory>
    ensures ok { OnOk result (text.new.items ≡ text.old.items ++ decimal number) }
    ensures err { OnErr result (text.new.items ≡ text.old.items) }
{
    let mut buffer = Buffer::new();
    allocated(text.extend_from_slice(buffer.format(number).as_bytes()))
}

/// Adds the octal digits of a number.
///
/// # Errors
/// `OutOfMemory`. The text is then as before.
pub fn append_octal(text: &mut Vec<u8>, number: u64) -> Result<(), OutOfMemory>
    ensures ok { OnOk result (text.new.items ≡ text.old.items ++ octal number) }
    ensures err { OnErr result (text.new.items ≡ text.old.items) }
{
    if number >= 64 && number < 512 {
        return append_three_digits(text, number);
    }
    let before = text.len();
    match append_octal_digits(text, number) {
        Ok(()) => Ok(()),
        Err(failed) => {
            text.truncate(before);
            Err(failed)
        }
    }
}

// Adds the octal digits of a number that has three, as the permissions of most files.
fn append_three_digits(text: &mut Vec<u8>, number: u64) -> Result<(), OutOfMemory>
    requires low { 64 ≤ number }
    requires high { number < 512 }
    ensures ok { OnOk result (text.new.items ≡ text.old.items ++ octal number) }
    ensures err { OnErr result (text.new.items ≡ text.old.items) }
{
    allocated(text.extend_from_slice(&three_digits(number)))
}

// The octal digits of a number that has three.
fn three_digits(number: u64) -> [u8; 3]
    requires low { 64 ≤ number }
    requires high { number < 512 }
    ensures { result ≡ octal number }
{
    [
        b'0' + (number / 64) as u8,
        b'0' + (number / 8 % 8) as u8,
        b'0' + (number % 8) as u8,
    ]
}

// Adds the octal digits of a number. Where memory runs out, some of them have been added.
fn append_octal_digits(text: &mut Vec<u8>, number: u64) -> Result<(), OutOfMemory>
    ensures ok { OnOk result (text.new.items ≡ text.old.items ++ octal number) }
    ensures err { OnErr result (take (length text.old.items) text.new.items ≡ text.old.items) }
{
    if number >= 8 {
        append_octal_digits(text, number / 8)?;
    }
    text.push(b'0' + (number % 8) as u8)?;
    Ok(())
}

// The number that digits write in a base, where it is at most so much.
fn value_of(digits: &[u8], base: u32, most: u64) -> Option<u64>
    requires low { 2 ≤ base }
    requires high { base ≤ 10 }
    ensures { MatchOption result
        (AllDigits base digits.now → ¬ (digits_value base digits.now ≤ most))
        (λ n. (n ≡ digits_value base digits.now) × AllDigits base digits.now × (n ≤ most)) }
{
    let mut value = 0;
    'digits: for byte in digits {
        let digit = char::from(*byte).to_digit(base)?;
        value = one_digit_more(value, base, digit, most)?;
    }
    Some(value)
}

// The number with one digit more, where it is at most so much.
fn one_digit_more(value: u64, base: u32, digit: u32, most: u64) -> Option<u64>
    ensures { SomeIff result (value * base + digit ≤ most) (value * base + digit) }
{
    let next = value
        .checked_mul(u64::from(base))?
        .checked_add(u64::from(digit))?;
    if next <= most { Some(next) } else { None }
}

// Whether a numeral has no leading zero: it is `0`, or begins with another digit.
fn is_short(digits: &[u8]) -> bool
    ensures { IsTrue result ↔ ((0 < length digits.now) × (slice_index digits.now 0 ≡ 48 → length digits.now ≡ 1)) }
{
    match digits {
        [] => false,
        [b'0', rest @ ..] => rest.is_empty(),
        [_first, ..] => true,
    }
}
