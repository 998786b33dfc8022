// Lower-case hexadecimal digits: of 32 bytes, and of a number that has five.
ghost use Rattle.std.specs.Prelude.{◌≡◌, ◌≢◌, ◌<◌, ◌↔◌, ℕ, List, [], ◌∷◌, length, IsTrue, MatchOption, Some, slice_index};
ghost use Rattle.hex.specs.Hex.{encode_lower, hex_digit_value, lower_digits};
ghost use Rattle.ext_lines.specs.Hexadecimal.{Are32Bytes, five_digits};

/// The 64 digits of 32 bytes, two digits a byte.
pub fn hex_digits(input: &[u8; 32]) -> [u8; 64]
    ensures { result ≡ encode_lower input.now }
{
    let mut digits = [0; 64];
    'bytes: for at in 0..32 {
        digits[2 * at] = digit_of(input[at] / 16);
        digits[2 * at + 1] = digit_of(input[at] % 16);
    }
    digits
}

/// The 32 bytes that a text writes in 64 digits; `None` exactly where no 32 bytes are written so.
pub fn read_hex_digits(text: &[u8]) -> Option<[u8; 32]>
    ensures { MatchOption result
        ((bytes : List ℕ) → Are32Bytes bytes → text.now ≢ encode_lower bytes)
        (λ bytes. Are32Bytes bytes × (text.now ≡ encode_lower bytes)) }
{
    if text.len() != 64 {
        return None;
    }
    let bytes = bytes_of(text);
    if is_written_so(&bytes, text) {
        Some(bytes)
    } else {
        None
    }
}

/// The five digits of a number below 1,048,576, leading zeros among them.
pub fn five_digits(number: u32) -> [u8; 5]
    requires { number < 1048576 }
    ensures { result ≡ five_digits number }
{
    [
        digit_of((number / 65536) as u8),
        digit_of((number / 4096 % 16) as u8),
        digit_of((number / 256 % 16) as u8),
        digit_of((number / 16 % 16) as u8),
        digit_of((number % 16) as u8),
    ]
}

/// The number that a text writes in five digits; `None` exactly where no number is written so.
pub fn read_five_digits(text: &[u8]) -> Option<u32>
    ensures { MatchOption result
        ((n : ℕ) → n < 1048576 → text.now ≢ five_digits n)
        (λ n. (n < 1048576) × (text.now ≡ five_digits n)) }
{
    match text {
        [a, b, c, d, e] => {
            let number = number_of(*a, *b, *c, *d, *e);
            if text == five_digits(number).as_slice() {
                Some(number)
            } else {
                None
            }
        }
        _ => None,
    }
}

// The digit of a value, by arithmetic alone: so a processor finds the digits of many values at once, as it could not by
// a table.
fn digit_of(value: u8) -> u8
    requires { value < 16 }
    ensures { result ≡ slice_index lower_digits value }
{
    b'0' + value + 39 * (value > 9) as u8
}

// The value of a digit of either case, read without a look at which kind it is: the digits of a digest come in no order
// that a processor could foresee. What it is for another byte does not count.
fn value_of_digit(byte: u8) -> u8
    ensures low { result < 16 }
    ensures value { (n : ℕ) → hex_digit_value byte ≡ Some n → result ≡ n }
{
    (byte % 16 + 9 * (byte / 64)) % 16
}

// The bytes whose digits these are. What it gives for other texts does not count.
fn bytes_of(digits: &[u8]) -> [u8; 32]
    requires { length digits.now ≡ 64 }
    ensures bytes { Are32Bytes result }
    ensures read { (bytes : List ℕ) → Are32Bytes bytes → digits.now ≡ encode_lower bytes → result ≡ bytes }
{
    let mut bytes = [0; 32];
    'bytes: for at in 0..32 {
        bytes[at] = value_of_digit(digits[2 * at]) * 16 + value_of_digit(digits[2 * at + 1]);
    }
    bytes
}

// Whether the bytes are written so.
fn is_written_so(bytes: &[u8; 32], text: &[u8]) -> bool
    ensures { IsTrue result ↔ (text.now ≡ encode_lower bytes.now) }
{
    text == hex_digits(bytes).as_slice()
}

// The number whose digits these are. What it gives for other bytes does not count.
fn number_of(a: u8, b: u8, c: u8, d: u8, e: u8) -> u32
    ensures low { result < 1048576 }
    ensures read { (n : ℕ) → n < 1048576 → a ∷ b ∷ c ∷ d ∷ e ∷ [] ≡ five_digits n → result ≡ n }
{
    let high = u32::from(value_of_digit(a)) * 16 + u32::from(value_of_digit(b));
    let middle = u32::from(value_of_digit(c)) * 16 + u32::from(value_of_digit(d));
    (high * 256 + middle) * 16 + u32::from(value_of_digit(e))
}
