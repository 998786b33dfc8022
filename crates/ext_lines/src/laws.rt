//! What is printed says what it was printed from: no two numbers, and no two lists of 32 bytes, have one text.
ghost use Rattle.std.specs.Prelude.{◌≡◌, ◌/◌, ◌%◌, ◌<◌, ◌^◌, ℕ, List, [], ◌∷◌, decimal, drop};
ghost use Rattle.hex.specs.Hex.{encode_lower};
ghost use Rattle.ext_lines.specs.Hexadecimal.{Are32Bytes, five_digits};
ghost use Rattle.ext_lines.specs.Numbers.{octal};

/// No two numbers have the same decimal digits, and none the same octal digits.
pub fn a_number_has_its_own_text()
    ensures decimal { (m n : ℕ) → m < 2 ^ 64 → n < 2 ^ 64 → decimal m ≡ decimal n → m ≡ n }
    ensures octal { (m n : ℕ) → m < 2 ^ 64 → n < 2 ^ 64 → octal m ≡ octal n → m ≡ n }
{}

/// No two lists of 32 bytes have the same hexadecimal digits, and no two numbers the same five.
pub fn hexadecimal_digits_have_one_value()
    ensures bytes { (bytes others : List ℕ) → Are32Bytes bytes → Are32Bytes others → encode_lower bytes
        ≡ encode_lower others → bytes ≡ others }
    ensures number { (m n : ℕ) → m < 1048576 → n < 1048576 → five_digits m ≡ five_digits n → m ≡ n }
{}

/// The five digits of a number are those of its three bytes, the high one first, without the first digit.
pub fn five_digits_are_those_of_three_bytes()
    ensures { (n : ℕ) → n < 1048576 → five_digits n ≡ drop 1 (encode_lower (n / 65536 ∷ n / 256 % 256 ∷ n % 256 ∷ [])) }
{}
