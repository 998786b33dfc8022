// Numbers by their digits, of any length.
ghost use Rattle.std.specs.Prelude.{◌≡◌, ◌==◌, length};
ghost use Rattle.std.specs.Char.{is_ascii_digit};
ghost use Rattle.std.specs.List.{AllPass};
ghost use Rattle.std.specs.Cmp.Lexicographic.{slice_cmp};
ghost use Rattle.std.specs.Ordering.{nat_cmp, ordering_then};
ghost use Rattle.std.specs.Str.Parse.{digits_value};
ghost use Rattle.ext_vers.specs.Token.{bytes_after};

use std::cmp::Ordering;

// The digits from the first on that is not 0.
fn without_zeros(digits: &[u8]) -> &[u8]
    ensures { result.now ≡ bytes_after (λ b. b == 48) digits.now }
{
    let mut rest = digits;
    while let [b'0', after @ ..] = rest {
        rest = after;
    }
    rest
}

// By how many there are, and of as many by the first that differs.
fn digits_cmp(x: &[u8], y: &[u8]) -> Ordering
    ensures { result ≡ ordering_then (nat_cmp (length x.now) (length y.now)) (slice_cmp nat_cmp x.now y.now) }
{
    x.len().cmp(&y.len()).then_with(|| x.cmp(y))
}

// By value: where no zero leads, more digits are a larger number, and of as many the first that differs decides.
pub(crate) fn number_cmp(a: &[u8], b: &[u8]) -> Ordering
    requires left { AllPass is_ascii_digit a.now }
    requires right { AllPass is_ascii_digit b.now }
    ensures { result ≡ nat_cmp (digits_value 10 a.now) (digits_value 10 b.now) }
{
    digits_cmp(without_zeros(a), without_zeros(b))
}
