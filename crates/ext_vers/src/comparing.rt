ghost use Rattle.std.specs.Prelude.{◌≡◌};
ghost use Rattle.ext_vers.specs.Version.{order_of, version_cmp};

use crate::token::{next_token, token_cmp};
use std::cmp::Ordering;

/// The order of two versions, by the first token in which they differ, from lowest to highest:
///
/// | rank | token |
/// |---|---|
/// | 0 | `~` |
/// | 1 | the end of the text |
/// | 2 | `-` |
/// | 3 | `^` |
/// | 4 | `.` |
/// | 5 | a run of ASCII letters, two of them byte by byte, a prefix first |
/// | 6 | a run of ASCII digits, two of them by value, leading zeros ignored, of any length |
///
/// Every other byte only separates two runs. Texts may be equal that differ in their bytes, as `1` and `01`.
pub fn compare(a: &[u8], b: &[u8]) -> Ordering
    ensures { result ≡ version_cmp a.now b.now }
{
    let mut left = a;
    let mut right = b;
    'tokens: loop {
        let (x, after_x) = next_token(left);
        let (y, after_y) = next_token(right);
        let order = token_cmp(x, y);
        if order.is_ne() || x.is_end() {
            return order;
        }
        left = after_x;
        right = after_y;
    }
}

/// The order of two versions, equal ones by their bytes: equal exactly where the texts are the same.
pub fn order(a: &[u8], b: &[u8]) -> Ordering
    ensures { result ≡ order_of a.now b.now }
{
    compare(a, b).then_with(|| a.cmp(b))
}
