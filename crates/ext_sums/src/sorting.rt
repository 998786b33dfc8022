// Lines put in the order of their names.
ghost use Rattle.std.specs.Prelude.{◌≡◌, ◌<◌, drop, IfOk};
ghost use Rattle.std.specs.List.{All};
ghost use Rattle.std.specs.Ordering.{nat_cmp, ordering_then};
ghost use Rattle.ext_lines.specs.ByteOrder.{bytes_cmp};
ghost use Rattle.ext_sums.specs.Sorting.{AreBytes, IsSorting, HasBytes, byte_at, key_of, with_keys};

use crate::merging::Numbered;
use crate::prefix::common_prefix;
use ext_lines::{OutOfMemory, allocated};
use std::cmp::Ordering;

// The lines in the order of their names, those of one name in their own order. Lines that are in order take one look. Many
// names of a manifest begin alike, so what all begin with is read once, and not in each comparison. The eight bytes after
// it are a number that stands in the line itself: mostly it decides, and the names, which lie elsewhere, aren't read.
pub(crate) fn sorted(lines: Vec<Numbered>) -> Result<Vec<Numbered>, OutOfMemory>
    ensures { IfOk result (λ sorted. IsSorting lines.items sorted.items) }
{
    let count = common_prefix(lines.as_slice()).len();
    let mut sorted = lines;
    set_keys(sorted.as_mut_slice(), count);
    allocated(sorted.sort_by(|a, b| by_key(a, b, count)))?;
    Ok(sorted)
}

// Gives each line the key of what follows so many first bytes of its name.
fn set_keys(lines: &mut [Numbered], count: usize)
    ensures keys { lines.new ≡ with_keys count lines.old }
    ensures bytes { All (HasBytes count) lines.old }
{
    for each in lines.iter_mut() {
        each.key = key_of(rest_of(each, count));
    }
}

// The order of two lines by their keys, and by what follows so many first bytes of their names where the keys are equal.
fn by_key(a: &Numbered, b: &Numbered, count: usize) -> Ordering
    ensures { result ≡ ordering_then (nat_cmp a.now.key b.now.key)
        (bytes_cmp (drop count a.now.listed.name) (drop count b.now.listed.name)) }
{
    match a.key.cmp(&b.key) {
        Ordering::Equal => rest_of(a, count).cmp(rest_of(b, count)),
        order => order,
    }
}

// What follows so many first bytes of a name; nothing, where it has no more.
fn rest_of(line: &Numbered, count: usize) -> &[u8]
    ensures { result.now ≡ drop count line.now.listed.name }
{
    line.listed.name.bytes().get(count..).unwrap_or(&[])
}

// The first eight bytes as one number, the first byte the highest, with zeros where a text ends before. Where the numbers
// of two texts differ, they are ordered as the texts are.
fn key_of(bytes: &[u8]) -> u64
    ensures key { result ≡ key_of 8 bytes.now }
    ensures bytes { AreBytes bytes.now }
{
    look_at(bytes);
    u64::from_be_bytes([
        byte_at(bytes, 0),
        byte_at(bytes, 1),
        byte_at(bytes, 2),
        byte_at(bytes, 3),
        byte_at(bytes, 4),
        byte_at(bytes, 5),
        byte_at(bytes, 6),
        byte_at(bytes, 7),
    ])
}

// The byte at a place; 0 after the end.
fn byte_at(bytes: &[u8], at: usize) -> u8
    ensures { result ≡ byte_at bytes.now at }
{
    match bytes.get(at) {
        Some(byte) => *byte,
        None => 0,
    }
}

// Says of bytes what a proof knows of a byte that it has seen.
fn look_at(bytes: &[u8])
    ensures { AreBytes bytes.now }
{
    let _count = bytes.len();
}
