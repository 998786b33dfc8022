// What all names of a manifest begin with.
ghost use Rattle.ext_lines.specs.Prefix.{IsPrefix};
ghost use Rattle.ext_sums.specs.Merging.{BeginWith};

use crate::merging::Numbered;
use ext_lines::begins_with;

// A prefix of all names: the longest, which no contract asks for, since it only saves time.
pub(crate) fn common_prefix(lines: &[Numbered]) -> &[u8]
    ensures { BeginWith result.now lines.now }
{
    let Some(first) = lines.first() else {
        return &[];
    };
    let mut prefix = first.listed.name.bytes();
    for each in lines {
        prefix = prefix_of_both(prefix, each.listed.name.bytes());
    }
    prefix
}

// A prefix of both texts. Mostly it is the whole first one.
fn prefix_of_both<'a>(a: &'a [u8], b: &[u8]) -> &'a [u8]
    ensures first { IsPrefix result.now a.now }
    ensures second { IsPrefix result.now b.now }
{
    if begins_with(b, a) {
        a
    } else {
        equal_first_bytes(a, b)
    }
}

// The first bytes of a text that are those of another one.
fn equal_first_bytes<'a>(a: &'a [u8], b: &[u8]) -> &'a [u8]
    ensures first { IsPrefix result.now a.now }
    ensures second { IsPrefix result.now b.now }
{
    let mut count = 0;
    while count < a.len() && count < b.len() && a[count] == b[count] {
        count += 1;
    }
    a.split_at(count).0
}
