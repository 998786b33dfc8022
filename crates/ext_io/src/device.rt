// What devices share: which of their calls fail, how they count, and how bytes are copied into a buffer.
ghost use Rattle.std.specs.Prelude.{◌≡◌, ◌<◌, ◌≤◌, ◌↔◌, ◌++◌, Contains, IsTrue, min, length, take, drop};
ghost use Rattle.ext_io.specs.Device.{IsReadAt, next_count};

use ext_text::ListOf;

/// Numbers of calls of a device, counted from 1: the calls that fail.
pub type Calls = ListOf<u64>;

/// Whether a call of this number is in the list of those that fail.
pub fn is_listed(fails: &Calls, call: u64) -> bool
    ensures { IsTrue result ↔ Contains fails.now call }
{
    fails.as_slice().contains(&call)
}

/// The count after one more. A count stands still at 18,446,744,073,709,551,615.
pub fn next_count(count: u64) -> u64
    ensures { result ≡ next_count count }
{
    count.saturating_add(1)
}

/// Copies bytes of a file, from the byte `at` on, to the beginning of the buffer, as many as there are and have room, and
/// gives how many: none exactly at or past the file's end.
pub fn read_at(bytes: &[u8], at: u64, buf: &mut [u8]) -> usize
    requires { 0 < length buf.old }
    ensures within { result ≤ length buf.new }
    ensures read { IsReadAt bytes.now at buf.new result }
{
    let start = (at as usize).min(bytes.len());
    let room = buf.len();
    copy_prefix(&bytes[start..], buf, room)
}

/// Copies a prefix of the bytes to the beginning of the buffer, at most so many, and gives how many.
pub(crate) fn copy_prefix(bytes: &[u8], buf: &mut [u8], most: usize) -> usize
    ensures count { result ≡ min (min most (length buf.old)) (length bytes.now) }
    ensures within { result ≤ length buf.new }
    ensures moved { bytes.now ≡ take result buf.new ++ drop result bytes.now }
{
    let count = most.min(buf.len()).min(bytes.len());
    buf[..count].copy_from_slice(&bytes[..count]);
    count
}
