// Files by their stamps and homes, as the lines of an index hold them.
ghost use Rattle.std.specs.Prelude.{◌≡◌, ◌≢◌, ◌≤◌, ◌++◌, [], ◌∷◌, ℕ, List, decimal, MatchOption, OnErr, OnOk};
ghost use Rattle.ext_lines.specs.Prefix.{AppendsPrefix};
ghost use Rattle.ext_tree.specs.Fields.{spaced};
ghost use Rattle.ext_index_lines.specs.Homed.{IsHome, file_digits, home_fields};
ghost use Rattle.ext_index_lines.specs.Homes.{home_of, listed_file, kept_entry};
ghost use Rattle.ext_host.specs.declared.home.Home.{Home};

use ext_host::{Body, Held, Home, LAST_GENERATION, MOST_FILES};
use ext_lines::{OutOfMemory, five_digits, read_five_digits, split_at_byte};
use ext_tree::{Entry, LineContent, Stamp, append_number, append_stamp, split_number, split_stamp};

/// The last number of a file in a generation.
const LAST_FILE: u32 = MOST_FILES - 1;

/// What an index holds of a file.
#[derive(Clone, Copy, PartialEq, Eq)]
pub struct Homed {
    /// How many bytes it has, and their digest.
    pub stamp: Stamp,
    /// Where they stand.
    pub home: Home,
}

impl LineContent for Homed {
    ghost use Rattle.ext_index_lines.specs.Homed.{homed_form};
    ghost use Rattle.ext_index_lines.specs.HomedLaws.{homed_once, homed_lack};

    ghost form = { homed_form };

    fn split_from(text: &[u8]) -> Option<(Homed, &[u8])> {
        let (stamp, rest) = split_stamp(text)?;
        let (home, rest) = split_home(rest)?;
        Some((Homed { stamp, home }, rest))
    }

    fn append_to(&self, text: &mut Vec<u8>) -> Result<(), OutOfMemory> {
        append_stamp(text, &self.stamp)?;
        append_home(text, self.home)
    }

    ghost once = { homed_once };

    ghost lacks = { homed_lack };
}

// What an index holds of a file: where it is not kept, a home in this generation.
pub(crate) fn listed_file(generation: u32, held: &Held) -> Homed
    ensures { result ≡ listed_file generation held.now }
{
    Homed {
        stamp: *held.stamp(),
        home: home_of(generation, held.body()),
    }
}

// Where a body stands, or the first home in this generation.
fn home_of(generation: u32, body: &Body) -> Home
    ensures { result ≡ home_of generation body.now }
{
    match body {
        Body::Kept(home) => *home,
        Body::Here(_) | Body::Depot(_) => Home {
            generation,
            file: 0,
        },
    }
}

/// The entry of a line, as a host has it: its file is kept at the home.
pub fn kept_entry(entry: Entry<Homed>) -> Entry<Held>
    ensures { result ≡ kept_entry entry }
{
    match entry {
        Entry::Dir(attributes) => Entry::Dir(attributes),
        Entry::Opaque(attributes) => Entry::Opaque(attributes),
        Entry::File(attributes, file) => {
            Entry::File(attributes, Held::kept(file.stamp, file.home))
        }
        Entry::Link(owner, target) => Entry::Link(owner, target),
        Entry::Hide => Entry::Hide,
    }
}

// The home whose fields a text begins with, and what follows them; `None` exactly where it begins with those of none.
fn split_home(text: &[u8]) -> Option<(Home, &[u8])>
    ensures { MatchOption result
        ((h : Home) (rest : List ℕ) → IsHome h → text.now ≢ spaced (home_fields h) rest)
        (λ r. IsHome r.0 × (text.now ≡ spaced (home_fields r.0) r.1.now)) }
{
    let (generation, rest) = split_number(text, LAST_GENERATION)?;
    let (file, rest) = split_file(rest)?;
    if generation == 0 {
        return None;
    }
    let home = Home {
        generation: generation as u32,
        file,
    };
    Some((home, rest))
}

// The number of a file in five digits that a text begins with, before a space, and what follows the space.
fn split_file(text: &[u8]) -> Option<(u32, &[u8])>
    ensures { MatchOption result
        ((n : ℕ) (rest : List ℕ) → n ≤ 262143 → text.now ≢ file_digits n ++ 32 ∷ rest)
        (λ r. (r.0 ≤ 262143) × (text.now ≡ file_digits r.0 ++ 32 ∷ r.1.now)) }
{
    let (field, rest) = split_at_byte(text, b' ')?;
    Some((file_of(field)?, rest))
}

// The number of a file that a field writes.
fn file_of(field: &[u8]) -> Option<u32>
    ensures { MatchOption result
        ((n : ℕ) → n ≤ 262143 → field.now ≢ file_digits n)
        (λ n. (n ≤ 262143) × (field.now ≡ file_digits n)) }
{
    let number = read_five_digits(field)?;
    if number <= LAST_FILE {
        Some(number)
    } else {
        None
    }
}

// Adds the fields of a home to a text, a space after each.
fn append_home(text: &mut Vec<u8>, home: Home) -> Result<(), OutOfMemory>
    ensures ok { OnOk result (text.new.items ≡ text.old.items ++ spaced (home_fields home) []) }
    ensures err { OnErr result (AppendsPrefix text.old.items text.new.items (spaced (home_fields home) [])) }
{
    append_number(text, u64::from(home.generation))?;
    append_file(text, home.file)
}

// Adds the digits of a file's number and a space.
fn append_file(text: &mut Vec<u8>, file: u32) -> Result<(), OutOfMemory>
    ensures ok { OnOk result (text.new.items ≡ text.old.items ++ (file_digits file ++ 32 ∷ [])) }
    ensures err { OnErr result (AppendsPrefix text.old.items text.new.items (file_digits file ++ 32 ∷ [])) }
{
    append_bytes(text, &digits_of(file))?;
    append_bytes(text, b" ")
}

// Adds bytes, or nothing.
fn append_bytes(text: &mut Vec<u8>, bytes: &[u8]) -> Result<(), OutOfMemory>
    ensures ok { OnOk result (text.new.items ≡ text.old.items ++ bytes.now) }
    ensures err { OnErr result (AppendsPrefix text.old.items text.new.items bytes.now) }
{
    text.extend_from_slice(bytes)?;
    Ok(())
}

/// The five low digits of a file's number.
pub(crate) fn digits_of(file: u32) -> [u8; 5]
    ensures { result ≡ file_digits file }
{
    five_digits(file % 1_048_576)
}
