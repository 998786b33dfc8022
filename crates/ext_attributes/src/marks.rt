// What follows the first number of a field: an owner and a capability where they are told, each number after a colon.
ghost use Rattle.std.specs.Prelude.{◌≡◌, ◌≢◌, ◌++◌, ◌∷◌, Some, None, MatchOption, OnErr, OnOk};
ghost use Rattle.std.specs.Fmt.{decimal};
ghost use Rattle.ext_lines.specs.Prefix.{AppendsPrefix};
ghost use Rattle.ext_attributes.specs.declared.capability.Capability.{Capability};
ghost use Rattle.ext_attributes.specs.Attributes.{IsCapability, ReadsMarks, SplitsMarks, SplitsOwner, capability_text, flag, marks_text};

use crate::capability::Capability;
use crate::numbers::{append_id, append_number, is_one, split_number};
use crate::owner::Owner;
use ext_lines::{OutOfMemory, read_decimal, split_at_byte};

/// The highest number of a user or a group.
const MOST_ID: u64 = 4_294_967_294;

// What stands in a field before its first colon, and the owner that is told after it.
pub(crate) fn split_owner(field: &[u8]) -> Option<(&[u8], Owner)>
    ensures { SplitsOwner field.now result }
{
    let (first, owner, capability) = split_marks(field)?;
    match capability {
        None => Some((first, owner)),
        Some(_) => None,
    }
}

// What stands in a field before its first colon, and the owner and the capability that are told after it.
pub(crate) fn split_marks(field: &[u8]) -> Option<(&[u8], Owner, Option<Capability>)>
    ensures { SplitsMarks field.now result }
{
    match split_at_byte(field, b':') {
        None => Some((field, Owner::root(), None)),
        Some((first, rest)) => {
            let (owner, capability) = marks_of(rest)?;
            Some((first, owner, capability))
        }
    }
}

// The owner and the capability that stand after a colon.
fn marks_of(text: &[u8]) -> Option<(Owner, Option<Capability>)>
    ensures { ReadsMarks text.now result }
{
    let (user, rest) = split_number(text, MOST_ID)?;
    match split_at_byte(rest, b':') {
        None => {
            let group = read_decimal(rest, MOST_ID)?;
            let owner = Owner {
                user: user as u32,
                group: group as u32,
            };
            if owner.is_root() {
                return None;
            }
            Some((owner, None))
        }
        Some((group, rest)) => {
            let group = read_decimal(group, MOST_ID)?;
            let capability = capability_of(rest)?;
            let owner = Owner {
                user: user as u32,
                group: group as u32,
            };
            Some((owner, Some(capability)))
        }
    }
}

// The capability that a text writes.
fn capability_of(text: &[u8]) -> Option<Capability>
    ensures { MatchOption result
        ((c : Capability) → IsCapability c → text.now ≢ capability_text c)
        (λ c. IsCapability c × (text.now ≡ capability_text c)) }
{
    let (effective, rest) = split_number(text, 1)?;
    let (permitted, rest) = split_number(rest, u64::MAX)?;
    let (inheritable, rest) = split_number(rest, u64::MAX)?;
    let root = read_decimal(rest, MOST_ID)?;
    Some(Capability {
        effective: is_one(effective),
        permitted,
        inheritable,
        root: root as u32,
    })
}

// Adds what is to be told of an owner and a capability.
pub(crate) fn append_marks(
    text: &mut Vec<u8>,
    owner: Owner,
    capability: &Option<Capability>,
) -> Result<(), OutOfMemory>
    ensures ok { OnOk result (text.new.items ≡ text.old.items ++ marks_text owner capability.now) }
    ensures err { OnErr result (AppendsPrefix text.old.items text.new.items (marks_text owner capability.now)) }
{
    match capability {
        None => append_owner(text, owner),
        Some(capability) => append_both(text, owner, capability),
    }
}

/// Adds a colon, the user, a colon and the group, where the owner is another than root.
///
/// # Errors
/// `OutOfMemory`. A prefix of these bytes may have been added.
pub fn append_owner(text: &mut Vec<u8>, owner: Owner) -> Result<(), OutOfMemory>
    ensures ok { OnOk result (text.new.items ≡ text.old.items ++ marks_text owner None) }
    ensures err { OnErr result (AppendsPrefix text.old.items text.new.items (marks_text owner None)) }
{
    if owner.is_root() {
        return Ok(());
    }
    append_id(text, owner.user)?;
    append_id(text, owner.group)
}

// Adds an owner and a capability.
fn append_both(text: &mut Vec<u8>, owner: Owner, capability: &Capability) -> Result<(), OutOfMemory>
    ensures ok { OnOk result (text.new.items ≡ text.old.items ++ marks_text owner (Some capability.now)) }
    ensures err { OnErr result (AppendsPrefix text.old.items text.new.items (marks_text owner (Some capability.now))) }
{
    append_id(text, owner.user)?;
    append_id(text, owner.group)?;
    append_capability(text, capability)
}

// Adds a colon and a capability.
fn append_capability(text: &mut Vec<u8>, capability: &Capability) -> Result<(), OutOfMemory>
    ensures ok { OnOk result (text.new.items ≡ text.old.items ++ 58 ∷ capability_text capability.now) }
    ensures err { OnErr result (AppendsPrefix text.old.items text.new.items (58 ∷ capability_text capability.now)) }
{
    append_flag(text, capability.effective)?;
    append_number(text, capability.permitted)?;
    append_number(text, capability.inheritable)?;
    append_id(text, capability.root)
}

// Adds a colon and a flag.
fn append_flag(text: &mut Vec<u8>, set: bool) -> Result<(), OutOfMemory>
    ensures ok { OnOk result (text.new.items ≡ text.old.items ++ 58 ∷ decimal (flag set)) }
    ensures err { OnErr result (AppendsPrefix text.old.items text.new.items (58 ∷ decimal (flag set))) }
{
    if set {
        append_number(text, 1)
    } else {
        append_number(text, 0)
    }
}
