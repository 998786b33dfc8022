// How two entries at one path differ.
ghost use Rattle.std.specs.Prelude.{◌≡◌, ◌↔◌, IsTrue};
ghost use Rattle.std.specs.Option.{option_copied, option_map};
ghost use Rattle.ext_changes.specs.Changes.{DiffersBy, IsChanged, stamped};

use crate::change::ChangeKind;
use crate::stamped::Stamped;
use ext_text::Text;
use ext_tree::{Entry, Stamp};

// How what the earlier and the later tree have at one path differs; `None` exactly where it doesn't.
pub(crate) fn kind_of<A: Stamped, B: Stamped>(
    earlier: Option<&Entry<A>>,
    later: Option<&Entry<B>>,
) -> Option<ChangeKind>
    ensures { DiffersBy (option_map (stamped A.stamp) (option_copied earlier.entry))
        (option_map (stamped B.stamp) (option_copied later.entry)) result }
{
    match (earlier, later) {
        (None, None) => None,
        (None, Some(_)) => Some(ChangeKind::Added),
        (Some(_), None) => Some(ChangeKind::Removed),
        (Some(old), Some(new)) => kind_of_both(old, new),
    }
}

// Whether the one entry was changed into the other.
pub(crate) fn kind_of_both<A: Stamped, B: Stamped>(
    old: &Entry<A>,
    new: &Entry<B>,
) -> Option<ChangeKind>
    ensures { IsChanged (stamped A.stamp old.now) (stamped B.stamp new.now) result }
{
    if are_same(old, new) {
        None
    } else {
        Some(ChangeKind::Changed)
    }
}

// Whether two entries are equal, but for what they tell of a file besides its stamp.
fn are_same<A: Stamped, B: Stamped>(old: &Entry<A>, new: &Entry<B>) -> bool
    ensures { IsTrue result ↔ (stamped A.stamp old.now ≡ stamped B.stamp new.now) }
{
    match (old, new) {
        (Entry::Dir(attributes), Entry::Dir(other)) => attributes.equals(other),
        (Entry::Opaque(attributes), Entry::Opaque(other)) => attributes.equals(other),
        (Entry::File(attributes, content), Entry::File(other, now)) => {
            attributes.equals(other) && are_same_stamps(content.stamp(), now.stamp())
        }
        (Entry::Link(owner, target), Entry::Link(other, new)) => {
            owner.equals(*other) && are_same_texts(target, new)
        }
        (Entry::Hide, Entry::Hide) => true,
        _ => false,
    }
}

// Whether two stamps are equal.
fn are_same_stamps(stamp: &Stamp, other: &Stamp) -> bool
    ensures { IsTrue result ↔ (stamp.now ≡ other.now) }
{
    stamp == other
}

// Whether two texts are equal.
fn are_same_texts(text: &Text, other: &Text) -> bool
    ensures { IsTrue result ↔ (text.now ≡ other.now) }
{
    text.bytes() == other.bytes()
}
