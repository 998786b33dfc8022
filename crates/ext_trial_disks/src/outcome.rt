// How a command or a change ended.
use ext_case::{Trouble, append_number, append_str};
use ext_gen::BadStore;
use ext_host::Damage;
use ext_text::Text;
use ext_tree::Stamp;
use std::alloc::Global;

/// How a command ended: the number of its status with what it tells beside it, and what was written.
#[derive(Drop)]
pub struct Outcome {
    /// The status, as a `status` statement states it.
    pub status: Text,
    /// What was written.
    pub reply: Text,
}

impl Outcome {
    /// Whether both ended so, and wrote so.
    pub fn is_same(&self, other: &Outcome) -> bool {
        self.status.bytes() == other.status.bytes() && self.reply.bytes() == other.reply.bytes()
    }

    /// Whether it ended with this status, which tells nothing beside its number.
    pub fn is_status(&self, status: &str) -> bool {
        self.status.bytes() == status.as_bytes()
    }
}

/// Adds why what is in a store folder is no store: ` broken` and the line, or a space and what is damaged.
pub fn append_bad_store(alloc: Global, text: &mut Text, bad: &BadStore) -> Result<(), Trouble> {
    match bad {
        BadStore::Broken { line } => {
            append_str(text, " broken")?;
            append_field(alloc, text, *line)
        }
        BadStore::Damaged(damage) => {
            append_str(text, " ")?;
            append_damage(alloc, text, damage)
        }
    }
}

/// Adds where a damaged file is kept, its stamp, and that of what stands there, or `-`.
pub(crate) fn append_damage(
    alloc: Global,
    text: &mut Text,
    damage: &Damage,
) -> Result<(), Trouble> {
    append_str(text, "damaged")?;
    append_field(alloc, text, u64::from(damage.home.generation))?;
    append_field(alloc, text, u64::from(damage.home.file))?;
    append_stamp(alloc, text, &damage.listed)?;
    match &damage.found {
        Some(stamp) => append_stamp(alloc, text, stamp),
        None => append_str(text, " -"),
    }
}

/// Adds a space, a size, a space and a digest.
pub(crate) fn append_stamp(alloc: Global, text: &mut Text, stamp: &Stamp) -> Result<(), Trouble> {
    append_field(alloc, text, stamp.size)?;
    append_str(text, " ")?;
    text.append(stamp.digest.digits().as_slice())?;
    Ok(())
}

/// Adds a space and a number.
pub fn append_field(alloc: Global, text: &mut Text, number: u64) -> Result<(), Trouble> {
    append_str(text, " ")?;
    append_number(alloc, text, number)
}
