// The names in a folder of a disk in memory: one pass over its entries.
ghost use Rattle.std.specs.Prelude.{◌≡◌, ℕ, ◌∷◌, ◌++◌, [], List, IfOk, IfSome, is_some};
ghost use Rattle.std.specs.List.{AllByRecursion, list_any};
ghost use Rattle.std.specs.List.Sorted.{IsStrictlySortedBy};
ghost use Rattle.std.specs.Option.{option_copied};
ghost use Rattle.std.specs.Ordering.{eq_by_cmp};
ghost use Rattle.ext_text.specs.Name.{IsName, bytes_cmp};
ghost use Rattle.ext_text.specs.Path.{IsPath};
ghost use Rattle.ext_disk.specs.DiskEntries.{place_at, disk_entry_name};

use crate::disk_entries::{DiskEntries, name_in};
use crate::disk_entry::{Content, DiskEntry};
use ext_text::{Name, Names, OutOfMemory, Path};
use std::alloc::Global;

/// The names that stand directly in the folder, in byte order.
pub(crate) fn names_in(
    alloc: Global,
    disk_entries: &DiskEntries,
    dir: &Path,
) -> Result<Names, OutOfMemory>
    ensures sorted { IfOk result (λ names. IsStrictlySortedBy bytes_cmp names) }
    ensures paths { IfOk result (λ names. AllByRecursion (λ n. IsPath (dir.now ++ n ∷ [])) names) }
    ensures has { IfOk result (λ names. (n : List ℕ) → list_any (eq_by_cmp bytes_cmp n) names
        ≡ is_some (place_at disk_entries.now (dir.now ++ n ∷ [])).node) }
{
    let mut names = Names::new(alloc);
    'disk_entries: for (path, disk_entry) in disk_entries.iter() {
        if let Some(name) = name_there(dir, path, disk_entry) {
            names.push(Name::of_bytes(alloc, name)?)?;
        }
    }
    Ok(names)
}

// The name of a path in the folder, where something stands there.
fn name_there<'a>(dir: &Path, path: &'a Path, disk_entry: &DiskEntry) -> Option<&'a [u8]>
    ensures name { option_copied result ≡ disk_entry_name dir.now path.now disk_entry.now }
    ensures path { IfSome result (λ name. IsPath (dir.now ++ name.now ∷ [])) }
    ensures named { IfSome result (λ name. IsName name.now) }
{
    match disk_entry.content {
        Content::Absent => None,
        _ => name_in(dir, path),
    }
}
