// Why what stands in a store folder is no store.
use crate::escaping::escaped;
use ext_host::{Damage, Home, MOST_FILES};
use ext_lines::allocated;
use ext_store_files::home_path;
use ext_text::{OutOfMemory, Path};
use ext_tree::Stamp;
use std::alloc::Global;
use std::str;

/// The store folder at this path of the system is none, since this line of the index is faulty; 0 is `current`.
///
/// # Errors
/// `OutOfMemory` alone.
pub fn reason_of_broken(alloc: Global, store: &str, line: u64) -> Result<String, OutOfMemory> {
    let store = escaped(alloc, store)?;
    if line == 0 {
        let fault = allocated(format!(in alloc; "{store}/current names no generation"))?;
        return with_way_out(alloc, fault);
    }
    let fault = allocated(format!(in alloc;
        "line {line} of the index that {store}/current names is faulty"
    ))?;
    with_way_out(alloc, fault)
}

/// A file that is kept in the store folder at this path of the system is another than the one that is listed.
///
/// # Errors
/// `OutOfMemory` alone.
pub fn reason_of_damage(
    alloc: Global,
    store: &str,
    damage: &Damage,
) -> Result<String, OutOfMemory> {
    let store = escaped(alloc, store)?;
    let place = place_of(alloc, &damage.home)?;
    let listed = stamp_text(alloc, &damage.listed)?;
    let fault = match &damage.found {
        Some(found) => {
            let found = stamp_text(alloc, found)?;
            allocated(format!(in alloc;
                "{store}/{place} is listed with {listed}, and has {found}"
            ))?
        }
        None => allocated(format!(in alloc;
            "{store}/{place} is listed with {listed}, and no file of that size stands there"
        ))?,
    };
    with_way_out(alloc, fault)
}

// A fault, and where it is told what to do.
fn with_way_out(alloc: Global, fault: String) -> Result<String, OutOfMemory> {
    allocated(format!(in alloc; "{fault}; see \"When a store is damaged\" in README"))
}

// Where in the store folder a file has its home.
fn place_of(alloc: Global, home: &Home) -> Result<String, OutOfMemory> {
    if home.file >= MOST_FILES {
        return allocated(format!(in alloc; "g-{}", home.generation));
    }
    path_text(alloc, &home_path(alloc, home.generation, home.file)?)
}

fn path_text(alloc: Global, path: &Path) -> Result<String, OutOfMemory> {
    let mut bytes = Vec::new(alloc);
    path.append_to(&mut bytes)?;
    allocated(String::from_str(alloc, str::from_utf8(&bytes).unwrap_or("")))
}

fn stamp_text(alloc: Global, stamp: &Stamp) -> Result<String, OutOfMemory> {
    let digits = stamp.digest.digits();
    let digits = str::from_utf8(&digits).unwrap_or("");
    allocated(format!(in alloc; "{} bytes and the digest {digits}", stamp.size))
}
