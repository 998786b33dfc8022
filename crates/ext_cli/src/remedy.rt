// What was looked for where a command was refused, and what helps, for a person to read.
use crate::services::{no_profile, no_units};
use ext_cmd::{Command, Refusal};
use ext_host::{Host, MOST_HOST_BYTES};
use ext_lines::allocated;
use ext_reasons::escaped;
use ext_text::{Name, OutOfMemory, Path, Which};
use ext_tree::MOST_ENTRIES;
use std::alloc::Global;
use std::{fs, str};

/// That of a refusal of a command. The host is the one that the store had, if any, and the depot a path of the system.
///
/// # Errors
/// `OutOfMemory` alone.
pub(crate) fn remedy_of(
    rt: &HostRuntime,
    command: &Command,
    refusal: &Refusal,
    host: Option<&Host>,
    depot: &str,
) -> Result<String, OutOfMemory> {
    let alloc = rt.alloc();
    match refusal {
        Refusal::Merged => of_merged(alloc, command),
        Refusal::ReadOnly { path } => of_read_only(alloc, path, host),
        Refusal::Limit { which } => of_limit(alloc, *which, host),
        Refusal::NoUnits => no_units(alloc, command, host),
        Refusal::NoProfile => no_profile(alloc, command),
        Refusal::NoTransfers => of_transfers(alloc, command),
        Refusal::NotInDepot { path } => of_depot(rt, depot, path),
        _ => allocated(String::from_str(alloc, remedy_text(refusal))),
    }
}

// The remedies that are the same for each refusal of a kind. Its line has told the details.
fn remedy_text(refusal: &Refusal) -> &'static str {
    match refusal {
        Refusal::NoStore => {
            "STORE has no `current`, so that it keeps no host: `init ARCH SCOPE` makes one"
        }
        Refusal::StoreExists => "STORE keeps a host already: `init` wants a folder without one",
        Refusal::NoHostRelease => {
            "neither /etc/os-release nor /usr/lib/os-release of the host leads to a file, by which images fit or don't: import a tree that has one"
        }
        Refusal::BadHostRelease { .. } => {
            "that line of the host's /etc/os-release, or else /usr/lib/os-release, is no assignment of a release file: import a tree in which it is one"
        }
        Refusal::NoEntry { .. } => "nothing stands there: `tree` writes what does",
        Refusal::NotDirectory { .. } => {
            "what stands there is a file or a link, and links are not followed here: `tree` writes what it is"
        }
        Refusal::NotFile { .. } => {
            "what stands there is a directory or a link, and links are not followed here: `tree` writes what it is"
        }
        Refusal::NoSuchImage => {
            "the path leads to no directory, or none of this name is in /etc/portables, /run/portables, /var/lib/portables, /usr/local/lib/portables and /usr/lib/portables, where an image is a directory: `portable list` writes what is found"
        }
        Refusal::NotPortable => {
            "neither /etc/os-release nor /usr/lib/os-release of the image leads to a file: a portable service has one"
        }
        Refusal::BadRelease { .. } => {
            "that line of the image's /etc/os-release, or else /usr/lib/os-release, is no assignment of a release file: mend it in the image, and import that anew"
        }
        Refusal::PrefixForbidden { .. } => {
            "the image's os-release lists the prefixes that it allows in PORTABLE_PREFIXES=, and this is none of them: give those as PREFIX"
        }
        Refusal::UnitExists { .. } => {
            "a unit of the image, its drop-ins or its link would stand there: `remove` what does, or give other prefixes"
        }
        Refusal::AlreadyAttached => {
            "an image of this name is attached: `portable reattach` puts this one in its place, `portable detach` takes that away"
        }
        Refusal::NotAttached => {
            "no image of this name is attached: `portable list` writes which are, `portable attach` attaches one"
        }
        Refusal::BadTransfer { .. } => {
            "that line of the transfer file is faulty in what the word says, and of line 0 the key is missing: import the file mended"
        }
        Refusal::BadManifest { .. } => {
            "that line of the manifest in DEPOT is no digest, two blanks and a name, or has another digest than a line above it: make it anew by sha256sum, or fetch it anew"
        }
        Refusal::BadTree { .. } => {
            "that line can't stand where it does in a tree text: `tools/pack` and `tools/tree-text` write such texts"
        }
        Refusal::Mismatch { .. } => {
            "the file in DEPOT has another size or digest than is listed of it: it was changed after it was packed, or came damaged; pack or fetch it anew"
        }
        Refusal::NoneNewer => {
            "DEPOT offers no version that is newer than each installed one: `sysupdate list` writes both"
        }
        Refusal::NoSuchVersion { .. } => {
            "it is neither installed nor offered by DEPOT: `sysupdate list` writes the versions that are"
        }
        Refusal::NoRoom { .. } => {
            "InstancesMax= of the transfer file leaves no room beside so many versions that its ProtectVersion= names: raise it, or protect fewer"
        }
        Refusal::Clash { .. } => {
            "it would stand in, at or above another thing that comes, goes or stays, or something stands there already: `remove` that, or mend the paths of the transfer files"
        }
        Refusal::NoExtension { .. } => {
            "the path leads to no directory, or none of this name is in /etc/extensions, /run/extensions and /var/lib/extensions, where an extension is a directory: `sysext list` writes what is found"
        }
        Refusal::Extension { .. } => {
            "the extension's release file has to fit the image's os-release in what the word says: `portable inspect` writes the image's ID and VERSION_ID"
        }
        Refusal::BadFeature { .. } => {
            "that line of the feature file is faulty in what the word says: import the file mended"
        }
        Refusal::NoneOn => {
            "each transfer file belongs to features that are off: `sysupdate features` writes them, and Enabled=yes in its file turns one on"
        }
        Refusal::NoMark { .. } => "no mark has this number: `history` writes those that are there",
        Refusal::Merged
        | Refusal::ReadOnly { .. }
        | Refusal::Limit { .. }
        | Refusal::NoUnits
        | Refusal::NoProfile
        | Refusal::NoTransfers
        | Refusal::NotInDepot { .. } => "",
    }
}

fn of_merged(alloc: Global, command: &Command) -> Result<String, OutOfMemory> {
    let class = match command {
        Command::Confext(_) => "confext",
        _ => "sysext",
    };
    allocated(format!(in alloc;
        "images of {class} are merged already: `{class} refresh` merges anew, `{class} unmerge` takes the view away"
    ))
}

// Which classes have a hierarchy at, above or below a path, and are merged.
fn of_read_only(alloc: Global, path: &Path, host: Option<&Host>) -> Result<String, OutOfMemory> {
    let class = match host {
        Some(host) => merged_class(host, path),
        None => "",
    };
    allocated(format!(in alloc;
        "{class} is merged, and its hierarchies show a view that no command writes into: `{class} unmerge` first, and `{class} merge` again after it"
    ))
}

fn merged_class(host: &Host, path: &Path) -> &'static str {
    if host.sysext.is_some() && is_related(host.sysext_hier.as_slice(), path) {
        "sysext"
    } else {
        "confext"
    }
}

// Whether a path is at, above or below one of these names below the root.
fn is_related(hierarchies: &[Name], path: &Path) -> bool {
    match path.names().split_first() {
        None => true,
        Some((first, _below)) => hierarchies.iter().any(|name| name.bytes() == first),
    }
}

// A limit, with what the host has of it where that is known.
fn of_limit(alloc: Global, which: Which, host: Option<&Host>) -> Result<String, OutOfMemory> {
    match which {
        Which::Entries => {
            let has = host.map_or(0, |host| host.root.entries() + host.lower.entries());
            allocated(format!(in alloc;
                "a host has at most {MOST_ENTRIES} entries, with those under merged hierarchies; this one has {has} now: `remove` what isn't needed, or import less"
            ))
        }
        Which::Bytes => allocated(format!(in alloc;
            "the files of a host have at most {MOST_HOST_BYTES} bytes, with those under merged hierarchies; `check` writes what they have now: `remove` what isn't needed, or import less"
        )),
        _ => allocated(String::from_str(alloc, limit_text(which))),
    }
}

fn limit_text(which: Which) -> &'static str {
    match which {
        Which::Entries | Which::Bytes => "",
        Which::File => "a file of the depot has at most 1073741824 bytes: part it",
        Which::Path => {
            "a path has at most 64 names and 4096 bytes, and so has the text of a link: choose a shorter one"
        }
        Which::Text => "a tree text and a manifest have at most 67108864 bytes: part the tree",
        Which::Index => {
            "the index of a generation has at most 134217728 bytes: `forget` drops marks, `remove` what isn't needed"
        }
        Which::Generations => {
            "a store has at most 4294967295 generations: copy the host into a new one, by tools/unpack and tools/pack"
        }
    }
}

// Where the transfer files of a component are looked for.
fn of_transfers(alloc: Global, command: &Command) -> Result<String, OutOfMemory> {
    let folder = match command {
        Command::Sysupdate {
            component: Some(component),
            ..
        } => str::from_utf8(component.folder().bytes()).unwrap_or(""),
        _ => "sysupdate.d",
    };
    let folder = escaped(alloc, folder)?;
    allocated(format!(in alloc;
        "no *.transfer file is in {folder} in /etc, /run, /usr/local/lib and /usr/lib of the host: import one; `sysupdate components` writes which components have some"
    ))
}

// Whether it is the depot that is missing, a folder in it, or a file there.
fn of_depot(rt: &HostRuntime, depot: &str, path: &Path) -> Result<String, OutOfMemory> {
    let shown = escaped(rt.alloc(), depot)?;
    if fs::metadata(rt, depot).is_err() {
        return allocated(format!(in rt.alloc();
            "DEPOT {shown} is missing, or can't be looked at: is it the right folder?"
        ));
    }
    let path = str::from_utf8(path.text()).unwrap_or("");
    if let Some((folder, _name)) = path.rsplit_once('/')
        && is_missing(rt, depot, folder)?
    {
        let folder = escaped(rt.alloc(), folder)?;
        return allocated(format!(in rt.alloc();
            "DEPOT {shown} has no folder {folder}: `tools/pack` and `tools/fetch` make it with what they put there"
        ));
    }
    let path = escaped(rt.alloc(), path)?;
    allocated(format!(in rt.alloc();
        "DEPOT {shown} has no file {path}: `tools/pack` and `tools/fetch` put files there"
    ))
}

// Whether nothing can be looked at at this place in the depot.
fn is_missing(rt: &HostRuntime, depot: &str, place: &str) -> Result<bool, OutOfMemory> {
    let whole = allocated(format!(in rt.alloc(); "{depot}/{place}"))?;
    Ok(fs::metadata(rt, whole.as_str()).is_err())
}
