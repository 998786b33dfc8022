// What is said to a person where an image of a portable service isn't attached.
use ext_cmd::{AttachOption, AttachWord, AttachWords, Command, PortCommand};
use ext_host::Host;
use ext_lines::allocated;
use ext_reasons::escaped;
use ext_text::{Name, Names, OutOfMemory, Path, PathErr};
use ext_tree::Entry;
use ext_units::{Image, first_part};
use std::alloc::Global;
use std::str;

/// Where a profile is looked for.
pub(crate) fn no_profile(alloc: Global, command: &Command) -> Result<String, OutOfMemory> {
    let profile = match words_of(command) {
        Some(words) => profile_of(words),
        None => b"default",
    };
    let profile = escaped(alloc, str::from_utf8(profile).unwrap_or(""))?;
    allocated(format!(in alloc;
        "{profile}/service.conf leads to no file in /etc/systemd/portable/profile, /run/systemd/portable/profile and /usr/lib/systemd/portable/profile of the host: import the profile there, or give --profile=NAME of one that is there"
    ))
}

fn words_of(command: &Command) -> Option<&AttachWords> {
    match command {
        Command::Portable(PortCommand::Attach(words))
        | Command::Portable(PortCommand::Reattach(words)) => Some(words),
        _ => None,
    }
}

// The profile that is given, else the usual one.
fn profile_of(words: &AttachWords) -> &[u8] {
    for option in words.before.as_slice() {
        if let AttachOption::Profile(name) = option {
            return name.bytes();
        }
    }
    for word in words.after.as_slice() {
        if let AttachWord::Option(AttachOption::Profile(name)) = word {
            return name.bytes();
        }
    }
    b"default"
}

/// Where units are looked for, and by which prefixes; and whether the image has units where none are.
pub(crate) fn no_units(
    alloc: Global,
    command: &Command,
    host: Option<&Host>,
) -> Result<String, OutOfMemory> {
    let mut text = allocated(String::from_str(
        alloc,
        "/etc/systemd/system, /usr/local/lib/systemd/system and /usr/lib/systemd/system of the image have no .service, .socket, .target, .timer or .path file that begins with a prefix and one of - . @",
    ))?;
    let Some(image) = image_of(command) else {
        return Ok(text);
    };
    append_prefixes(alloc, &mut text, command, image)?;
    if let Some(host) = host
        && has_units_in_lib(alloc, host, image)?
    {
        allocated(text.push_str(
            "; it has lib/systemd/system beside usr, where none is looked for: pack it by `tools/pack --usr-merge`",
        ))?;
    }
    Ok(text)
}

fn image_of(command: &Command) -> Option<&Image> {
    match command {
        Command::Portable(PortCommand::Inspect { image, .. }) => Some(image),
        _ => match words_of(command) {
            Some(words) => Some(&words.image),
            None => None,
        },
    }
}

// The prefixes that were given, or else that of the image's name.
fn append_prefixes(
    alloc: Global,
    text: &mut String,
    command: &Command,
    image: &Image,
) -> Result<(), OutOfMemory> {
    let mut before = ": the prefixes are ";
    if let Command::Portable(PortCommand::Inspect { prefixes, .. }) = command {
        for prefix in prefixes.as_slice() {
            append_prefix(alloc, text, before, prefix.bytes())?;
            before = ", ";
        }
    }
    if let Some(words) = words_of(command) {
        for word in words.after.as_slice() {
            if let AttachWord::Prefix(prefix) = word {
                append_prefix(alloc, text, before, prefix.bytes())?;
                before = ", ";
            }
        }
    }
    if before != ", " {
        append_prefix(alloc, text, ": the prefix is ", first_part(image.name()))?;
    }
    Ok(())
}

fn append_prefix(
    alloc: Global,
    text: &mut String,
    before: &str,
    prefix: &[u8],
) -> Result<(), OutOfMemory> {
    let prefix = escaped(alloc, str::from_utf8(prefix).unwrap_or(""))?;
    allocated(text.push_str(before))?;
    allocated(text.push_str(prefix.as_str()))
}

// The folders of images, without the links of the host, which are followed where the image is looked for.
static FOLDERS: [&str; 5] = [
    "etc/portables/",
    "run/portables/",
    "var/lib/portables/",
    "usr/local/lib/portables/",
    "usr/lib/portables/",
];

// Whether an image has a folder of units beside `usr`.
fn has_units_in_lib(alloc: Global, host: &Host, image: &Image) -> Result<bool, OutOfMemory> {
    match image {
        Image::At(path) => stands_in(alloc, host, path.text(), b""),
        Image::Named(name) => {
            for folder in &FOLDERS {
                if stands_in(alloc, host, folder.as_bytes(), name.bytes())? {
                    return Ok(true);
                }
            }
            Ok(false)
        }
    }
}

// Whether `lib/systemd/system` below this place is a directory of the host.
fn stands_in(alloc: Global, host: &Host, folder: &[u8], name: &[u8]) -> Result<bool, OutOfMemory> {
    let mut place = Vec::from_slice(alloc, folder)?;
    place.extend_from_slice(name)?;
    place.extend_from_slice(b"/lib/systemd/system")?;
    match Path::read(alloc, &place) {
        Ok(path) => Ok(host.root.get(&path).is_some_and(Entry::is_directory)),
        Err(PathErr::OutOfMemory) => Err(OutOfMemory),
        Err(_) => Ok(false),
    }
}
