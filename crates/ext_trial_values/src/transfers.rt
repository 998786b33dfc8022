// Words about patterns and transfer files.
use crate::asked::{Asked, Row, Said, Stop, append, name};
use crate::files::release_at;
use ext_cmd::transfer_fault_word;
use ext_pattern::{Pattern, PatternErr, read_pattern};
use ext_release::Release;
use ext_text::{Arch, Digest, Name, Text};
use ext_transfer::{Location, ResourceType, Transfer, TransferErr, read_transfer};
use ext_vers::is_version;

pub(crate) const WORDS: [Row; 5] = [
    ("pattern", "read", 1),
    ("pattern", "match", 2),
    ("pattern", "fill", 3),
    ("transfer", "read", 1),
    ("transfer", "on", 3),
];

/// What the word of a number writes.
pub(crate) fn reply(asked: Asked, number: usize) -> Said {
    match number {
        0..=20 => of_pattern(asked, number, &pattern(asked)?),
        30 => told(asked, &transfer(asked, asked.bytes(0), None, Arch::X86_64)?),
        _ => on_host(asked),
    }
}

fn pattern(asked: Asked) -> Result<Pattern, Stop> {
    match read_pattern(asked.alloc, asked.bytes(0)) {
        Ok(pattern) => Ok(pattern),
        Err(PatternErr::OutOfMemory) => Err(Stop::OutOfMemory),
        Err(PatternErr::Unknown { byte }) => Err(Stop::Fault("unknown ", u64::from(byte), "")),
        Err(PatternErr::Adjacent) => Err(Stop::Says("adjacent")),
        Err(PatternErr::Repeated) => Err(Stop::Says("repeated")),
        Err(PatternErr::BadByte) => Err(Stop::Says("bad-byte")),
        Err(PatternErr::NoVersion) => Err(Stop::Says("no-version")),
        Err(PatternErr::TooLong) => Err(Stop::Says("too-long")),
    }
}

fn of_pattern(asked: Asked, number: usize, pattern: &Pattern) -> Said {
    let second = asked.bytes(1);
    match number {
        0 => asked.line(&[b"sound"]),
        10 => match pattern.matches(second) {
            None => Err(Stop::Says("none")),
            Some(caught) => {
                let version = caught.version_of(second);
                match caught.digest {
                    None => asked.line(&[b"version ", version]),
                    Some(digest) => {
                        asked.line(&[b"version ", version, b"\ndigest ", &digest.digits()])
                    }
                }
            }
        },
        _ => match Digest::read(asked.bytes(2)) {
            Some(digest) if is_version(second) => {
                asked.line(&[pattern.fill(second, &digest)?.bytes()])
            }
            _ => Err(Stop::Bad("a version and a digest are wanted")),
        },
    }
}

// The transfer of a file on a host.
fn transfer(
    asked: Asked,
    bytes: &[u8],
    host: Option<&Release>,
    arch: Arch,
) -> Result<Transfer, Stop> {
    let file = name(Name::read(asked.alloc, b"a"))?;
    match read_transfer(asked.alloc, &file, bytes, host, arch) {
        Ok(transfer) => Ok(transfer),
        Err(TransferErr::OutOfMemory) => Err(Stop::OutOfMemory),
        Err(TransferErr::BadTransfer { line, why }) => {
            Err(Stop::Fault("fault ", line, transfer_fault_word(why)))
        }
    }
}

fn on_host(asked: Asked) -> Said {
    let release = release_at(asked, 0)?;
    match Arch::read(asked.bytes(1)) {
        None => Err(Stop::Bad("not an architecture")),
        Some(arch) => told(
            asked,
            &transfer(asked, asked.bytes(2), Some(&release), arch)?,
        ),
    }
}

// A line of each thing that a transfer says.
fn told(asked: Asked, transfer: &Transfer) -> Said {
    let mut text = asked.line(&[match transfer.resources {
        ResourceType::File => b"files",
        ResourceType::Directory => b"directories",
    }])?;
    append_location(&mut text, b"source /", &transfer.source)?;
    append_location(&mut text, b"target /", &transfer.target)?;
    append_numbers(asked, &mut text, transfer)?;
    if let Some(path) = &transfer.link {
        append(&mut text, &[b"link /", path.text()])?;
    }
    if let Some(version) = &transfer.min {
        append(&mut text, &[b"min ", version.bytes()])?;
    }
    append_list(&mut text, b"protect ", transfer.protect.as_slice())?;
    append_list(&mut text, b"feature ", transfer.features.as_slice())?;
    append_list(&mut text, b"requisite ", transfer.requisite.as_slice())?;
    Ok(text)
}

// A line of a path, and one of the name that each pattern makes of the version `V` and the digest of nothing.
fn append_location(text: &mut Text, side: &[u8], location: &Location) -> Result<(), Stop> {
    append(text, &[side, location.path.text()])?;
    for pattern in location.patterns.as_slice() {
        let name = pattern.fill(b"V", &Digest::of(b""))?;
        append(text, &[b"pattern ", name.bytes()])?;
    }
    Ok(())
}

fn append_numbers(asked: Asked, text: &mut Text, transfer: &Transfer) -> Result<(), Stop> {
    let mode = asked.octal(u64::from(transfer.mode.bits()))?;
    append(text, &[b"mode ", mode.as_slice()])?;
    let instances = asked.digits(u64::from(transfer.instances))?;
    append(text, &[b"instances ", instances.as_slice()])
}

fn append_list(text: &mut Text, word: &[u8], list: &[Text]) -> Result<(), Stop> {
    for each in list {
        append(text, &[word, each.bytes()])?;
    }
    Ok(())
}
