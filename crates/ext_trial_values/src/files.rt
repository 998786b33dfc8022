// Words about release files, verdicts on extensions, unit files and manifests.
use crate::asked::{Asked, Row, Said, Stop, append};
use ext_ini::{Ini, IniErr, IniFault, Section, Setting, read_ini};
use ext_match::{Verdict, judge};
use ext_release::{Release, ReleaseErr, read_release};
use ext_sums::{Sums, SumsErr, read_sums};
use ext_text::{Arch, Class, Extension, Scope, Text};

pub(crate) const WORDS: [Row; 8] = [
    ("release", "read", 1),
    ("release", "value words", 2),
    ("release", "has", 3),
    ("verdict", "of forced", 5),
    ("ini", "read count", 1),
    ("ini", "last all", 3),
    ("sums", "read count", 1),
    ("sums", "digest", 2),
];

/// What the word of a number writes.
pub(crate) fn reply(asked: Asked, number: usize) -> Said {
    match number {
        0..=20 => of_release(asked, number, &release_at(asked, 0)?),
        30 | 31 => verdict(asked, number == 31),
        40..=51 => of_unit_file(asked, number, &unit_file(asked)?),
        _ => of_manifest(asked, number, &manifest(asked)?),
    }
}

/// An argument as a release file.
pub(crate) fn release_at(asked: Asked, index: usize) -> Result<Release, Stop> {
    match read_release(asked.alloc, asked.bytes(index)) {
        Ok(release) => Ok(release),
        Err(ReleaseErr::BadRelease { line }) => Err(Stop::Fault("fault ", line, "")),
        Err(ReleaseErr::OutOfMemory) => Err(Stop::OutOfMemory),
    }
}

fn of_release(asked: Asked, number: usize, release: &Release) -> Said {
    let (key, word) = (asked.str(1)?, asked.str(2)?);
    match number {
        0 => asked.line(&[b"sound"]),
        10 => asked.line_or_none(release.value(key).map(|value| value.as_bytes())),
        11 => {
            let mut text = Text::new(asked.alloc);
            for word in release.words(key)?.as_slice() {
                append(&mut text, &[word.bytes()])?;
            }
            Ok(text)
        }
        _ => asked.yes_or_no(release.has_word(key, word)),
    }
}

// The verdict on an extension of a class, a scope and an architecture, over a host.
fn verdict(asked: Asked, force: bool) -> Said {
    let host = release_at(asked, 3)?;
    let extension = release_at(asked, 4)?;
    let scope = Scope::read(asked.bytes(1));
    let arch = Arch::read(asked.bytes(2));
    match (class_of(asked.bytes(0)), scope, arch) {
        (Some(class), Some(scope), Some(arch)) => {
            let verdict = judge(&host, &extension, class, scope, arch, force);
            asked.line(&[verdict_word(verdict)])
        }
        _ => Err(Stop::Bad("no such class, scope or architecture")),
    }
}

fn class_of(name: &[u8]) -> Option<Extension> {
    match Class::read(name) {
        Some(Class::Sysext) => Some(Extension::Sysext),
        Some(Class::Confext) => Some(Extension::Confext),
        Some(Class::Portable) | None => None,
    }
}

// The word of a verdict, as the lists of images write it.
fn verdict_word(verdict: Verdict) -> &'static [u8] {
    match verdict {
        Verdict::Fits => b"fits",
        Verdict::Scope => b"scope",
        Verdict::Architecture => b"architecture",
        Verdict::NoId => b"no-id",
        Verdict::Id => b"id",
        Verdict::Level => b"level",
        Verdict::Version => b"version",
    }
}

fn unit_file(asked: Asked) -> Result<Ini, Stop> {
    match read_ini(asked.alloc, asked.bytes(0)) {
        Ok(ini) => Ok(ini),
        Err(IniErr::BadIni { line, why }) => Err(Stop::Fault("fault ", line, fault_word(why))),
        Err(IniErr::OutOfMemory) => Err(Stop::OutOfMemory),
    }
}

fn fault_word(why: IniFault) -> &'static str {
    match why {
        IniFault::NoSection => "no-section",
        IniFault::NoEquals => "no-equals",
        IniFault::BadSection => "bad-section",
        IniFault::NotText => "not-text",
    }
}

fn of_unit_file(asked: Asked, number: usize, ini: &Ini) -> Said {
    let (section, key) = (asked.str(1)?, asked.str(2)?);
    let mut text = Text::new(asked.alloc);
    match number {
        40 => append_sections(asked, &mut text, ini.sections())?,
        41 => append_counts(asked, &mut text, ini.sections())?,
        50 => match ini.last(section, key) {
            Some(setting) => append_setting(asked, &mut text, setting, &[])?,
            None => return Err(Stop::Says("none")),
        },
        _ => {
            for setting in ini.all(section, key)?.as_slice() {
                append_setting(asked, &mut text, setting, &[])?;
            }
        }
    }
    Ok(text)
}

fn append_sections(asked: Asked, text: &mut Text, sections: &[Section]) -> Result<(), Stop> {
    for section in sections {
        append(text, &[b"[", section.name.bytes(), b"]"])?;
        for each in section.assignments.as_slice() {
            append_setting(asked, text, &each.setting, &[b" ", each.key.bytes()])?;
        }
    }
    Ok(())
}

// A line of the number of a setting's line, what stands before the `=`, and the value.
fn append_setting(
    asked: Asked,
    text: &mut Text,
    setting: &Setting,
    key: &[&[u8]],
) -> Result<(), Stop> {
    text.append(asked.digits(setting.line)?.as_slice())?;
    for part in key {
        text.append(part)?;
    }
    append(text, &[b"=", setting.value.bytes()])
}

// How many sections and assignments there are. A large file can be measured by it.
fn append_counts(asked: Asked, text: &mut Text, sections: &[Section]) -> Result<(), Stop> {
    let mut count: u64 = 0;
    for section in sections {
        count = count.saturating_add(section.assignments.len() as u64);
    }
    let many = asked.digits(sections.len() as u64)?;
    let count = asked.digits(count)?;
    append(
        text,
        &[
            b"sections ",
            many.as_slice(),
            b" assignments ",
            count.as_slice(),
        ],
    )
}

fn manifest(asked: Asked) -> Result<Sums, Stop> {
    match read_sums(asked.alloc, asked.bytes(0)) {
        Ok(sums) => Ok(sums),
        Err(SumsErr::BadManifest { line }) => Err(Stop::Fault("fault ", line, "")),
        Err(SumsErr::OutOfMemory) => Err(Stop::OutOfMemory),
    }
}

fn of_manifest(asked: Asked, number: usize, sums: &Sums) -> Said {
    match number {
        60 => {
            let mut text = Text::new(asked.alloc);
            for each in sums.listed() {
                append(&mut text, &[&each.digest.digits(), b" ", each.name.bytes()])?;
            }
            Ok(text)
        }
        61 => asked.count("", sums.len()),
        _ => match sums.digest_of(asked.bytes(1)) {
            Some(digest) => asked.line(&[&digest.digits()]),
            None => Err(Stop::Says("none")),
        },
    }
}
