//! The program `hostext_publish STORE OUT ABS RES NAME`: a thin shell over `ext_publish::publish`.
//!
//! It hands the words after OUT, standard output, and the folders STORE and OUT to `publish`, and ends with the number of the
//! status. Where that is 2 or more it prints a line on standard error, and the reason on a second one where somebody reads it. Both
//! folders must exist, and neither may stand in the other.
//!
//! STORE is locked together with others that read it, and OUT for this run alone: from the first look at each, OUT to the end, and
//! STORE until the reply is written. What is made in OUT has the modes that the umask leaves, so that a web server can read it. Where
//! files were published that only their owner may read on the host, a line on standard error tells how many.
#![tactic(auto)]

mod ending;
mod folders;
mod help;
mod index_read;
mod reasons;
mod watched;

use ending::{report, tell_owners};
use ext_folder::{FolderDisk, Hold, LockedDisk, Nesting, ReleasingSink};
use ext_io::StdSink;
use ext_publish::{PubStatus, publish};
use ext_published::{AskErr, Asked, read_words};
use ext_reasons::{Ending, WaitingLine, faulty, lock};
use ext_text::{OutOfMemory, Text, Words};
use folders::nesting_between;
use help::{HELP, VERSION};
use std::process::ExitCode;
use std::{env, io};
use watched::Watched;

fn main(rt: HostRuntime) -> ExitCode {
    let ending = outcome(&rt);
    report(&rt, &ending);
    ExitCode::from(ending.status().number())
}

// How the run ends. An argument that is not UTF-8 is a fault of the command line.
fn outcome(rt: &HostRuntime) -> Ending<PubStatus> {
    match env::args(rt) {
        Ok(arguments) => match ending_of(rt, arguments) {
            Ok(ending) => ending,
            Err(OutOfMemory) => Ending::of(PubStatus::OutOfMemory),
        },
        Err(error) if error.kind() == io::ErrorKind::OutOfMemory => {
            Ending::of(PubStatus::OutOfMemory)
        }
        Err(_) => Ending::of(PubStatus::Usage { place: 1 }),
    }
}

// How the run of these arguments ends. The first of them is the program's name.
fn ending_of(rt: &HostRuntime, arguments: env::Args) -> Result<Ending<PubStatus>, OutOfMemory> {
    let arguments = arguments.collect::<Vec<String>>(rt.alloc())?;
    match arguments.as_slice() {
        [_program, only] => lone_option(rt, only.as_str()),
        [_program, store, out, words @ ..] => run_words(rt, store, out, words),
        _ => reasons::without_folders(rt.alloc()),
    }
}

// What a lone argument asks for.
fn lone_option(rt: &HostRuntime, argument: &str) -> Result<Ending<PubStatus>, OutOfMemory> {
    let printed = match argument {
        "--help" => rt.println(HELP),
        "--version" => rt.println(VERSION),
        _ => return reasons::without_folders(rt.alloc()),
    };
    match printed {
        Ok(()) => Ok(Ending::of(PubStatus::Done)),
        Err(_) => Ok(Ending::of(PubStatus::WriteFault)),
    }
}

// Publishes what the words ask, if they ask something.
fn run_words(
    rt: &HostRuntime,
    store: &String,
    out: &String,
    words: &[String],
) -> Result<Ending<PubStatus>, OutOfMemory> {
    let mut texts = Words::new(rt.alloc());
    for word in words {
        texts.push(Text::from_bytes(rt.alloc(), word.as_bytes())?)?;
    }
    match read_words(rt.alloc(), &texts) {
        Ok(asked) => run_folders(rt, store, out, &asked, &texts),
        Err(AskErr::OutOfMemory) => Err(OutOfMemory),
        Err(AskErr::Usage { place }) => reasons::faulty_words(rt.alloc(), words, place),
    }
}

// Publishes what the words ask, unless one of the folders stands in the other.
fn run_folders(
    rt: &HostRuntime,
    store: &String,
    out: &String,
    asked: &Asked,
    words: &Words,
) -> Result<Ending<PubStatus>, OutOfMemory> {
    match nesting_between(rt, out.as_str(), store.as_str())? {
        Nesting::Within => reasons::clashing_folders(rt.alloc()),
        Nesting::Unseen(trouble) => faulty(rt.alloc(), PubStatus::OutFault, &trouble),
        Nesting::OtherUnseen(trouble) => { faulty(rt.alloc(), PubStatus::DiskFault, &trouble) }
        Nesting::Apart => run_apart(rt, store, out, asked, words),
    }
}

// The same, where the folders stand apart.
fn run_apart(
    rt: &HostRuntime,
    store: &String,
    out: &String,
    asked: &Asked,
    words: &Words,
) -> Result<Ending<PubStatus>, OutOfMemory> {
    let of_store = lock(rt, store.as_str(), Hold::Shared);
    let of_out = lock(rt, out.as_str(), Hold::Alone);
    let mut sink = ReleasingSink::new(StdSink::new(rt.stdout()), of_store.handle());
    let store_root = Text::from_bytes(rt.alloc(), store.as_bytes())?;
    let out_root = Text::from_bytes(rt.alloc(), out.as_bytes())?;
    let disk = FolderDisk::private(*rt, store_root);
    let disk = LockedDisk::new(disk, of_store, WaitingLine::for_store(*rt));
    let mut disk = Watched::new(rt.alloc(), disk);
    let made = FolderDisk::new(*rt, out_root);
    let mut made = LockedDisk::new(made, of_out, WaitingLine::for_out(*rt));
    let status = publish(rt.alloc(), words, &mut sink, &mut disk, &mut made);
    if matches!(status, PubStatus::Done) {
        tell_owners(rt, disk.index().owners_files(rt.alloc(), asked.path()));
    }
    reasons::ending_with(
        rt.alloc(),
        status,
        store.as_str(),
        disk.inner().trouble(),
        made.trouble(),
    )
}
