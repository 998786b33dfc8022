//! The program `hostext STORE DEPOT COMMAND ..`: a thin shell over `ext_top::run`.
//!
//! It hands the words after DEPOT, the standard streams, and the folders STORE and DEPOT to `run`, and ends with the number
//! of the status. Where that is 2 or more it prints a line on standard error, and the reason on a second one where somebody
//! reads it. Both folders must exist. `compare`, `layer` and `sample` look at neither. A command that takes its time tells on a
//! terminal how much of them it has read and written so far: the devices that are handed to `run` count it, and are else those
//! inside of them.
//!
//! STORE is locked while a command works on it: by one that may change it for itself alone, by one that reads it together with
//! others. A batch may change it, and locks it once its lines were read.
#![tactic(auto)]

mod access;
mod commands;
mod counted;
mod ending;
mod help;
mod pace;
mod progress;
mod progress_line;
mod reasons;
mod remedies;
mod remedy;
mod services;
mod tally;
mod usage;
mod wiping_sink;

use access::Access;
use commands::nesting_for;
use counted::Counted;
use ending::report;
use ext_cmd::{CmdErr, Command, read_words};
use ext_folder::{FolderDepot, FolderDisk, LockedDisk, Nesting, ReleasingSink};
use ext_io::{StdSink, StdSource};
use ext_reasons::{Ending, WaitingLine, faulty};
use ext_text::{OutOfMemory, Text, Words};
use ext_top::{Devices, Status, run};
use help::{HELP, VERSION};
use progress::Progress;
use remedies::Remedies;
use std::process::ExitCode;
use std::{env, io};
use wiping_sink::WipingSink;

fn main(rt: HostRuntime) -> ExitCode {
    let ending = outcome(&rt);
    report(&rt, &ending);
    ExitCode::from(ending.status().number())
}

// How the run ends. An argument that is not UTF-8 is a fault of the command line.
fn outcome(rt: &HostRuntime) -> Ending<Status> {
    match env::args(rt) {
        Ok(arguments) => match ending_of(rt, arguments) {
            Ok(ending) => ending,
            Err(OutOfMemory) => Ending::of(Status::OutOfMemory),
        },
        Err(error) if error.kind() == io::ErrorKind::OutOfMemory => Ending::of(Status::OutOfMemory),
        Err(_) => Ending::of(Status::Usage { place: 1 }),
    }
}

// How the run of these arguments ends. The first of them is the program's name.
fn ending_of(rt: &HostRuntime, arguments: env::Args) -> Result<Ending<Status>, OutOfMemory> {
    let arguments = arguments.collect::<Vec<String>>(rt.alloc())?;
    match arguments.as_slice() {
        [_program, only] => lone_option(rt, only.as_str()),
        [_program, store, depot, words @ ..] => run_words(rt, store, depot, words),
        _ => usage::without_command(rt.alloc()),
    }
}

// What a lone argument asks for.
fn lone_option(rt: &HostRuntime, argument: &str) -> Result<Ending<Status>, OutOfMemory> {
    let printed = match argument {
        "--help" => rt.println(HELP),
        "--version" => rt.println(VERSION),
        "help" | "-h" => return usage::seeking_help(rt.alloc()),
        _ => return usage::without_command(rt.alloc()),
    };
    match printed {
        Ok(()) => Ok(Ending::of(Status::Done)),
        Err(_) => Ok(Ending::of(Status::WriteFault)),
    }
}

// Runs the command that the words are, if they are one.
fn run_words(
    rt: &HostRuntime,
    store: &String,
    depot: &String,
    words: &[String],
) -> Result<Ending<Status>, OutOfMemory> {
    let mut texts = Words::new(rt.alloc());
    for word in words {
        texts.push(Text::from_bytes(rt.alloc(), word.as_bytes())?)?;
    }
    match read_words(rt.alloc(), &texts) {
        Ok(command) => run_command(rt, store, depot, &command, &texts),
        Err(CmdErr::OutOfMemory) => Err(OutOfMemory),
        Err(CmdErr::Usage { place }) => usage::faulty_words(rt.alloc(), words, place),
    }
}

// Runs a command, whose words these are, over the standard streams and the two folders.
fn run_command(
    rt: &HostRuntime,
    store: &String,
    depot: &String,
    command: &Command,
    words: &Words,
) -> Result<Ending<Status>, OutOfMemory> {
    match nesting_for(rt, command, store.as_str(), depot.as_str())? {
        Nesting::Within => usage::clashing_folders(rt.alloc()),
        Nesting::Unseen(trouble) => faulty(rt.alloc(), Status::DepotFault, &trouble),
        Nesting::OtherUnseen(trouble) => faulty(rt.alloc(), Status::DiskFault, &trouble),
        Nesting::Apart => run_apart(rt, store, depot, command, words),
    }
}

// The same, where the depot doesn't stand in the store folder.
fn run_apart(
    rt: &HostRuntime,
    store: &String,
    depot: &String,
    command: &Command,
    words: &Words,
) -> Result<Ending<Status>, OutOfMemory> {
    let access = Access::of(command);
    let lock = access.lock(rt, store.as_str());
    let sink = ReleasingSink::new(StdSink::new(rt.stdout()), access.handle(&lock));
    let store_root = Text::from_bytes(rt.alloc(), store.as_bytes())?;
    let depot_root = Text::from_bytes(rt.alloc(), depot.as_bytes())?;
    let disk = FolderDisk::private(*rt, store_root);
    let disk = LockedDisk::new(disk, lock, WaitingLine::for_store(*rt));
    let progress = Progress::new(*rt);
    let mut devices = Devices {
        source: StdSource::new(rt.stdin()),
        sink: WipingSink::new(sink, &progress),
        disk: Counted::new(disk, &progress),
        depot: Counted::new(FolderDepot::new(*rt, depot_root), &progress),
        observer: Remedies::new(*rt, &progress, depot.as_str()),
    };
    let status = run(rt.alloc(), words, &mut devices);
    progress.wipe();
    reasons::ending_with(
        rt.alloc(),
        status,
        store.as_str(),
        devices.disk.inner().trouble(),
        devices.depot.inner().trouble(),
    )
}
