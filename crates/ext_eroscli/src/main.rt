//! The program `hostext_erofs STORE [--mark=G] [--time=SECONDS]`: a thin shell over `ext_mount::print_image`.
//!
//! It hands the words after STORE, standard output and the folder STORE to `print_image`, and ends with the number of the status.
//! Where that is 2 or more it prints a line on standard error, and the reason on a second one where somebody reads it.
//!
//! STORE must exist. It is locked together with others that read it, from the first look at it until the first byte is written.
#![tactic(auto)]

mod ending;
mod help;
mod reasons;

use ending::report;
use ext_folder::{FolderDisk, Hold, LockedDisk, ReleasingSink};
use ext_io::StdSink;
use ext_mount::{ImageStatus, print_image, read_words};
use ext_reasons::{Ending, WaitingLine, lock};
use ext_text::{OutOfMemory, Text, Words};
use help::{HELP, VERSION};
use std::process::ExitCode;
use std::{env, io};

fn main(rt: HostRuntime) -> ExitCode {
    let ending = outcome(&rt);
    report(&rt, &ending);
    ExitCode::from(ending.status().number())
}

// How the run ends. An argument that is not UTF-8 is a fault of the command line.
fn outcome(rt: &HostRuntime) -> Ending<ImageStatus> {
    match env::args(rt) {
        Ok(arguments) => match ending_of(rt, arguments) {
            Ok(ending) => ending,
            Err(OutOfMemory) => Ending::of(ImageStatus::OutOfMemory),
        },
        Err(error) if error.kind() == io::ErrorKind::OutOfMemory => {
            Ending::of(ImageStatus::OutOfMemory)
        }
        Err(_) => Ending::of(ImageStatus::Usage { place: 1 }),
    }
}

// How the run of these arguments ends. The first of them is the program's name.
fn ending_of(rt: &HostRuntime, arguments: env::Args) -> Result<Ending<ImageStatus>, OutOfMemory> {
    let arguments = arguments.collect::<Vec<String>>(rt.alloc())?;
    match arguments.as_slice() {
        [_program, only] if only.as_str() == "--help" => Ok(print_line(rt, HELP)),
        [_program, only] if only.as_str() == "--version" => Ok(print_line(rt, VERSION)),
        [_program, store, words @ ..] => run_words(rt, store, words),
        _ => reasons::without_folder(rt.alloc()),
    }
}

// Prints what a lone option asks for.
fn print_line(rt: &HostRuntime, text: &str) -> Ending<ImageStatus> {
    match rt.println(text) {
        Ok(()) => Ending::of(ImageStatus::Done),
        Err(_) => Ending::of(ImageStatus::WriteFault),
    }
}

// Prints the image that the words ask for, if they ask for one.
fn run_words(
    rt: &HostRuntime,
    store: &String,
    words: &[String],
) -> Result<Ending<ImageStatus>, OutOfMemory> {
    let mut texts = Words::new(rt.alloc());
    for word in words {
        texts.push(Text::from_bytes(rt.alloc(), word.as_bytes())?)?;
    }
    match read_words(&texts) {
        Ok(_) => run_folder(rt, store, &texts),
        Err(refused) => reasons::faulty_words(rt.alloc(), words, refused.place),
    }
}

// The same, over the store folder.
fn run_folder(
    rt: &HostRuntime,
    store: &String,
    words: &Words,
) -> Result<Ending<ImageStatus>, OutOfMemory> {
    let of_store = lock(rt, store.as_str(), Hold::Shared);
    let mut sink = ReleasingSink::new(StdSink::new(rt.stdout()), of_store.handle());
    let root = Text::from_bytes(rt.alloc(), store.as_bytes())?;
    let disk = FolderDisk::private(*rt, root);
    let mut disk = LockedDisk::new(disk, of_store, WaitingLine::for_store(*rt));
    let status = print_image(rt.alloc(), words, &mut sink, &mut disk);
    reasons::ending_with(rt.alloc(), status, store.as_str(), disk.trouble())
}
