//! The program `ext_trial FILE ..`: carries out the cases of files, and tells which fail.
//!
//! A case is text: `tests/cases/README.md` shows how it is written. Its statements are carried out by the words of
//! `ext_trial_values`, which call what works on values, and of `ext_trial_scenes`, which call what works on devices. A command
//! over a real folder is this crate's own. Each case that fails is told as `FILE:LINE: NAME: wanted .. and came ..`, and the last
//! line is `N passed, N failed`. The status is 1 where a case failed or a file can't be read, else 0.
#![tactic(auto)]

mod playing;
mod stage;
mod telling;

use crate::playing::play;
use crate::telling::{Counts, Failure, tell};
use ext_case::{Cases, Fault, Trouble, read_cases};
use ext_text::Text;
use std::process::ExitCode;
use std::{env, fs, io};

fn main(rt: HostRuntime) -> ExitCode {
    match play_files(&rt) {
        Ok(counts) if counts.failed == 0 => ExitCode::from(0),
        _ => ExitCode::from(1),
    }
}

// Plays the files that the arguments name, after the program's own name.
fn play_files(rt: &HostRuntime) -> io::Result<Counts> {
    let mut counts = Counts::default();
    for file in env::args(rt)?.skip(1) {
        play_file(rt, file.as_str(), &mut counts)?;
    }
    println!(rt; "{} passed, {} failed", counts.passed, counts.failed)?;
    Ok(counts)
}

fn play_file(rt: &HostRuntime, file: &str, counts: &mut Counts) -> io::Result<()> {
    match fs::read(rt, file) {
        Err(_) => {
            counts.add(false);
            println!(rt; "{file}: the file can't be read")
        }
        Ok(bytes) => match read_cases(rt.alloc(), bytes.as_slice()) {
            Ok(cases) => play_cases(rt, file, &cases, counts),
            Err(fault) => tell_fault(rt, file, &fault, counts),
        },
    }
}

fn tell_fault(rt: &HostRuntime, file: &str, fault: &Fault, counts: &mut Counts) -> io::Result<()> {
    counts.add(false);
    println!(rt; "{file}:{}: {}", fault.line, fault.trouble)
}

fn play_cases(rt: &HostRuntime, file: &str, cases: &Cases, counts: &mut Counts) -> io::Result<()> {
    for case in cases.cases.as_slice() {
        let outcome = play(rt, &cases.before, case);
        counts.add(matches!(outcome, Ok(None)));
        tell_outcome(rt, file, &case.name, outcome)?;
    }
    Ok(())
}

fn tell_outcome(
    rt: &HostRuntime,
    file: &str,
    name: &Text,
    outcome: Result<Option<Failure>, Trouble>,
) -> io::Result<()> {
    match outcome {
        Ok(None) => Ok(()),
        Ok(Some(failure)) => tell(rt, file, name, &failure),
        Err(trouble) => println!(rt; "{file}: {trouble}"),
    }
}
