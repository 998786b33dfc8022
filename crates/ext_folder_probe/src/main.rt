//! The program `ext_folder_probe disk|depot FOLDER`: calls on a real folder, for tests from outside.
//!
//! Each line of standard input is a call: its name and its words, with a space between each two. The answer is a line on
//! standard output, written before the next line is read, so that a test can change the folder between two calls.
#![tactic(auto)]

mod answers;

use answers::{depot_answer, disk_answer};
use anyhow::bail;
use ext_folder::{FolderDepot, FolderDisk};
use ext_text::Text;
use std::env;

fn main(rt: HostRuntime) -> anyhow::Result<()> {
    let arguments = env::args(&rt)?.collect::<Vec<String>>(rt.alloc())?;
    match arguments.as_slice() {
        [_program, device, folder] => {
            let root = Text::from_bytes(rt.alloc(), folder.as_bytes())?;
            probe(rt, device.as_str(), root)
        }
        _ => bail!("usage: ext_folder_probe disk|depot FOLDER"),
    }
}

fn probe(rt: HostRuntime, device: &str, root: Text) -> anyhow::Result<()> {
    match device {
        "disk" => probe_disk(&rt, FolderDisk::new(rt, root)),
        "depot" => probe_depot(&rt, FolderDepot::new(rt, root)),
        _ => bail!("no such device"),
    }
}

fn probe_disk(rt: &HostRuntime, disk: FolderDisk<HostRuntime>) -> anyhow::Result<()> {
    let mut disk = disk;
    for line in rt.lines(rt.alloc()) {
        let line = line?;
        let words = line.split(' ').collect::<Vec<&str>>(rt.alloc())?;
        println!(rt; "{}", disk_answer(rt.alloc(), &mut disk, words.as_slice())?)?;
    }
    Ok(())
}

fn probe_depot(rt: &HostRuntime, depot: FolderDepot<HostRuntime>) -> anyhow::Result<()> {
    let mut depot = depot;
    for line in rt.lines(rt.alloc()) {
        let line = line?;
        let words = line.split(' ').collect::<Vec<&str>>(rt.alloc())?;
        println!(rt;
            "{}",
            depot_answer(rt.alloc(), &mut depot, words.as_slice())?
        )?;
    }
    Ok(())
}
