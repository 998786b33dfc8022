// The words of scenes.
use crate::acts::{Kind, Side};
use crate::every::{Device, append_call};
use crate::resources;
use crate::resources::is_entry;
use crate::scene::Scene;
use ext_case::{
    Trouble, line_of, number, number_line, number_text, one, path, place_in, size, string, two,
};
use ext_cmd::{CmdErr, read_words};
use ext_disk::Pick;
use ext_text::{Text, Words};
use ext_top::may_change;
use ext_trial_disks::{calls_at, calls_text, file_text, read_text, spots_on, whole_text};
use std::alloc::Global;

// The words of statements that write nothing, in the order of the arms that carry them out.
const SILENT: &str = "in disk depot resource listed serve input pieces after";

// The others.
const TELLING: &str =
    "fail stop call $ publish status whole shows called appended depot-read may-change";

/// What a statement writes; `None` where no statement of scenes begins with the word. Errors: `Unreadable` where it can't be carried out.
pub fn answer(
    alloc: Global,
    scene: &mut Scene,
    word: &str,
    arguments: &[Text],
) -> Result<Option<Text>, Trouble> {
    if is_entry(word) {
        resources::put(alloc, scene, word, arguments)?;
        return Ok(Some(Text::new(alloc)));
    }
    if let Some(number) = place_in(SILENT, word.as_bytes()) {
        prepare(alloc, scene, number, arguments)?;
        return Ok(Some(Text::new(alloc)));
    }
    match place_in(TELLING, word.as_bytes()) {
        Some(number) => Ok(Some(carried_out(alloc, scene, number, arguments)?)),
        None => Ok(None),
    }
}

fn prepare(
    alloc: Global,
    scene: &mut Scene,
    number: usize,
    arguments: &[Text],
) -> Result<(), Trouble> {
    match number {
        0 => choose(scene, one(arguments)?),
        1 => put_on_disk(alloc, scene, arguments),
        2 => put_in_depot(alloc, scene, arguments),
        3 => resources::begin(alloc, scene, one(arguments)?),
        4 => resources::list(alloc, scene, arguments),
        5 if arguments.is_empty() => scene.serve(alloc),
        5 => Err(Trouble::Unreadable("no argument is wanted")),
        6 => give_input(scene, one(arguments)?),
        7 => cut_streams(alloc, scene, arguments),
        _ => after_stop(alloc, scene, arguments),
    }
}

fn carried_out(
    alloc: Global,
    scene: &mut Scene,
    number: usize,
    arguments: &[Text],
) -> Result<Text, Trouble> {
    match number {
        0 => fail(alloc, scene, arguments),
        1 => stop(alloc, scene, arguments),
        2 => scene.act(alloc, Kind::Call, arguments),
        3 => scene.run(alloc, Kind::Run, arguments),
        4 => scene.run(alloc, Kind::Publish, arguments),
        5 => status(alloc, scene, arguments),
        6 => whole(alloc, scene, arguments),
        7 => file_text(alloc, scene.disk(alloc)?, one(arguments)?),
        8 => called(alloc, scene, arguments),
        9 => appended(alloc, scene, arguments),
        10 => read_text(alloc, &mut scene.devices(alloc)?.store.depot, arguments),
        _ => may_change_text(alloc, arguments),
    }
}

// `in store` or `in out`: the disk of which the statements that follow speak.
fn choose(scene: &mut Scene, side: &Text) -> Result<(), Trouble> {
    scene.side = match string(side)? {
        "store" => Side::Store,
        "out" => Side::Out,
        _ => return Err(Trouble::Unreadable("no such disk")),
    };
    Ok(())
}

// `disk WHAT PATH ..`: puts something on the disk.
fn put_on_disk(alloc: Global, scene: &mut Scene, arguments: &[Text]) -> Result<(), Trouble> {
    let _nothing = scene.act(alloc, Kind::Put, arguments)?;
    Ok(())
}

// `depot PATH BYTES`: a file of the depot.
fn put_in_depot(alloc: Global, scene: &mut Scene, arguments: &[Text]) -> Result<(), Trouble> {
    let (at, bytes) = two(arguments)?;
    scene.put(path(alloc, at)?, bytes.copy()?)
}

// `input BYTES`: what standard input has.
fn give_input(scene: &mut Scene, bytes: &Text) -> Result<(), Trouble> {
    scene.streams.source = bytes.copy()?;
    Ok(())
}

// `pieces SIZE..`: how many bytes the calls of streams move.
fn cut_streams(alloc: Global, scene: &mut Scene, arguments: &[Text]) -> Result<(), Trouble> {
    let mut sizes = Vec::new(alloc);
    for argument in arguments {
        sizes.push(size(argument)?)?;
    }
    scene.cut_streams(sizes);
    Ok(())
}

// `after stop PICK`.
fn after_stop(alloc: Global, scene: &mut Scene, arguments: &[Text]) -> Result<(), Trouble> {
    let (_stop, pick) = two(arguments)?;
    let _nothing = scene.act(alloc, Kind::Stop(pick_of(pick)?), &[])?;
    Ok(())
}

// `fail DEVICE CALL` or `fail DEVICE every`; of the depot also `never`.
fn fail(alloc: Global, scene: &mut Scene, arguments: &[Text]) -> Result<Text, Trouble> {
    let (device, call) = two(arguments)?;
    let device = device_of(device)?;
    match string(call)? {
        "every" => fail_every(alloc, scene, device),
        "never" => match scene.fail_every(alloc, device)? {
            (text, 0) => Ok(text),
            (_, count) => number_line(alloc, count),
        },
        _ => {
            scene.fail(alloc, device, number(call, u64::MAX)?)?;
            Ok(Text::new(alloc))
        }
    }
}

fn device_of(word: &Text) -> Result<Device, Trouble> {
    match string(word)? {
        "disk" => Ok(Device::Disk(None)),
        "depot" => Ok(Device::Depot),
        "source" => Ok(Device::Source),
        "sink" => Ok(Device::Sink),
        _ => Err(Trouble::Unreadable("no such device")),
    }
}

// Of a stream, how many calls there are is written, too.
fn fail_every(alloc: Global, scene: &Scene, device: Device) -> Result<Text, Trouble> {
    let (text, count) = scene.fail_every(alloc, device)?;
    let mut text = text;
    match device {
        Device::Depot if count == 0 => {
            return Err(Trouble::Unreadable("the change makes no call of the depot"));
        }
        Device::Source | Device::Sink => append_call(alloc, &mut text, "calls", count)?,
        Device::Disk(_) | Device::Depot => {}
    }
    Ok(text)
}

// `stop CALL`, or `stop every pick PICK` where `every` is each pick.
fn stop(alloc: Global, scene: &mut Scene, arguments: &[Text]) -> Result<Text, Trouble> {
    match arguments {
        [call] => {
            scene.fail_disk(alloc, number(call, u64::MAX)?, true)?;
            Ok(Text::new(alloc))
        }
        [_every, _pick, pick] => match string(pick)? {
            "every" => stop_every(alloc, scene, &[Pick::Old, Pick::New, Pick::Junk]),
            _ => stop_every(alloc, scene, &[pick_of(pick)?]),
        },
        _ => Err(Trouble::Unreadable("stop where?")),
    }
}

fn stop_every(alloc: Global, scene: &Scene, picks: &[Pick]) -> Result<Text, Trouble> {
    let mut text = Text::new(alloc);
    for pick in picks {
        let (calls, _count) = scene.fail_every(alloc, Device::Disk(Some(*pick)))?;
        text.append(calls.bytes())?;
    }
    Ok(text)
}

fn pick_of(word: &Text) -> Result<Pick, Trouble> {
    match string(word)? {
        "old" => Ok(Pick::Old),
        "new" => Ok(Pick::New),
        "junk" => Ok(Pick::Junk),
        _ => Err(Trouble::Unreadable("no such pick")),
    }
}

/// The words of a command.
pub fn words_of(alloc: Global, arguments: &[Text]) -> Result<Words, Trouble> {
    let mut words = Words::new(alloc);
    for argument in arguments {
        words.push(argument.copy()?)?;
    }
    Ok(words)
}

// `status NUMBER [DETAIL ..]`: writes the status where it is another.
fn status(alloc: Global, scene: &mut Scene, arguments: &[Text]) -> Result<Text, Trouble> {
    match scene.said() {
        Some(found) => stated(alloc, &found, arguments),
        None => Err(Trouble::Unreadable("no command")),
    }
}

// Nothing where these words state what is found, and else a line of it.
fn stated(alloc: Global, found: &Text, words: &[Text]) -> Result<Text, Trouble> {
    let mut text = Text::new(alloc);
    for word in words {
        if !text.bytes().is_empty() {
            text.append(b" ")?;
        }
        text.append(word.bytes())?;
    }
    if text.bytes() == found.bytes() {
        return Ok(Text::new(alloc));
    }
    let mut line = found.copy()?;
    line.append(b"\n")?;
    Ok(line)
}

// `appended BYTES`: writes how many bytes were appended to the disk where they are others.
fn appended(alloc: Global, scene: &mut Scene, arguments: &[Text]) -> Result<Text, Trouble> {
    let count = scene.disk(alloc)?.appended();
    stated(alloc, &number_text(alloc, count)?, arguments)
}

// `called`, `called COUNT` for the last so many, or `called CALL PATH`.
fn called(alloc: Global, scene: &mut Scene, arguments: &[Text]) -> Result<Text, Trouble> {
    let disk = scene.disk(alloc)?;
    match arguments {
        [] => calls_text(alloc, disk, u64::MAX),
        [count] => calls_text(alloc, disk, number(count, u64::MAX)?),
        _ => {
            let (call, at) = two(arguments)?;
            calls_at(alloc, disk, call.bytes(), at.bytes())
        }
    }
}

// `whole`, or `whole PICK` for what a stop now would leave.
fn whole(alloc: Global, scene: &mut Scene, arguments: &[Text]) -> Result<Text, Trouble> {
    match arguments {
        [] => {
            let spots = spots_on(alloc, scene.disk(alloc)?)?;
            whole_text(alloc, spots.as_slice())
        }
        _ => scene.left_by_stop(alloc, pick_of(one(arguments)?)?),
    }
}

// Whether the command of these words may change a store.
fn may_change_text(alloc: Global, arguments: &[Text]) -> Result<Text, Trouble> {
    let words = words_of(alloc, arguments)?;
    match read_words(alloc, &words) {
        Ok(command) => line_of(alloc, if may_change(&command) { "yes" } else { "no" }),
        Err(CmdErr::OutOfMemory) => Err(Trouble::OutOfMemory),
        Err(CmdErr::Usage { place: _ }) => Err(Trouble::Unreadable("no command")),
    }
}
