// Where the statements of a case are carried out.
use ext_case::{Trouble, two};
use ext_folder::{FolderDepot, FolderDisk};
use ext_text::Text;
use ext_trial_scenes::{Scene, beside_streams, run_over, words_of};
use std::alloc::Global;

/// The devices of a case: those in memory, or two folders of the system.
#[derive(Drop)]
pub(crate) struct Stage {
    pub(crate) scene: Scene,
    folders: Option<(Text, Text)>,
}

impl Stage {
    /// Devices in memory.
    pub(crate) fn new(alloc: Global) -> Stage {
        Stage {
            scene: Scene::new(alloc),
            folders: None,
        }
    }
}

/// What a statement writes; `None` where its word is none.
pub(crate) fn answer(
    rt: &HostRuntime,
    stage: &mut Stage,
    word: &str,
    arguments: &[Text],
) -> Result<Option<Text>, Trouble> {
    let alloc = rt.alloc();
    if let Some(text) = ext_trial_values::answer(alloc, word, arguments)? {
        return Ok(Some(text));
    }
    match (word, &stage.folders) {
        ("folder", _) => {
            let (store, depot) = two(arguments)?;
            stage.folders = Some((store.copy()?, depot.copy()?));
            Ok(Some(Text::new(alloc)))
        }
        ("$", Some(_)) => Ok(Some(run_in_folders(rt, stage, arguments)?)),
        _ => ext_trial_scenes::answer(alloc, &mut stage.scene, word, arguments),
    }
}

// Runs a command over the two folders.
fn run_in_folders(
    rt: &HostRuntime,
    stage: &mut Stage,
    arguments: &[Text],
) -> Result<Text, Trouble> {
    let Some((store, depot)) = &stage.folders else {
        return Err(Trouble::Unreadable("no folders"));
    };
    let words = words_of(rt.alloc(), arguments)?;
    let disk = FolderDisk::new(*rt, store.copy()?);
    let depot = FolderDepot::new(*rt, depot.copy()?);
    let mut devices = beside_streams(rt.alloc(), disk, depot);
    let outcome = run_over(rt.alloc(), &words, stage.scene.streams(), &mut devices)?;
    Ok(stage.scene.end(outcome))
}
