// Acts over the devices of a scene.
use super::Scene;
use crate::acts::{Act, Kind, act_all, act_on, act_over, fresh_devices, stop_disk};
use crate::ends::Play;
use crate::every::{Device, fail_every};
use crate::words::words_of;
use ext_case::Trouble;
use ext_disk::Pick;
use ext_text::Text;
use ext_trial_disks::{Outcome, Spot, spots_on, whole_text};
use std::alloc::Global;
use std::mem;

impl Scene {
    /// The act of these words on the disk of which statements speak.
    pub(crate) fn act_of(&self, alloc: Global, kind: Kind, words: &[Text]) -> Result<Act, Trouble> {
        Ok(Act {
            kind,
            side: self.side,
            words: words_of(alloc, words)?,
            source: self.streams.source.copy()?,
        })
    }

    /// Does an act on the disk of which statements speak, and keeps it, of a call where it changed something.
    pub(crate) fn act(
        &mut self,
        alloc: Global,
        kind: Kind,
        words: &[Text],
    ) -> Result<Text, Trouble> {
        let act = self.act_of(alloc, kind, words)?;
        let outcome = act_on(alloc, &act, self.devices(alloc)?)?;
        if !matches!(kind, Kind::Call) || outcome.reply.bytes() == b"done\n".as_slice() {
            self.acts.push(act)?;
        }
        Ok(outcome.reply)
    }

    /// Runs a command or publishes, once for each size of pieces, and keeps it. Where one ends otherwise than the first, that is
    /// what it gives.
    pub(crate) fn run(
        &mut self,
        alloc: Global,
        kind: Kind,
        words: &[Text],
    ) -> Result<Text, Trouble> {
        let act = self.act_of(alloc, kind, words)?;
        let first = self.run_once(alloc, &act)?;
        let pieces = mem::replace(&mut self.pieces, Vec::new(alloc));
        let other = self.run_otherwise(alloc, &act, pieces.as_slice(), &first)?;
        self.pieces = pieces;
        self.acts.push(act)?;
        Ok(self.end(other.unwrap_or(first)))
    }

    // The first run in other pieces that ends otherwise.
    fn run_otherwise(
        &mut self,
        alloc: Global,
        act: &Act,
        pieces: &[usize],
        first: &Outcome,
    ) -> Result<Option<Outcome>, Trouble> {
        let before = self.streams.piece;
        let mut other = None;
        for piece in pieces.iter().skip(1) {
            self.streams.piece = *piece;
            let found = self.run_once(alloc, act)?;
            if !found.is_same(first) {
                other = Some(found);
            }
        }
        self.streams.piece = before;
        Ok(other)
    }

    fn run_once(&mut self, alloc: Global, act: &Act) -> Result<Outcome, Trouble> {
        let _devices = self.devices(alloc)?;
        match &mut self.devices {
            Some(devices) => act_over(alloc, act, &self.streams, devices),
            None => Err(Trouble::Unreadable("no devices")),
        }
    }

    /// Makes the last run anew with each of its calls of a device failing, or with the disk stopped there. Gives what it does not bear, and
    /// how many calls that are.
    pub(crate) fn fail_every(&self, alloc: Global, device: Device) -> Result<(Text, u64), Trouble> {
        let [before @ .., change] = self.acts.as_slice() else {
            return Err(Trouble::Unreadable("no statement stands before"));
        };
        if !change.is_run() {
            return Err(Trouble::Unreadable("the statement before is no command"));
        }
        let play = Play {
            alloc,
            before,
            change,
            files: &self.files,
            side: self.side,
            piece: self.streams.piece,
        };
        let mut text = Text::new(alloc);
        let count = fail_every(&play, device, &mut text)?;
        Ok((text, count))
    }

    /// What a stop now would leave of the disk. All that was done is done again on another disk, which is stopped.
    pub(crate) fn left_by_stop(&self, alloc: Global, pick: Pick) -> Result<Text, Trouble> {
        let mut devices = fresh_devices(alloc, &self.files)?;
        act_all(alloc, self.acts.as_slice(), &mut devices)?;
        stop_disk(alloc, &mut devices, self.side, pick)?;
        let spots = spots_on(alloc, devices.disk(self.side))?;
        whole_text(alloc, spots.as_slice())
    }

    /// Puts the files that stand on the disk into the depot.
    pub(crate) fn serve(&mut self, alloc: Global) -> Result<(), Trouble> {
        for spot in spots_on(alloc, self.disk(alloc)?)? {
            let Spot { at, bytes } = spot;
            if let Some(bytes) = bytes {
                self.put(at, bytes)?;
            }
        }
        Ok(())
    }
}
