use ext_folder::Notice;

/// Tells on standard error that a lock is waited for.
#[derive(Drop)]
pub struct WaitingLine<R: Eprint> {
    rt: R,
    line: &'static str,
}

impl<R: Eprint> WaitingLine<R> {
    /// That of a run on a store.
    pub fn for_store(rt: R) -> WaitingLine<R> {
        WaitingLine {
            rt,
            line: "hostext: waiting for another command on this store",
        }
    }

    /// That of a run that publishes in a folder.
    pub fn for_out(rt: R) -> WaitingLine<R> {
        WaitingLine {
            rt,
            line: "hostext: waiting for another run that publishes in OUT",
        }
    }
}

impl<R: Eprint> Notice for WaitingLine<R> {
    // A fault in printing it is ignored: it waits all the same.
    fn waiting(&mut self) {
        let _ = self.rt.eprintln(self.line);
    }
}
