// Words about readers and writers of std that are interrupted.
ghost use Rattle.std.specs.Prelude.{◌≤◌, IfOk};

use crate::asked::{Asked, Said, Stop};
use ext_io::{Failed, ReadErr, StdSink, StdSource, read_to_end, write_all};
use std::io;
use std::io::ErrorKind;

// A device of std that is interrupted so many times at first. It gives so many bytes once, and takes as many at each write.
#[derive(Clone, Copy)]
struct Device {
    interrupts: u32,
    count: usize,
    flushes: bool,
}

impl Device {
    fn call(&mut self, room: usize) -> io::Result<usize>
        ensures { IfOk result (λ n. n ≤ room) }
    {
        if self.interrupts > 0 {
            self.interrupts -= 1;
            return Err(io::Error::from(ErrorKind::Interrupted));
        }
        Ok(self.count.min(room))
    }
}

impl io::Read for Device {
    fn read(&mut self, buf: &mut [u8]) -> io::Result<usize> {
        let count = self.call(buf.len())?;
        self.count = 0;
        Ok(count)
    }
}

impl io::Write for Device {
    fn write(&mut self, buf: &[u8]) -> io::Result<usize> {
        self.call(buf.len())
    }

    fn flush(&mut self) -> io::Result<()> {
        if self.flushes {
            Ok(())
        } else {
            Err(io::Error::from(ErrorKind::Other))
        }
    }
}

// The device of the first two arguments.
fn make_device(asked: Asked, flushes: bool) -> Result<Device, Stop> {
    Ok(Device {
        interrupts: asked.number(0)?,
        count: asked.number(1)? as usize,
        flushes,
    })
}

/// How many bytes are read of a reader, at most so many in all.
pub(crate) fn read_reader(asked: Asked) -> Said {
    let most = asked.number(2)? as usize;
    let mut source = StdSource::new(make_device(asked, true)?);
    match read_to_end(asked.alloc, &mut source, most) {
        Ok(text) => asked.count("bytes ", text.bytes().len()),
        Err(ReadErr::Failed) => Err(Stop::Says("failed")),
        Err(ReadErr::TooLong) => Err(Stop::Says("too long")),
        Err(ReadErr::OutOfMemory) => Err(Stop::OutOfMemory),
    }
}

/// What comes of writing a text to a writer that is flushed, or fails to be.
pub(crate) fn write_writer(asked: Asked) -> Said {
    let flushes = asked.bytes(2) == b"yes".as_slice();
    let mut sink = StdSink::new(make_device(asked, flushes)?);
    asked.line(&[outcome_word(write_all(&mut sink, asked.bytes(3)))])
}

/// What comes of writing a text to a vector, and then what was written.
pub(crate) fn write_vector(asked: Asked) -> Said {
    let mut written = Vec::new(asked.alloc);
    let outcome = write_all(&mut StdSink::new(&mut written), asked.bytes(0));
    asked.line(&[outcome_word(outcome), b"\n", written.as_slice()])
}

fn outcome_word(outcome: Result<(), Failed>) -> &'static [u8] {
    match outcome {
        Ok(()) => b"done",
        Err(Failed) => b"failed",
    }
}
