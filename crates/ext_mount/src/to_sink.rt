// A sink as an output.
ghost use Rattle.std.specs.Prelude.{◌≡◌, ◌++◌, ◌<◌, ℕ, List, [], length, OnOk, OnErr};
ghost use Rattle.ext_io.specs.Pieces.{most_of_piece};
ghost use Rattle.ext_mount.specs.Printed.{HasWritten, IsPrinted, Printed, PrintsOn, SinkAt, StopsPrinting};

use crate::buffer::Buffer;
use ext_erofs::Out;
use ext_io::{Failed, Sink, write_all};

/// A sink as an output: what is printed is gathered in a buffer, and written in pieces of at most 65,536 bytes. Once the sink has
/// failed, nothing more is written. Where the output is let go before its end, a prefix of what was printed has been written.
#[derive(Drop)]
pub struct ToSink<'a, 'b, K: Sink> {
    sink: &'a mut K,
    buffer: &'b mut Buffer,
    failed: bool,
}

impl<'a, 'b, K: Sink> ToSink<'a, 'b, K> {
    /// An output over a sink, through an empty buffer.
    pub fn new(sink: &'a mut K, buffer: &'b mut Buffer) -> ToSink<'a, 'b, K>
        requires { buffer.old ≡ [] }
        // So whoever lends the sink knows what became of it.
        ensures same_reference { result.sink.ghost_name ≡ sink.entry.ghost_name }
        ensures begins { IsPrinted
            (record { reference = result.sink.ghost_name; state = K.state sink.old })
            (record { reference = result.sink.ghost_name; state = K.state result.sink.now }) result.failed result.buffer.now [] }
    {
        ToSink {
            sink,
            buffer,
            failed: false,
        }
    }

    /// Writes what waits: then all that was printed has been written.
    ///
    /// # Errors
    /// The sink failed, now or before. A proper prefix of what was printed has been written.
    pub fn finish(self) -> Result<(), Failed>
        ensures ok { (start : SinkAt) (printed : List ℕ) → IsPrinted start
            (record { reference = self.entry.sink.ghost_name; state = K.state self.entry.sink.now })
            self.entry.failed self.entry.buffer.now printed
            → OnOk result (HasWritten start.state (K.state self.exit.0.now) printed) }
        ensures err { (start : SinkAt) (printed : List ℕ) → IsPrinted start
            (record { reference = self.entry.sink.ghost_name; state = K.state self.entry.sink.now })
            self.entry.failed self.entry.buffer.now printed
            → OnErr result (StopsPrinting start.state (K.state self.exit.0.now) printed) }
    {
        let ToSink {
            sink,
            buffer,
            failed,
        } = self;
        if failed {
            return Err(Failed);
        }
        write_out(sink, buffer)
    }
}

impl<'a, 'b, K: Sink> Out for ToSink<'a, 'b, K> {
    ghost use Rattle.ext_mount.specs.Printed.{IsPrinted, SinkAt};

    ghost Start = { SinkAt };

    ghost holds = { λ o start printed. IsPrinted start
        (record { reference = o.sink.ghost_name; state = K.state o.sink.now }) o.failed o.buffer.now printed };

    fn put(&mut self, bytes: &[u8]) {
        if !self.failed {
            let sink = &mut *self.sink;
            let buffer = &mut *self.buffer;
            self.failed = print(sink, buffer, bytes);
        }
    }
}

// Prints bytes, and tells whether the sink failed.
fn print<K: Sink>(sink: &mut K, buffer: &mut Buffer, bytes: &[u8]) -> bool
    ensures { Printed (K.state sink.old) (K.state sink.new) result buffer.new (buffer.old ++ bytes.now) }
{
    print_all(sink, buffer, bytes).is_err()
}

// Prints bytes. Where the sink failed, what waits is of no use any more.
fn print_all<K: Sink>(sink: &mut K, buffer: &mut Buffer, bytes: &[u8]) -> Result<(), Failed>
    ensures ok { OnOk result (PrintsOn (K.state sink.old) (K.state sink.new) buffer.new (buffer.old ++ bytes.now)) }
    ensures err { OnErr result (StopsPrinting (K.state sink.old) (K.state sink.new) (buffer.old ++ bytes.now)) }
{
    let mut at = 0;
    'pieces: while at < bytes.len() {
        make_room(sink, buffer)?;
        at += buffer.fill(&bytes[at..]);
    }
    Ok(())
}

// Writes what waits, where there is no room for more.
fn make_room<K: Sink>(sink: &mut K, buffer: &mut Buffer) -> Result<(), Failed>
    ensures ok { OnOk result (PrintsOn (K.state sink.old) (K.state sink.new) buffer.new buffer.old) }
    ensures room { OnOk result (length buffer.new < most_of_piece) }
    ensures err { OnErr result (StopsPrinting (K.state sink.old) (K.state sink.new) buffer.old) }
{
    if buffer.has_room() {
        Ok(())
    } else {
        write_out(sink, buffer)
    }
}

// Writes what waits.
fn write_out<K: Sink>(sink: &mut K, buffer: &mut Buffer) -> Result<(), Failed>
    ensures ok { OnOk result (HasWritten (K.state sink.old) (K.state sink.new) buffer.old) }
    ensures empty { OnOk result (buffer.new ≡ []) }
    ensures err { OnErr result (StopsPrinting (K.state sink.old) (K.state sink.new) buffer.old) }
{
    write_all(sink, buffer.bytes())?;
    buffer.clear();
    Ok(())
}
