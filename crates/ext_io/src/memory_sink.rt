ghost use Rattle.std.specs.Prelude.{◌≡◌, ◌<◌, ◌≤◌, ◌++◌, [], length, take, IfOk, OnErr};
ghost use Rattle.std.specs.Io.KnownBytes.{Appends, Keeps};
ghost use Rattle.ext_text.specs.Causes.{HasCause};
ghost use Rattle.ext_io.specs.MemorySink.{SinkWrites};

use crate::device::{Calls, is_listed, next_count};
use crate::failed::Failed;
use crate::sink::Sink;
use ext_text::Text;
use std::alloc::Global;
use std::marker::Model;

/// A text that is written to, for tests: it takes few bytes a call, and fails where it is told to.
#[derive(Drop)]
pub struct MemorySink {
    written: Text,
    piece: usize,
    fails: Calls,
    calls: u64,
    faults: u64,
    starved: u64,
}

impl Model for MemorySink {
    ghost use Rattle.std.specs.Prelude.{◌<◌};
    ghost use Rattle.ext_io.specs.MemorySink.{SinkView};

    ghost Value = { SinkView };

    ghost view = { λ s. record {
      written = s.written;
      piece = s.piece;
      fails = s.fails;
      calls = s.calls;
      faults = s.faults;
      starved = s.starved;
    } };

    ghost invariant = { λ s. 0 < s.piece };
}

impl MemorySink {
    /// An empty sink that takes at most `piece` bytes a call, and whose calls of these numbers fail. Calls are counted from
    /// 1, and a count stands still at 18,446,744,073,709,551,615.
    pub fn new(alloc: Global, piece: usize, fails: Calls) -> MemorySink
        requires { 0 < piece }
        ensures { result ≡ record {
          written = [];
          piece = piece;
          fails = fails;
          calls = 0;
          faults = 0;
          starved = 0;
        } }
    {
        MemorySink {
            written: Text::new(alloc),
            piece,
            fails,
            calls: 0,
            faults: 0,
            starved: 0,
        }
    }

    /// The bytes written so far.
    pub fn written(&self) -> &[u8]
        ensures { result.now ≡ self.now.written }
    {
        self.written.bytes()
    }

    /// How many calls failed because an allocation failed. Each of them is counted as a fault, too.
    pub fn starved(&self) -> u64
        ensures { result ≡ self.now.starved }
    {
        self.starved
    }
}

impl Sink for MemorySink {
    ghost use Rattle.std.specs.Prelude.{Some};

    ghost state = { λ s. record { written = Some s.written; faults = s.faults } };

    /// Beside what each sink promises: the call fails exactly where it is listed or an allocation fails, and takes
    /// as many bytes as it may.
    fn write(&mut self, bytes: &[u8]) -> Result<usize, Failed>
        requires { 0 < length bytes.now }
        ensures non_empty { IfOk result (λ n. 0 < n) }
        ensures within { IfOk result (λ n. n ≤ length bytes.now) }
        ensures appended { IfOk result (λ n. self.new.written ≡ self.old.written ++ take n bytes.now) }
        ensures failed { OnErr result (self.new.written ≡ self.old.written) }
        ensures count { self.old.faults ≤ self.new.faults }
        ensures cause { HasCause result self.old.faults self.new.faults }
        ensures exact { SinkWrites self.old self.new bytes.now result }
    {
        self.calls = next_count(self.calls);
        if is_listed(&self.fails, self.calls) {
            self.faults = next_count(self.faults);
            return Err(Failed);
        }
        let count = self.piece.min(bytes.len());
        match self.written.append(&bytes[..count]) {
            Ok(()) => Ok(count),
            Err(_refused) => {
                self.starved = next_count(self.starved);
                self.faults = next_count(self.faults);
                Err(Failed)
            }
        }
    }
}
