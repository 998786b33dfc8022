ghost use Rattle.std.specs.Prelude.{◌≡◌, ◌<◌, ◌≤◌, ◌++◌, length, take, [], IfOk, OnErr};
ghost use Rattle.std.specs.Io.KnownBytes.{Consumes, IsAtEnd, Keeps};
ghost use Rattle.ext_text.specs.Causes.{HasCause};
ghost use Rattle.ext_io.specs.MemorySource.{Reads};

use crate::device::{Calls, copy_prefix, is_listed, next_count};
use crate::failed::Failed;
use crate::source::Source;
use ext_text::Text;
use std::marker::Model;

/// A text to read from, for tests: it gives few bytes a call, and fails where it is told to.
#[derive(Drop)]
pub struct MemorySource {
    text: Text,
    at: usize,
    piece: usize,
    fails: Calls,
    calls: u64,
    faults: u64,
}

impl Model for MemorySource {
    ghost use Rattle.std.specs.Prelude.{◌<◌, ◌≤◌, length, drop};
    ghost use Rattle.ext_io.specs.MemorySource.{SourceView};

    ghost Value = { SourceView };

    ghost view = { λ s. record {
      left = drop s.at s.text;
      piece = s.piece;
      fails = s.fails;
      calls = s.calls;
      faults = s.faults;
    } };

    ghost invariant = { λ s. (s.at ≤ length s.text) × (0 < s.piece) };
}

impl MemorySource {
    /// A source of a text that gives at most `piece` bytes a call, and whose calls of these numbers fail. Calls are counted
    /// from 1, and a count stands still at 18,446,744,073,709,551,615.
    pub fn new(left: Text, piece: usize, fails: Calls) -> MemorySource
        requires { 0 < piece }
        ensures { result ≡ record { left = left; piece = piece; fails = fails; calls = 0; faults = 0 } }
    {
        MemorySource {
            text: left,
            at: 0,
            piece,
            fails,
            calls: 0,
            faults: 0,
        }
    }
}

impl Source for MemorySource {
    ghost use Rattle.std.specs.Prelude.{Some};

    ghost state = { λ s. record { left = Some s.left; faults = s.faults } };

    /// Beside what each source promises: the call fails exactly where it is listed, and gives as many bytes as it may.
    fn read(&mut self, buf: &mut [u8]) -> Result<usize, Failed>
        requires { 0 < length buf.old }
        ensures within { IfOk result (λ n. n ≤ length buf.new) }
        ensures moved { IfOk result (λ n. self.old.left ≡ take n buf.new ++ self.new.left) }
        ensures end { IfOk result (λ n. n ≡ 0 → self.new.left ≡ []) }
        ensures failed { OnErr result (self.new.left ≡ self.old.left) }
        ensures count { self.old.faults ≤ self.new.faults }
        ensures cause { HasCause result self.old.faults self.new.faults }
        ensures exact { Reads self.old self.new (length buf.old) result }
    {
        self.calls = next_count(self.calls);
        if is_listed(&self.fails, self.calls) {
            self.faults = next_count(self.faults);
            return Err(Failed);
        }
        let count = copy_prefix(&self.text.bytes()[self.at..], buf, self.piece);
        self.at += count;
        Ok(count)
    }
}
