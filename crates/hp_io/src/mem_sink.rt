ghost use Rattle.std.specs.Prelude.{◌≡◌, ◌<◌, ◌≤◌, ◌++◌, [], length, Some, is_err, false, IfOk, OnOk, OnErr, IsErr};
ghost use Rattle.hp_io.specs.Faults.{one_more};
ghost use Rattle.hp_io.specs.Memory.{IsDue};

use crate::counts::{Schedule, raise};
use crate::{Failed, Sink};
use std::marker::Model;

/// A sink in memory. It takes each piece whole, and tells all of it.
#[derive(Debug, Drop)]
pub struct MemSink {
    bytes: Vec<u8>,
    schedule: Schedule,
    count: u64,
    has_failed: bool,
}

impl Model for MemSink {
    ghost use Rattle.hp_io.specs.Memory.{SinkState};

    ghost Value = { SinkState };

    ghost view = { λ s. record {
      took = s.bytes.items;
      fails = s.schedule.fails.items;
      calls = s.schedule.calls;
      faults = s.count;
      has_failed = s.has_failed;
    } };
}

impl MemSink {
    /// `fails` has the numbers, from 1, of the calls that are to fail.
    pub fn new(fails: Vec<u64>) -> MemSink
        ensures took { result.took ≡ [] }
        ensures fails { result.fails ≡ fails.items }
        ensures calls { result.calls ≡ 0 }
        ensures faults { result.faults ≡ 0 }
        ensures has_failed { result.has_failed ≡ false }
    {
        MemSink {
            bytes: Vec::new(*fails.allocator()),
            schedule: Schedule::new(fails),
            count: 0,
            has_failed: false,
        }
    }

    pub fn bytes(&self) -> &[u8]
        ensures { result.now ≡ self.now.took }
    {
        self.bytes.as_slice()
    }
}

impl Sink for MemSink {
    ghost took = { λ s. Some s.took };

    ghost faults = { λ s. record { count = s.faults; is_last = s.has_failed; is_calm = false } };

    fn put(&mut self, piece: &[u8]) -> Result<usize, Failed>
        requires something { 0 < length piece.now }

        ensures due { IsDue self.old.fails self.old.calls → IsErr result }
        ensures whole { IfOk result (λ n. n ≡ length piece.now) }
        ensures took { OnOk result (self.new.took ≡ self.old.took ++ piece.now) }
        ensures failed_took { OnErr result (self.new.took ≡ self.old.took) }
        ensures fails { self.new.fails ≡ self.old.fails }
        ensures calls { self.new.calls ≡ one_more self.old.calls }
        ensures cause { OnErr result (self.new.faults ≡ one_more self.old.faults) }
        ensures no_other_cause { OnOk result (self.new.faults ≡ self.old.faults) }
        ensures has_failed { self.new.has_failed ≡ is_err result }
    {
        self.has_failed = true;
        if self.schedule.next_fails() || self.bytes.extend_from_slice(piece).is_err() {
            raise(&mut self.count);
            return Err(Failed);
        }
        self.has_failed = false;
        Ok(piece.len())
    }
}
