ghost use Rattle.std.specs.Prelude.{◌≡◌, ◌<◌, length, IfOk, IsOk};

use crate::{Failed, Sink};

/// A sink that never fails. It drops what it is given, and tells nothing of it.
#[derive(Debug, Drop)]
pub struct CalmSink;

impl CalmSink {
    pub fn new() -> CalmSink {
        CalmSink
    }
}

impl Sink for CalmSink {
    ghost use Rattle.std.specs.Prelude.{None, true, false};

    ghost took = { λ _. None };

    ghost faults = { λ _. record { count = 0; is_last = false; is_calm = true } };

    fn put(&mut self, piece: &[u8]) -> Result<usize, Failed>
        requires something { 0 < length piece.now }

        ensures never_fails { IsOk result }
        ensures whole { IfOk result (λ n. n ≡ length piece.now) }
    {
        Ok(piece.len())
    }
}
