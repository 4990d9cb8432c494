ghost use Rattle.std.specs.Prelude.{◌≡◌, false};

use crate::counts::raise;
use crate::tries::write_once;
use crate::{Failed, Sink};
use std::io;
use std::marker::Model;

/// A sink that prints, as standard error does. Contracts see it as its count of faults, and whether the
/// last call failed.
#[derive(Drop)]
pub struct RealSink<P: Print> {
    to: P,
    count: u64,
    has_failed: bool,
}

impl<P: Print> Model for RealSink<P> {
    ghost use Rattle.hp_io.specs.Real.{SinkCount};

    ghost Value = { SinkCount };

    ghost view = { λ s. record { faults = s.count; has_failed = s.has_failed } };
}

impl<P: Print> RealSink<P> {
    pub fn new(to: P) -> RealSink<P>
        ensures faults { result.faults ≡ 0 }
        ensures has_failed { result.has_failed ≡ false }
    {
        RealSink {
            to,
            count: 0,
            has_failed: false,
        }
    }
}

impl<P: Print> Sink for RealSink<P> {
    ghost use Rattle.std.specs.Prelude.{None, false};

    ghost took = { λ _. None };

    ghost faults = { λ s. record { count = s.faults; is_last = s.has_failed; is_calm = false } };

    fn put(&mut self, piece: &[u8]) -> Result<usize, Failed> {
        let put = write_once(&mut io::writer(&self.to), piece);
        self.has_failed = put.is_err();
        if self.has_failed {
            raise(&mut self.count);
        }
        put
    }
}
