ghost use Rattle.std.specs.Prelude.{◌≡◌, false};

use crate::counts::raise;
use crate::tries::{read_once, write_once};
use crate::{Console, Failed};
use std::io;
use std::marker::Model;

/// Standard input and output. Contracts see it as its counts of faults, and whether the last call failed.
#[derive(Drop)]
pub struct RealConsole<R: Input + Print> {
    rt: R,
    input: R::Reader,
    take_count: u64,
    put_count: u64,
    has_failed: bool,
}

impl<R: Input + Print> Model for RealConsole<R> {
    ghost use Rattle.hp_io.specs.Real.{ConsoleCounts};

    ghost Value = { ConsoleCounts };

    ghost view = { λ c. record { take_faults = c.take_count; put_faults = c.put_count; has_failed = c.has_failed } };
}

impl<R: Input + Print> RealConsole<R> {
    pub fn new(rt: R) -> RealConsole<R>
        ensures take_faults { result.take_faults ≡ 0 }
        ensures put_faults { result.put_faults ≡ 0 }
        ensures has_failed { result.has_failed ≡ false }
    {
        RealConsole {
            input: rt.reader(),
            rt,
            take_count: 0,
            put_count: 0,
            has_failed: false,
        }
    }
}

impl<R: Input + Print> Console for RealConsole<R> {
    ghost use Rattle.std.specs.Prelude.{None, false};

    ghost left = { λ _. None };

    ghost events = { λ _. None };

    ghost take_faults = { λ c. record { count = c.take_faults; is_last = c.has_failed; is_calm = false } };

    ghost put_faults = { λ c. record { count = c.put_faults; is_last = c.has_failed; is_calm = false } };

    fn take(&mut self, into: &mut [u8]) -> Result<usize, Failed> {
        let took = read_once(&mut self.input, into);
        self.has_failed = took.is_err();
        if self.has_failed {
            raise(&mut self.take_count);
        }
        took
    }

    fn put(&mut self, piece: &[u8]) -> Result<usize, Failed> {
        let put = write_once(&mut io::writer(&self.rt), piece);
        self.has_failed = put.is_err();
        if self.has_failed {
            raise(&mut self.put_count);
        }
        put
    }
}
