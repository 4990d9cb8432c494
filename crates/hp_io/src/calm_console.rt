ghost use Rattle.std.specs.Prelude.{◌≡◌, ◌<◌, ◌≤◌, ◌++◌, [], length, take, IfOk, IsOk};

use crate::mem_console::front;
use crate::{Console, Failed};
use std::marker::Model;

/// A console in memory that never fails. It tells the bytes left to hear, and drops what is said.
#[derive(Debug, Drop)]
pub struct CalmConsole {
    input: Vec<u8>,
    heard: usize,
}

impl Model for CalmConsole {
    ghost use Rattle.std.specs.Prelude.{◌≤◌, ℕ, List, drop, length};

    ghost Value = { List ℕ };

    ghost view = { λ c. drop c.heard c.input.items };

    ghost invariant = { λ c. c.heard ≤ length c.input.items };
}

impl CalmConsole {
    pub fn new(input: Vec<u8>) -> CalmConsole
        ensures { result ≡ input.items }
    {
        CalmConsole { input, heard: 0 }
    }
}

impl Console for CalmConsole {
    ghost use Rattle.std.specs.Prelude.{Some, None, true, false};

    ghost left = { λ c. Some c };

    ghost events = { λ _. None };

    ghost take_faults = { λ _. record { count = 0; is_last = false; is_calm = true } };

    ghost put_faults = { λ _. record { count = 0; is_last = false; is_calm = true } };

    fn take(&mut self, into: &mut [u8]) -> Result<usize, Failed>
        requires room { 0 < length into.old }

        ensures never_fails { IsOk result }
        ensures within { IfOk result (λ n. n ≤ length into.new) }
        ensures left { IfOk result (λ n. self.old ≡ take n into.new ++ self.new) }
        ensures end { IfOk result (λ n. n ≡ 0 → self.old ≡ []) }
    {
        let given = front(&self.input[self.heard..], into.len());
        into[..given.len()].copy_from_slice(given);
        self.heard += given.len();
        Ok(given.len())
    }

    fn put(&mut self, piece: &[u8]) -> Result<usize, Failed>
        requires something { 0 < length piece.now }

        ensures never_fails { IsOk result }
        ensures whole { IfOk result (λ n. n ≡ length piece.now) }
        ensures left { self.new ≡ self.old }
    {
        Ok(piece.len())
    }
}
