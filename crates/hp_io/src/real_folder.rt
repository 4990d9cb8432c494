ghost use Rattle.std.specs.Prelude.{◌≡◌, ◌≤◌, ℕ, false, [], length, IfErr, OnOk};

use crate::counts::raise;
use crate::tries::{open, read_whole, write_whole};
use crate::{Failed, Folder, ReadErr, WriteErr};
use std::fs::OpenOptions;
use std::marker::Model;
use std::rt::Files;

/// The files of the system. Contracts see it as its counts of faults, each one for all names, and whether the
/// last call failed.
#[derive(Drop)]
pub struct RealFolder<R: Files> {
    rt: R,
    read_count: u64,
    write_count: u64,
    has_failed: bool,
}

impl<R: Files> Model for RealFolder<R> {
    ghost use Rattle.hp_io.specs.Real.{FolderCounts};

    ghost Value = { FolderCounts };

    ghost view = { λ f. record { read_faults = f.read_count; write_faults = f.write_count; has_failed = f.has_failed } };
}

impl<R: Files> RealFolder<R> {
    pub fn new(rt: R) -> RealFolder<R>
        ensures read_faults { result.read_faults ≡ 0 }
        ensures write_faults { result.write_faults ≡ 0 }
        ensures has_failed { result.has_failed ≡ false }
    {
        RealFolder {
            rt,
            read_count: 0,
            write_count: 0,
            has_failed: false,
        }
    }
}

fn read_file<R: Files>(rt: &R, name: &str, limit: usize, into: &mut Vec<u8>) -> Result<(), ReadErr>
    requires { into.old.items ≡ [] }
    ensures within { OnOk result (length into.new.items ≤ limit) }
    ensures limit { IfErr result (λ e. (n : ℕ) → e ≡ ReadErr.TooLong n → n ≡ limit) }
{
    let mut file = open(rt, OpenOptions::new().read(true), name)?;
    read_whole(&mut file, limit, into)
}

fn write_file<R: Files>(rt: &R, name: &str, bytes: &[u8]) -> Result<(), Failed> {
    let mut options = OpenOptions::new();
    let mut file = open(rt, options.write(true).create(true).truncate(true), name)?;
    write_whole(&mut file, bytes)
}

impl<R: Files> Folder for RealFolder<R> {
    ghost use Rattle.std.specs.Prelude.{None, false};

    ghost files = { λ _. None };

    ghost reads = { λ f. record { gave = None; faults = λ _. record { count = f.read_faults; is_last = f.has_failed; is_calm = false } } };

    ghost write_faults = { λ f _. record { count = f.write_faults; is_last = f.has_failed; is_calm = false } };

    fn read(&mut self, name: &str, limit: usize, into: &mut Vec<u8>) -> Result<(), ReadErr> {
        let read = read_file(&self.rt, name, limit, into);
        if read.is_err() {
            into.clear();
        }
        self.has_failed = read == Err(ReadErr::Failed);
        if self.has_failed {
            raise(&mut self.read_count);
        }
        read
    }

    fn write(&mut self, name: &str, bytes: &[u8]) -> Result<(), WriteErr> {
        self.has_failed = write_file(&self.rt, name, bytes).is_err();
        if self.has_failed {
            raise(&mut self.write_count);
            return Err(WriteErr::Failed);
        }
        Ok(())
    }
}
