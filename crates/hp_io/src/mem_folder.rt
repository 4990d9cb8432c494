ghost use Rattle.std.specs.Prelude.{◌≡◌, ◌≢◌, ◌<◌, ◌≤◌, ◌⊎◌, ◌↔◌, ◌++◌, ℕ, true, false, [], ◌∷◌, None, length, option_copied, IfErr, IsErrOf, OnErr, OnOk};
ghost use Rattle.std.specs.FinMap as map;
ghost use Rattle.hp_io.specs.Faults.{one_more};
ghost use Rattle.hp_io.specs.Files.{Holds, HoldsMoreThan};
ghost use Rattle.hp_io.specs.Memory.{IsDue, files_of};

use crate::counts::{Schedule, raise};
use crate::entries::{give, held, put_file};
use crate::{Folder, ReadErr, WriteErr};
use std::marker::Model;

/// A folder in memory, which tells what its files hold and which reads gave one.
#[derive(Debug, Drop)]
pub struct MemFolder {
    files: Vec<(String, Vec<u8>)>,
    gave: Vec<(String, usize)>,
    schedule: Schedule,
    read_count: u64,
    write_count: u64,
    has_failed: bool,
}

impl Model for MemFolder {
    ghost use Rattle.hp_io.specs.Memory.{FolderState, folder_code, files_of, readings_of};

    ghost Value = { FolderState };

    ghost coded = { folder_code };

    ghost view = { λ f. record {
      files = files_of f.files.items;
      gave = readings_of f.gave.items;
      fails = f.schedule.fails.items;
      calls = f.schedule.calls;
      read_faults = f.read_count;
      write_faults = f.write_count;
      has_failed = f.has_failed;
    } };
}

impl MemFolder {
    /// Where two files have one name, the first counts. `fails` has the numbers, from 1 over all calls, of those that
    /// are to fail.
    pub fn new(files: Vec<(String, Vec<u8>)>, fails: Vec<u64>) -> MemFolder
        ensures files { result.files ≡ files_of files.items }
        ensures gave { result.gave ≡ [] }
        ensures fails { result.fails ≡ fails.items }
        ensures calls { result.calls ≡ 0 }
        ensures read_faults { result.read_faults ≡ 0 }
        ensures write_faults { result.write_faults ≡ 0 }
        ensures has_failed { result.has_failed ≡ false }
    {
        MemFolder {
            gave: Vec::new(*files.allocator()),
            files,
            schedule: Schedule::new(fails),
            read_count: 0,
            write_count: 0,
            has_failed: false,
        }
    }

    /// What a file holds.
    pub fn file(&self, name: &str) -> Option<&[u8]>
        ensures { option_copied result ≡ map.get self.now.files name.now }
    {
        held(&self.files, name)
    }
}

impl Folder for MemFolder {
    ghost use Rattle.std.specs.Prelude.{Some};

    ghost files = { λ f. Some f.files };

    ghost reads = { λ f. record { gave = Some f.gave; faults = λ _. record { count = f.read_faults; is_last = f.has_failed; is_calm = false } } };

    ghost write_faults = { λ f _. record { count = f.write_faults; is_last = f.has_failed; is_calm = false } };

    fn read(&mut self, name: &str, limit: usize, into: &mut Vec<u8>) -> Result<(), ReadErr>
        requires empty { into.old.items ≡ [] }

        ensures due { IsDue self.old.fails self.old.calls → IsErrOf result ReadErr.Failed }
        ensures failed { IsErrOf result ReadErr.Failed →
            IsDue self.old.fails self.old.calls ⊎ (map.get self.old.files name.now ≡ None) }
        ensures ok { OnOk result (Holds self.old.files name.now into.new.items) }
        ensures within { OnOk result (length into.new.items ≤ limit) }
        ensures absent { map.get self.old.files name.now ≡ None → IsErrOf result ReadErr.Failed }
        ensures limit { IfErr result (λ e. (n : ℕ) → e ≡ ReadErr.TooLong n → n ≡ limit) }
        ensures too_long { IfErr result (λ e. (n : ℕ) → e ≡ ReadErr.TooLong n →
            HoldsMoreThan self.old.files name.now limit) }
        ensures err { OnErr result (into.new.items ≡ []) }
        ensures files { self.new.files ≡ self.old.files }
        ensures gave { OnOk result (self.new.gave ≡ self.old.gave ++ (name.now, limit) ∷ []) }
        ensures gave_nothing { OnErr result (self.new.gave ≡ self.old.gave) }

        ensures fails { self.new.fails ≡ self.old.fails }
        ensures calls { self.new.calls ≡ one_more self.old.calls }
        ensures cause { IsErrOf result ReadErr.Failed → self.new.read_faults ≡ one_more self.old.read_faults }
        ensures no_other_cause { (IsErrOf result ReadErr.Failed → ⊥) → self.new.read_faults ≡ self.old.read_faults }
        ensures has_failed { IsErrOf result ReadErr.Failed → self.new.has_failed ≡ true }
        ensures worked { (IsErrOf result ReadErr.Failed → ⊥) → self.new.has_failed ≡ false }
        ensures none_fell { self.old.read_faults ≤ self.new.read_faults }
        ensures writes { self.new.write_faults ≡ self.old.write_faults }
    {
        self.has_failed = true;
        if self.schedule.next_fails() {
            raise(&mut self.read_count);
            return Err(ReadErr::Failed);
        }
        let Some(bytes) = held(&self.files, name) else {
            raise(&mut self.read_count);
            return Err(ReadErr::Failed);
        };
        self.has_failed = false;
        if bytes.len() > limit {
            return Err(ReadErr::TooLong { limit });
        }
        Ok(give(bytes, &mut self.gave, name, limit, into)?)
    }

    fn write(&mut self, name: &str, bytes: &[u8]) -> Result<(), WriteErr>
        ensures failed { IsErrOf result WriteErr.Failed ↔ IsDue self.old.fails self.old.calls }
        ensures ok { OnOk result (self.new.files ≡ map.insert self.old.files name.now bytes.now) }
        ensures err { OnErr result (self.new.files ≡ self.old.files) }
        ensures gave { self.new.gave ≡ self.old.gave }

        ensures fails { self.new.fails ≡ self.old.fails }
        ensures calls { self.new.calls ≡ one_more self.old.calls }
        ensures cause { IsErrOf result WriteErr.Failed → self.new.write_faults ≡ one_more self.old.write_faults }
        ensures no_other_cause { (IsErrOf result WriteErr.Failed → ⊥) → self.new.write_faults ≡ self.old.write_faults }
        ensures has_failed { IsErrOf result WriteErr.Failed → self.new.has_failed ≡ true }
        ensures worked { (IsErrOf result WriteErr.Failed → ⊥) → self.new.has_failed ≡ false }
        ensures none_fell { self.old.write_faults ≤ self.new.write_faults }
        ensures reads { self.new.read_faults ≡ self.old.read_faults }
    {
        self.has_failed = true;
        if self.schedule.next_fails() {
            raise(&mut self.write_count);
            return Err(WriteErr::Failed);
        }
        self.has_failed = false;
        Ok(put_file(&mut self.files, name, bytes)?)
    }
}
