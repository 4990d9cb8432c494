ghost use Rattle.std.specs.Prelude.{◌≡◌, ◌≢◌, ◌≤◌, ◌++◌, ℕ, true, false, [], ◌∷◌, None, length, IfErr, IsErrOf, OnErr, OnOk};
ghost use Rattle.std.specs.FinMap as map;
ghost use Rattle.hp_io.specs.Faults.{Rose, AllSame, NoneFell};
ghost use Rattle.hp_io.specs.Files.{Holds, HoldsMoreThan};
ghost use Rattle.hp_io.specs.Memory.{files_of, names_of, calm_faults};

use crate::counts::raise;
use crate::entries::{give, held, put_file};
use crate::{Folder, ReadErr, WriteErr};
use std::marker::Model;

/// A folder in memory, which tells what its files hold. It fails nowhere but in reads of names that it does not hold: never
/// in writes, nor in reads of the files that it was made with.
#[derive(Debug, Drop)]
pub struct CalmFolder {
    files: Vec<(String, Vec<u8>)>,
    /// How many files it was made with. These stand in front.
    made: usize,
    gave: Vec<(String, usize)>,
    read_count: u64,
    has_failed: bool,
}

impl Model for CalmFolder {
    ghost use Rattle.std.specs.Prelude.{◌≤◌, length, take};
    ghost use Rattle.hp_io.specs.Memory.{CalmState, calm_code, files_of, names_of, readings_of};

    ghost Value = { CalmState };

    ghost coded = { calm_code };

    ghost view = { λ f. record {
      files = files_of f.files.items;
      made = take f.made (names_of f.files.items);
      gave = readings_of f.gave.items;
      read_faults = f.read_count;
      has_failed = f.has_failed;
    } };

    ghost invariant = { λ f. f.made ≤ length f.files.items };
}

impl CalmFolder {
    /// Where two files have one name, the first counts.
    pub fn new(files: Vec<(String, Vec<u8>)>) -> CalmFolder
        ensures files { result.files ≡ files_of files.items }
        ensures made { result.made ≡ names_of files.items }
        ensures gave { result.gave ≡ [] }
        ensures read_faults { result.read_faults ≡ 0 }
        ensures has_failed { result.has_failed ≡ false }
    {
        CalmFolder {
            gave: Vec::new(*files.allocator()),
            made: files.len(),
            files,
            read_count: 0,
            has_failed: false,
        }
    }
}

impl Folder for CalmFolder {
    ghost use Rattle.std.specs.Prelude.{Some};

    ghost files = { λ f. Some f.files };

    ghost reads = { λ f. record { gave = Some f.gave; faults = calm_faults f } };

    ghost write_faults = { λ f _. record { count = 0; is_last = f.has_failed; is_calm = true } };

    fn read(&mut self, name: &str, limit: usize, into: &mut Vec<u8>) -> Result<(), ReadErr>
        requires empty { into.old.items ≡ [] }

        ensures failed { IsErrOf result ReadErr.Failed → map.get self.old.files name.now ≡ None }
        ensures absent { map.get self.old.files name.now ≡ None → IsErrOf result ReadErr.Failed }
        ensures ok { OnOk result (Holds self.old.files name.now into.new.items) }
        ensures within { OnOk result (length into.new.items ≤ limit) }
        ensures limit { IfErr result (λ e. (n : ℕ) → e ≡ ReadErr.TooLong n → n ≡ limit) }
        ensures too_long { IfErr result (λ e. (n : ℕ) → e ≡ ReadErr.TooLong n →
            HoldsMoreThan self.old.files name.now limit) }
        ensures err { OnErr result (into.new.items ≡ []) }
        ensures files { self.new.files ≡ self.old.files }
        ensures made { self.new.made ≡ self.old.made }
        ensures gave { OnOk result (self.new.gave ≡ self.old.gave ++ (name.now, limit) ∷ []) }
        ensures gave_nothing { OnErr result (self.new.gave ≡ self.old.gave) }
        ensures cause { IsErrOf result ReadErr.Failed → Rose (calm_faults self.old name.now) (calm_faults self.new name.now) }
        ensures no_other_cause { (IsErrOf result ReadErr.Failed → ⊥) → AllSame (calm_faults self.old) (calm_faults self.new) }
        ensures none_fell { NoneFell (calm_faults self.old) (calm_faults self.new) }
        ensures worked { (IsErrOf result ReadErr.Failed → ⊥) → self.new.has_failed ≡ false }
    {
        self.has_failed = true;
        let Some(bytes) = held(&self.files, name) else {
            raise(&mut self.read_count);
            return Err(ReadErr::Failed);
        };
        self.has_failed = false;
        if bytes.len() > limit {
            return Err(ReadErr::TooLong { limit });
        }
        Ok(give(bytes, &mut self.gave, name, limit, into)?)
    }

    fn write(&mut self, name: &str, bytes: &[u8]) -> Result<(), WriteErr>
        ensures never_fails { IsErrOf result WriteErr.Failed → ⊥ }
        ensures ok { OnOk result (self.new.files ≡ map.insert self.old.files name.now bytes.now) }
        ensures err { OnErr result (self.new.files ≡ self.old.files) }
        ensures made { self.new.made ≡ self.old.made }
        ensures gave { self.new.gave ≡ self.old.gave }
        ensures reads { AllSame (calm_faults self.old) (calm_faults self.new) }
        ensures has_failed { self.new.has_failed ≡ false }
    {
        self.has_failed = false;
        Ok(put_file(&mut self.files, name, bytes)?)
    }
}
