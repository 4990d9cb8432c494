ghost use Rattle.std.specs.Prelude.{◌≡◌, ◌≢◌, ◌≤◌, ℕ, List, [], Option, None, length, option_map, IfErr, OnErr, OnOk, IsErrOf};
ghost use Rattle.std.specs.FinMap as map;
ghost use Rattle.hp_io.specs.Faults.{Faults, Rose, AllSame, NoneLast, NoneFell};
ghost use Rattle.hp_io.specs.Files.{Files, Holds, HoldsMoreThan, SameElsewhere, SameOrPrefix};
ghost use Rattle.hp_io.specs.Reads.{Reads, NothingRead, Gave, ReadFailed};
ghost use Rattle.hp_io.specs.Told.{Told, BothTold};

use crate::{ReadErr, WriteErr};

/// Files by name. A call counts a fault of its name exactly where it answers `Failed`.
pub trait Folder {
    /// What the files hold, by name, where the folder tells it.
    ghost files: { Self → Option Files };

    /// The reads that gave a file, where the folder tells them, and the faults of reads, by name.
    ghost reads: { Self → Reads };

    /// The faults of writes, by name.
    ghost write_faults: { Self → List ℕ → Faults };

    /// Reads a whole file of at most `limit` bytes.
    fn read(&mut self, name: &str, limit: usize, into: &mut Vec<u8>) -> Result<(), ReadErr>
        requires empty { into.old.items ≡ [] }

        ensures ok { OnOk result (Told (files self.old) (λ held. Holds held name.now into.new.items)) }
        ensures within { OnOk result (length into.new.items ≤ limit) }
        ensures absent { Told (files self.old)
            (λ held. map.get held name.now ≡ None → IsErrOf result ReadErr.Failed) }
        ensures limit { IfErr result (λ e. (n : ℕ) → e ≡ ReadErr.TooLong n → n ≡ limit) }
        ensures too_long { IfErr result (λ e. (n : ℕ) → e ≡ ReadErr.TooLong n →
            Told (files self.old) (λ held. HoldsMoreThan held name.now limit)) }
        ensures err { OnErr result (into.new.items ≡ []) }
        ensures files { files self.new ≡ files self.old }

        ensures gave { OnOk result (Gave (reads self.old) (reads self.new) name.now limit) }
        ensures cause { IsErrOf result ReadErr.Failed → ReadFailed (reads self.old) (reads self.new) name.now }
        ensures gave_nothing { IfErr result (λ e. e ≢ ReadErr.Failed → NothingRead (reads self.old) (reads self.new)) }
        ensures worked { (IsErrOf result ReadErr.Failed → ⊥) →
            NoneLast (reads self.new).faults × NoneLast (write_faults self.new) }
        ensures none_fell { NoneFell (reads self.old).faults (reads self.new).faults }
        ensures writes { AllSame (write_faults self.old) (write_faults self.new) };

    /// Puts these bytes under the name, in place of what is there. A write that fails may leave the first of them.
    fn write(&mut self, name: &str, bytes: &[u8]) -> Result<(), WriteErr>
        ensures ok { OnOk result (files self.new
            ≡ option_map (λ held. map.insert held name.now bytes.now) (files self.old)) }
        ensures elsewhere { OnErr result (BothTold (files self.old) (files self.new)
            (λ before after. SameElsewhere before after name.now)) }
        ensures here { OnErr result (BothTold (files self.old) (files self.new)
            (λ before after. SameOrPrefix before after name.now bytes.now)) }

        ensures cause { IsErrOf result WriteErr.Failed →
            Rose (write_faults self.old name.now) (write_faults self.new name.now) }
        ensures no_other_cause { (IsErrOf result WriteErr.Failed → ⊥) →
            AllSame (write_faults self.old) (write_faults self.new) }
        ensures worked { (IsErrOf result WriteErr.Failed → ⊥) →
            NoneLast (reads self.new).faults × NoneLast (write_faults self.new) }
        ensures none_fell { NoneFell (write_faults self.old) (write_faults self.new) }
        ensures reads { NothingRead (reads self.old) (reads self.new) };
}
