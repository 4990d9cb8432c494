ghost use Rattle.std.specs.Prelude.{◌≡◌, ◌<◌, ◌≤◌, ℕ, List, Option, length, take, IfOk, OnOk, OnErr};
ghost use Rattle.hp_io.specs.Faults.{Faults, Rose, Worked};
ghost use Rattle.hp_io.specs.Told.{Grows};

use crate::Failed;

/// Takes diagnostics. A call counts a fault exactly where it answers `Failed`.
pub trait Sink {
    /// The bytes that it took, where it tells them.
    ghost took: { Self → Option (List ℕ) };

    /// The faults of puts.
    ghost faults: { Self → Faults };

    /// Takes the first bytes of a piece, at least one, and answers how many.
    fn put(&mut self, piece: &[u8]) -> Result<usize, Failed>
        requires something { 0 < length piece.now }

        ensures some { IfOk result (λ n. 1 ≤ n) }
        ensures within { IfOk result (λ n. n ≤ length piece.now) }
        ensures took { IfOk result (λ n. Grows (took self.old) (took self.new) (take n piece.now)) }
        ensures failed_took { OnErr result (took self.new ≡ took self.old) }

        ensures cause { OnErr result (Rose (faults self.old) (faults self.new)) }
        ensures no_other_cause { OnOk result (Worked (faults self.old) (faults self.new)) };
}
