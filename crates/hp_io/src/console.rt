ghost use Rattle.std.specs.Prelude.{◌≡◌, ◌<◌, ◌≤◌, ◌⊎◌, ℕ, false, List, [], ◌∷◌, Option, length, take, IfOk, OnOk, OnErr};
ghost use Rattle.hp_io.specs.Faults.{Faults, Rose, Same, Worked};
ghost use Rattle.hp_io.specs.Told.{Told, Grows, Loses};

use crate::Failed;

/// What happens at a console.
#[derive(Clone, Copy, Debug, PartialEq, Eq)]
pub enum Event {
    /// The program asked for input.
    Asked,
    Heard(u8),
    /// The input came to its end.
    Ended,
    Said(u8),
}

/// Input in pieces of any size, and output. A call counts a fault exactly where it answers `Failed`.
pub trait Console {
    ghost use Rattle.hp_io.specs.Events.{take_events, put_events};
    ghost use Rattle.hp_io.specs.declared.console.Event.{Event};

    /// The bytes left to hear, where the console tells them.
    ghost left: { Self → Option (List ℕ) };

    /// What has happened, oldest first, where the console tells it.
    ghost events: { Self → Option (List Event) };

    /// The faults of takes.
    ghost take_faults: { Self → Faults };

    /// The faults of puts.
    ghost put_faults: { Self → Faults };

    /// Gives at least one byte, or 0 at the end of the input.
    fn take(&mut self, into: &mut [u8]) -> Result<usize, Failed>
        requires room { 0 < length into.old }

        ensures within { IfOk result (λ n. n ≤ length into.new) }
        ensures left { IfOk result (λ n. Loses (left self.old) (left self.new) (take n into.new)) }
        ensures end { IfOk result (λ n. n ≡ 0 → Told (left self.old) (λ rest. rest ≡ [])) }
        ensures events { IfOk result (λ n. Grows (events self.old) (events self.new) (take_events n into.new)) }
        ensures failed_left { OnErr result (left self.new ≡ left self.old) }
        ensures failed_events { OnErr result (Grows (events self.old) (events self.new) []
            ⊎ Grows (events self.old) (events self.new) (Event.Asked ∷ [])) }

        ensures cause { OnErr result (Rose (take_faults self.old) (take_faults self.new)) }
        ensures no_other_cause { OnOk result (Worked (take_faults self.old) (take_faults self.new)) }
        ensures puts { Same (put_faults self.old) (put_faults self.new) }
        ensures puts_worked { OnOk result ((put_faults self.new).is_last ≡ false) };

    /// Says the first bytes of a piece, at least one, and answers how many.
    fn put(&mut self, piece: &[u8]) -> Result<usize, Failed>
        requires something { 0 < length piece.now }

        ensures some { IfOk result (λ n. 1 ≤ n) }
        ensures within { IfOk result (λ n. n ≤ length piece.now) }
        ensures events { IfOk result (λ n. Grows (events self.old) (events self.new)
            (put_events (take n piece.now))) }
        ensures failed_events { OnErr result (events self.new ≡ events self.old) }
        ensures left { left self.new ≡ left self.old }

        ensures cause { OnErr result (Rose (put_faults self.old) (put_faults self.new)) }
        ensures no_other_cause { OnOk result (Worked (put_faults self.old) (put_faults self.new)) }
        ensures takes { Same (take_faults self.old) (take_faults self.new) }
        ensures takes_worked { OnOk result ((take_faults self.new).is_last ≡ false) };
}
