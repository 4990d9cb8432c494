ghost use Rattle.std.specs.Prelude.{◌≡◌, ◌≤◌, ◌↔◌, IsTrue};
ghost use Rattle.hp_io.specs.Faults.{one_more};
ghost use Rattle.hp_io.specs.Memory.{IsDue};

/// Which calls of an object in memory are to fail, by their numbers from 1.
#[derive(Debug, Drop)]
pub struct Schedule {
    pub fails: Vec<u64>,
    pub calls: u64,
}

impl Schedule {
    pub fn new(fails: Vec<u64>) -> Schedule
        ensures fails { result.fails ≡ fails }
        ensures calls { result.calls ≡ 0 }
    {
        Schedule { fails, calls: 0 }
    }

    /// Counts one more call, and answers whether it is to fail.
    pub fn next_fails(&mut self) -> bool
        ensures due { IsTrue result ↔ IsDue self.old.fails.items self.old.calls }
        ensures fails { self.new.fails ≡ self.old.fails }
        ensures calls { self.new.calls ≡ one_more self.old.calls }
    {
        self.calls = self.calls.saturating_add(1);
        self.fails.contains(&self.calls)
    }
}

/// Counts one more fault. A count stays at its last value.
pub fn raise(count: &mut u64)
    ensures raised { count.new ≡ one_more count.old }
    ensures never_fell { count.old ≤ count.new }
{
    *count = count.saturating_add(1);
}
