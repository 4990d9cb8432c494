ghost use Rattle.std.specs.Prelude.{◌≡◌};
ghost use Rattle.hp_expand.specs.Sizes.{none, places, join, deeper, called};
ghost use Rattle.hp_expand.specs.Capped.{cap};

/// How much there is in a part of a program once its inlined calls are replaced. What is more than 64 bits can say is the most that
/// they can.
#[derive(Clone, Copy, Debug)]
pub struct Size {
    /// Declarations, occurrences of subexpressions and words of automata.
    pub places: u64,
    /// Levels of blocks in it.
    pub nest: u64,
    /// The instances of its plain calls, and all below them.
    pub instances: u64,
    /// The places of all of these.
    pub cells: u64,
    /// Nodes on the longest chain of plain calls that begins in it.
    pub calls: u64,
}

impl Size {
    pub fn none() -> Size
        ensures { result ≡ none }
    {
        Size {
            places: 0,
            nest: 0,
            instances: 0,
            cells: 0,
            calls: 0,
        }
    }

    #[tactic(auto, unfolding(crate::specs::Sizes::places, crate::specs::Capped::cap))]
    pub fn of_places(count: usize) -> Size
        ensures { result ≡ cap (places count) }
    {
        Size {
            places: count as u64,
            nest: 0,
            instances: 0,
            cells: 0,
            calls: 0,
        }
    }

    /// Two parts together.
    #[tactic(auto, unfolding(crate::specs::Sizes::join, crate::specs::Capped::cap))]
    pub fn join(self, other: Size) -> Size
        ensures { result ≡ cap (join self other) }
    {
        Size {
            places: self.places.saturating_add(other.places),
            nest: self.nest.max(other.nest),
            instances: self.instances.saturating_add(other.instances),
            cells: self.cells.saturating_add(other.cells),
            calls: self.calls.max(other.calls),
        }
    }

    /// An inner block with this in it.
    #[tactic(auto, unfolding(crate::specs::Sizes::deeper, crate::specs::Capped::cap))]
    pub fn deeper(self) -> Size
        ensures { result ≡ cap (deeper self) }
    {
        Size {
            nest: self.nest.saturating_add(1),
            ..self
        }
    }

    /// An instance of a node with this in it, and all instances below.
    #[tactic(auto, unfolding(crate::specs::Sizes::called, crate::specs::Capped::cap))]
    pub fn called(self) -> Size
        ensures { result ≡ cap (called self) }
    {
        Size {
            places: 0,
            nest: 0,
            instances: self.instances.saturating_add(1),
            cells: self.places.saturating_add(self.cells),
            calls: self.calls.saturating_add(1),
        }
    }
}
