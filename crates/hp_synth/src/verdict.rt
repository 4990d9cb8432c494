use hp_diagram::{Ref, Table};

/// The safe states, or the states from which a violation is forced in one instant, in two, and so on to the least number for the initial state.
#[derive(Debug, Drop)]
pub enum Verdict {
    Win { inv: Ref },
    Lose { ranks: Vec<Ref> },
}

/// A verdict, and the table that its references are of.
#[derive(Drop)]
pub struct Solved {
    pub table: Table,
    pub verdict: Verdict,
}
