//! Clocks that are known in part, as cells of an array: they share their lower parts.
ghost use Rattle.std.specs.Prelude.{◌≡◌, ◌+◌, ◌<◌, ◌≤◌, length, OnOk, IfOk};
ghost use Rattle.std.specs.Prelude.{[], ◌∷◌, ◌++◌, ⊤};
ghost use Rattle.hp_clocks.specs.Cells.{AreCells, Clocks, Fits, IsEnd, AreEnds, Meets, Never, StandsAbove, Tells, end_at, told, told_at, unknown};
ghost use Rattle.hp_clocks.specs.declared.cell.Failure.TheVariants as Failure;
ghost use Rattle.hp_clocks.specs.declared.cell.Cell.TheVariants as Cell;
ghost use Rattle.std.specs.Prelude.{Err};

use hp_base::Name;
use hp_tree::Cons;
use std::alloc::{AllocError, Global};

/// A clock that is known in part.
#[derive(Clone, Copy)]
pub enum Cell<'a> {
    /// Nothing is known of it. The number of clocks that it stands for, itself among them.
    Open(usize),
    /// It is the clock of another cell.
    Same(usize),
    Base,
    /// The instants of the clock of another cell at which the variable has the constructor.
    On(&'a Cons, &'a Name, usize),
}

/// Clocks clash, or memory is wanting.
pub enum Failure {
    Clash,
    OutOfMemory,
}

impl From<AllocError> for Failure {
    ghost use Rattle.std.specs.Prelude.{◌≡◌};
    ghost use Rattle.hp_clocks.specs.declared.cell.Failure.TheVariants.{OutOfMemory};

    ghost from_gives = { λ _ e. e ≡ OutOfMemory };

    fn from(_: AllocError) -> Failure {
        Failure::OutOfMemory
    }
}

/// Where two clocks are walked down together.
#[derive(Clone, Copy)]
pub enum Meeting {
    /// They are different.
    Clash,
    Equal,
    /// They are equal where these are, of which one is open or the base clock.
    Ends(usize, usize),
}

/// The cells of a node. The first one is the base clock.
#[derive(Drop)]
pub struct Cells<'a> {
    pub cells: Vec<Cell<'a>>,
}

/// The cell of the base clock.
pub const BASE: usize = 0;

impl<'a> Cells<'a> {
    #[tactic(auto, using(crate::proofs::Rules::first_cell))]
    pub fn new(alloc: Global) -> Result<Cells<'a>, AllocError>
        ensures are_cells { IfOk result (λ cells. AreCells cells.cells.items) }
        ensures base { IfOk result (λ cells. cells.cells.items ≡ Cell.Base ∷ []) }
    {
        let mut cells = Vec::new(alloc);
        cells.push(Cell::Base)?;
        Ok(Cells { cells })
    }

    /// What is told of the clock.
    #[tactic(auto, using(crate::proofs::Rules::cells))]
    pub fn cell(&self, number: usize) -> Cell<'a>
        requires { number < length self.now.cells.items }
        ensures { told_at self.now.cells.items number ≡ told result }
    {
        self.cells[number]
    }

    /// The cell that tells the clock, which is not the same as another one.
    #[tactic(auto, using(crate::proofs::Rules::cells))]
    pub fn find(&self, number: usize) -> usize
        requires are_cells { AreCells self.now.cells.items }
        requires there { number < length self.now.cells.items }
        ensures there { result < length self.now.cells.items }
        ensures end { IsEnd (told_at self.now.cells.items result) }
        ensures same { (at : Clocks) → Fits (told_at self.now.cells.items) at → at result ≡ at number }
    {
        let mut found = number;
        while let Cell::Same(next) = self.cell(found) {
            found = next;
        }
        found
    }

    fn add(&mut self, cell: Cell<'a>) -> Result<usize, AllocError>
        ensures number { IfOk result (λ number. number ≡ length self.old.cells.items) }
        ensures cells { OnOk result (self.new.cells.items ≡ self.old.cells.items ++ (cell.entry ∷ [])) }
    {
        let number = self.cells.len();
        self.cells.push(cell)?;
        Ok(number)
    }

    /// A clock of which nothing is known.
    #[tactic(auto, using(crate::proofs::Rules::added))]
    pub fn add_open(&mut self) -> Result<usize, AllocError>
        requires { AreCells self.old.cells.items }
        ensures there { IfOk result (λ number. number < length self.new.cells.items) }
        ensures length { OnOk result (length self.new.cells.items ≡ length self.old.cells.items + 1) }
        ensures tells { OnOk result (Tells self.old.cells.items self.new.cells.items (λ at. ⊤)) }
    {
        self.add(Cell::Open(1))
    }

    /// One step on top of a clock.
    #[tactic(auto, using(crate::proofs::Rules::added))]
    pub fn add_on(
        &mut self,
        cons: &'a Cons,
        name: &'a Name,
        under: usize,
    ) -> Result<usize, AllocError>
        requires are_cells { AreCells self.old.cells.items }
        requires there { under < length self.old.cells.items }
        ensures number { IfOk result (λ number. number ≡ length self.old.cells.items) }
        ensures there { IfOk result (λ number. number < length self.new.cells.items) }
        ensures tells { IfOk result (λ number. Tells self.old.cells.items self.new.cells.items (λ at. at number ≡ (cons.now, name.now) ∷ at under)) }
    {
        self.add(Cell::On(cons, name, under))
    }

    /// The open clock, or the base clock, on which a clock stands.
    #[tactic(auto, using(crate::proofs::Rules::cells))]
    pub fn end(&self, number: usize) -> usize
        requires are_cells { AreCells self.now.cells.items }
        requires there { number < length self.now.cells.items }
        ensures end { result ≡ end_at self.now.cells.items number }
    {
        let mut found = number;
        loop {
            match self.cell(found) {
                Cell::Same(next) | Cell::On(_, _, next) => found = next,
                Cell::Open(_) | Cell::Base => return found,
            }
        }
    }

    /// Walks down both clocks, as long as they have the same steps.
    #[tactic(auto, using(crate::proofs::Rules::meetings))]
    pub fn meet(&self, a: usize, b: usize) -> Meeting
        requires are_cells { AreCells self.now.cells.items }
        requires left { a < length self.now.cells.items }
        requires right { b < length self.now.cells.items }
        ensures { Meets self.now.cells.items a b result }
    {
        let mut left = a;
        let mut right = b;
        while left != right {
            match (self.cell(left), self.cell(right)) {
                (Cell::Same(next), _) => left = next,
                (_, Cell::Same(next)) => right = next,
                (Cell::On(cons, name, under), Cell::On(other_cons, other_name, other)) => {
                    if !(cons.same(other_cons) && name.same(other_name)) {
                        return Meeting::Clash;
                    }
                    left = under;
                    right = other;
                }
                _ => return Meeting::Ends(left, right),
            }
        }
        Meeting::Equal
    }

    /// Binds an open cell to a clock, unless the clock stands on it by a step or more.
    #[tactic(auto, using(crate::proofs::Rules::bound))]
    fn bind(&mut self, bound: usize, clock: usize) -> Result<(), Failure>
        requires are_cells { AreCells self.old.cells.items }
        requires bound_there { bound < length self.old.cells.items }
        requires clock_there { clock < length self.old.cells.items }
        requires bound_open { told_at self.old.cells.items bound ≡ unknown }
        requires apart { StandsAbove (told_at self.old.cells.items clock) }
        ensures tells { OnOk result (Tells self.old.cells.items self.new.cells.items (λ at. at bound ≡ at clock)) }
        ensures clash { result ≡ Err Failure.Clash → Never self.old.cells.items (λ at. at bound ≡ at clock) }
    {
        if self.end(clock) == bound {
            return Err(Failure::Clash);
        }
        self.cells[bound] = Cell::Same(clock);
        Ok(())
    }

    /// Makes two open cells one. The one that stands for fewer is bound, so that few links are to be followed.
    #[tactic(auto, using(crate::proofs::Rules::joined))]
    fn join(&mut self, a: usize, a_count: usize, b: usize, b_count: usize)
        requires are_cells { AreCells self.old.cells.items }
        requires a_there { a < length self.old.cells.items }
        requires b_there { b < length self.old.cells.items }
        requires a_open { told_at self.old.cells.items a ≡ unknown }
        requires b_open { told_at self.old.cells.items b ≡ unknown }
        requires differ { a ≡ b → ⊥ }
        ensures { Tells self.old.cells.items self.new.cells.items (λ at. at a ≡ at b) }
    {
        let count = a_count.saturating_add(b_count);
        if a_count < b_count {
            self.cells[b] = Cell::Open(count);
            self.cells[a] = Cell::Same(b);
        } else {
            self.cells[a] = Cell::Open(count);
            self.cells[b] = Cell::Same(a);
        }
    }

    /// Makes two clocks equal that have met.
    #[tactic(auto, using(crate::proofs::Rules::unified))]
    fn unify_ends(&mut self, left: usize, right: usize) -> Result<(), Failure>
        requires are_cells { AreCells self.old.cells.items }
        requires left_there { left < length self.old.cells.items }
        requires right_there { right < length self.old.cells.items }
        requires differ { left ≡ right → ⊥ }
        requires ends { AreEnds (told_at self.old.cells.items left) (told_at self.old.cells.items right) }
        ensures tells { OnOk result (Tells self.old.cells.items self.new.cells.items (λ at. at left ≡ at right)) }
        ensures clash { result ≡ Err Failure.Clash → Never self.old.cells.items (λ at. at left ≡ at right) }
    {
        match (self.cell(left), self.cell(right)) {
            (Cell::Open(count), Cell::Open(other_count)) => {
                self.join(left, count, right, other_count);
                Ok(())
            }
            (Cell::Open(_), _) => self.bind(left, right),
            (_, Cell::Open(_)) => self.bind(right, left),
            (Cell::Base, Cell::Base) => Ok(()),
            _ => Err(Failure::Clash),
        }
    }

    /// Makes two clocks equal. Where that fails nothing is known of the cells.
    #[tactic(auto, using(crate::proofs::Rules::unified))]
    pub fn unify(&mut self, a: usize, b: usize) -> Result<(), Failure>
        requires are_cells { AreCells self.old.cells.items }
        requires left { a < length self.old.cells.items }
        requires right { b < length self.old.cells.items }
        ensures tells { OnOk result (Tells self.old.cells.items self.new.cells.items (λ at. at a ≡ at b)) }
        ensures clash { result ≡ Err Failure.Clash → Never self.old.cells.items (λ at. at a ≡ at b) }
    {
        match self.meet(a, b) {
            Meeting::Clash => Err(Failure::Clash),
            Meeting::Equal => Ok(()),
            Meeting::Ends(left, right) => self.unify_ends(left, right),
        }
    }
}
