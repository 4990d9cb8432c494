ghost use Rattle.std.specs.Prelude.{◌≡◌, ◌⊎◌, ◌||◌, IfSome, IfOk};
ghost use Rattle.hp_diagram.specs.Diagrams.{Has, function, one_ref, Means, Keeps};
ghost use Rattle.hp_quant.specs.Turns.{WasFound};

use hp_diagram::{Ref, Table, one};
use std::alloc::{AllocError, Global};
use std::collections::HashMap;

/// Two functions of one table.
#[derive(Clone, Copy, Debug, PartialEq, Eq, Hash)]
pub(crate) struct Pair {
    pub f: Ref,
    pub g: Ref,
}

impl Pair {
    /// The two in the order of their references, since it is one whether `f` is joined to `g` or `g` to `f`.
    pub(crate) fn ordered(self) -> Pair
        ensures { (result ≡ self) ⊎ ((result.f ≡ self.g) × (result.g ≡ self.f)) }
    {
        if self.g.index < self.f.index {
            Pair {
                f: self.g,
                g: self.f,
            }
        } else {
            self
        }
    }

    /// The answer that one of the two functions gives alone: where it is true everywhere, so is the answer.
    pub(crate) fn settled(self) -> Option<Ref>
        ensures { IfSome result (λ r. ((r ≡ self.f) ⊎ (r ≡ self.g)) × (r ≡ one_ref)) }
    {
        if self.f == one() || self.g == one() {
            Some(one())
        } else {
            None
        }
    }

    /// The function that is true where one of the two is.
    pub(crate) fn join(self, t: &mut Table) -> Result<Ref, AllocError>
        requires f { Has t.old self.f }
        requires g { Has t.old self.g }
        ensures ok { IfOk result (Means t.new (λ v. function t.old self.f v || function t.old self.g v)) }
        ensures keeps { Keeps t.old t.new }
    {
        t.choose(self.f, one(), self.g)
    }
}

/// What one pass has found for each pair that it came to.
#[derive(Drop)]
pub(crate) struct Found {
    known: HashMap<Pair, Ref>,
}

impl Found {
    pub(crate) fn new(alloc: Global) -> Found
        ensures { (p : Pair) (s : Ref) → ¬ WasFound result p s }
    {
        Found {
            known: HashMap::new(alloc),
        }
    }

    /// What was found for the pair, if the pass came to it.
    pub(crate) fn get(&self, p: Pair) -> Option<Ref>
        ensures { IfSome result (WasFound self.now p) }
    {
        self.known.get(&p).copied()
    }

    /// Notes what was found for the pair.
    pub(crate) fn put(&mut self, p: Pair, s: Ref) -> Result<(), AllocError>
        ensures { (q : Pair) (r : Ref) → WasFound self.new q r → WasFound self.old q r ⊎ ((q ≡ p) × (r ≡ s)) }
    {
        self.known.insert(p, s)?;
        Ok(())
    }
}
