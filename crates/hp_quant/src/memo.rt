ghost use Rattle.std.specs.Prelude.{◌≡◌, ◌⊎◌, ◌^◌, IfSome};

use hp_diagram::Ref;
use std::alloc::{AllocError, Global};
use std::collections::HashMap;

/// What passes over diagrams have found for each reference that they came to.
#[derive(Drop)]
pub struct Memo {
    known: HashMap<usize, Ref>,
}

impl Memo {
    ghost use Rattle.hp_quant.specs.Memo.{Knows};

    /// Nothing is found yet.
    pub fn new(alloc: Global) -> Memo
        ensures { (r s : Ref) → ¬ Knows result r s }
    {
        Memo {
            known: HashMap::new(alloc),
        }
    }

    /// What was found for the reference, if the pass came to it.
    pub(crate) fn get(&self, r: Ref) -> Option<Ref>
        ensures { IfSome result (Knows self.now r) }
    {
        self.known.get(&r.index).copied()
    }

    /// Notes what was found for the reference.
    pub(crate) fn put(&mut self, r: Ref, s: Ref) -> Result<(), AllocError>
        ensures { (q p : Ref) → Knows self.new q p → Knows self.old q p ⊎ ((q ≡ r) × (p ≡ s)) }
    {
        self.known.insert(r.index, s)?;
        Ok(())
    }
}
