//! A table that is swept.
ghost use Rattle.std.specs.Prelude.{◌≡◌, ◌<◌, ◌++◌, ◌∷◌, [], ℕ, List, length, get_or, IfOk, OnOk};
ghost use Rattle.slab.specs.Slab.{ContainsKey};
ghost use Rattle.hp_diagram.specs.declared.reference.Ref.{Ref as RefSeen};
ghost use Rattle.hp_synth.specs.Building.{HasEach};
ghost use Rattle.hp_synth.specs.Kept.{AreSwept};
ghost use Rattle.hp_synth.specs.Rooted.{AreRooted, AreAt};

use hp_diagram::{Ref, Table};
use hp_quant::sweep;
use slab::Slab;
use std::alloc::{AllocError, Global};

/// References under keys.
#[derive(Drop)]
struct Roots {
    slab: Slab<Ref>,
    keys: Vec<usize>,
}

fn add_root(roots: &mut Roots, r: Ref) -> Result<(), AllocError>
    ensures { (refs : List RefSeen) → AreRooted roots.old.slab roots.old.keys.items refs → OnOk result (AreRooted roots.new.slab roots.new.keys.items (refs ++ r ∷ [])) }
{
    match roots.slab.insert(r) {
        Ok(key) => roots.keys.push(key)?,
        Err(_) => return Err(AllocError),
    }
    Ok(())
}

/// The references, each under a key.
fn rooted(alloc: Global, refs: &[Ref]) -> Result<Roots, AllocError>
    ensures { IfOk result (λ roots. AreRooted roots.slab roots.keys.items refs.now) }
{
    let mut roots = Roots {
        slab: Slab::new(alloc),
        keys: Vec::new(alloc),
    };
    for i in 0..refs.len() {
        add_root(&mut roots, refs[i])?;
    }
    Ok(roots)
}

/// The references under these keys.
fn at_keys(alloc: Global, slab: &Slab<Ref>, keys: &[usize]) -> Result<Vec<Ref>, AllocError>
    requires { (i : ℕ) → i < length keys.now → ContainsKey slab.now (get_or keys.now i 0) }
    ensures { IfOk result (λ refs. AreAt slab.now keys.now refs.items) }
{
    let mut refs = Vec::new(alloc);
    for i in 0..keys.len() {
        refs.push(slab[keys[i]])?;
    }
    Ok(refs)
}

/// Takes from the table all that these references do not reach, and gives the references of their functions.
pub fn swept(alloc: Global, t: &mut Table, refs: &[Ref]) -> Result<Vec<Ref>, AllocError>
    requires { HasEach t.old refs.now }
    ensures { IfOk result (λ after. AreSwept t.old t.new refs.now after.items) }
{
    let mut roots = rooted(alloc, refs)?;
    sweep(alloc, t, &mut roots.slab)?;
    at_keys(alloc, &roots.slab, &roots.keys)
}
