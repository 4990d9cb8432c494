ghost use Rattle.std.specs.Prelude.{◌≡◌, ◌⊎◌, ◌^◌, ◌<◌, ◌≤◌, ℕ, length, Some, None, is_some, slice_index_or, IfOk, IfSome, OnOk, OnErr};
ghost use Rattle.slab.specs.Slab.{get, ContainsKey, Updates};
ghost use Rattle.hp_diagram.specs.Diagrams.{Has, Keeps, IsReduced};
ghost use Rattle.hp_quant.specs.Sweeps.{Reaches, IsCopy, AllCopied, AreMoved, IsSwept, HasRoots, HaveSameKeys};

use crate::memo::Memo;
use hp_diagram::{Ref, Table};
use slab::Slab;
use std::alloc::{AllocError, Global};

/// Keeps what the roots reach: they have their keys and functions, under new references, and all else goes, with every
/// answer that is kept. After an `Err` nothing changed.
pub fn sweep(alloc: Global, t: &mut Table, roots: &mut Slab<Ref>) -> Result<(), AllocError>
    requires { HasRoots t.old roots.old }
    ensures ok { OnOk result (IsSwept t.old t.new roots.old roots.new) }
    ensures err { OnErr result ((t.new ≡ t.old) × (roots.new ≡ roots.old)) }
{
    let Swept { table, moved } = move_roots(alloc, t, roots)?;
    write_roots(roots, &moved);
    *t = table;
    Ok(())
}

/// A table with copies of the roots, and the copies at the roots' keys.
struct Swept {
    table: Table,
    moved: Vec<Option<Ref>>,
}

fn move_roots(alloc: Global, t: &Table, roots: &Slab<Ref>) -> Result<Swept, AllocError>
    requires { HasRoots t.now roots.now }
    ensures moved { IfOk result (λ s. AreMoved t.now s.table roots.now s.moved.items (length s.moved.items)) }
    ensures keys { IfOk result (λ s. HaveSameKeys roots.now s.moved.items) }
{
    let mut table = Table::new(alloc, t.vars())?;
    let mut memo = Memo::new(alloc);
    let mut moved = Vec::new(alloc);
    for key in 0..roots.capacity() {
        let root = copy_root(t, &mut table, roots.get(key).copied(), &mut memo)?;
        moved.push(root)?;
    }
    Ok(Swept { table, moved })
}

/// The copy of a root, if there is one.
fn copy_root(
    from: &Table,
    to: &mut Table,
    root: Option<Ref>,
    memo: &mut Memo,
) -> Result<Option<Ref>, AllocError>
    requires has { IfSome root (Has from.now) }
    requires vars { to.old.vars ≡ from.now.vars }
    requires reduced { IsReduced to.old }
    requires right { AllCopied from.now to.old memo.old }
    ensures is_some { IfOk result (λ moved. is_some moved ≡ is_some root) }
    ensures ok { IfOk result (λ moved. (r s : Ref) → root ≡ Some r → moved ≡ Some s → IsCopy from.now to.new r s) }
    ensures reached { IfOk result (λ moved. (n : Ref) → Has to.new n
        → Has to.old n ⊎ ((s : Ref) × (moved ≡ Some s) × Reaches to.new s n)) }
    ensures keeps { Keeps to.old to.new }
    ensures right { AllCopied from.now to.new memo.new }
    ensures answers { to.new.answers ≡ to.old.answers }
{
    match root {
        Some(r) => {
            let s = copy(from, to, r, memo)?;
            Ok(Some(s))
        }
        None => Ok(None),
    }
}

/// The copy of a function in another table.
fn copy(from: &Table, to: &mut Table, r: Ref, memo: &mut Memo) -> Result<Ref, AllocError>
    requires has { Has from.now r }
    requires vars { to.old.vars ≡ from.now.vars }
    requires reduced { IsReduced to.old }
    requires right { AllCopied from.now to.old memo.old }
    ensures ok { IfOk result (IsCopy from.now to.new r) }
    ensures reached { IfOk result (λ s. (n : Ref) → Has to.new n → Has to.old n ⊎ Reaches to.new s n) }
    ensures keeps { Keeps to.old to.new }
    ensures right { AllCopied from.now to.new memo.new }
    ensures answers { to.new.answers ≡ to.old.answers }
{
    let Some(node) = from.branch(r) else {
        return Ok(r);
    };
    if let Some(s) = memo.get(r) {
        return Ok(s);
    }
    let low = copy(from, to, node.low, memo)?;
    let high = copy(from, to, node.high, memo)?;
    let s = to.node(node.var, low, high)?;
    memo.put(r, s)?;
    Ok(s)
}

/// Writes each copy at its key.
fn write_roots(roots: &mut Slab<Ref>, moved: &[Option<Ref>])
    requires { HaveSameKeys roots.old moved.now }
    ensures { (key : ℕ) → get roots.new key ≡ slice_index_or moved.now key None }
{
    for key in 0..moved.len() {
        if let Some(root) = moved[key] {
            write_root(roots, key, root);
        }
    }
}

fn write_root(roots: &mut Slab<Ref>, key: usize, root: Ref)
    ensures { ContainsKey roots.old key → Updates roots.old roots.new key (Some root) }
{
    if let Some(slot) = roots.get_mut(key) {
        *slot = root;
    }
}
