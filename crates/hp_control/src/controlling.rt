//! The function of a control bit.
ghost use Rattle.std.specs.Prelude.{◌≡◌, ◌≢◌, ◌+◌, ◌<◌, ◌≤◌, ℕ, suc, length, Some, None, slice_index_or, IfOk, OnOk};
ghost use Rattle.hp_diagram.specs.Diagrams.{Has, Means, Keeps};
ghost use Rattle.hp_control.specs.Controlling.{IsOnly, put_in, AreLeft, bit_of};
ghost use Rattle.hp_boolx.specs.Game.{Game};
ghost use Rattle.hp_boolx.specs.Search.{Bits, Set};
ghost use Rattle.hp_synth.specs.Layouts.{place, IsLayout};
ghost use Rattle.hp_synth.specs.Rounds.{IsCounts};
ghost use Rattle.hp_synth.specs.Valued.{over, OfEarly, control_from, late_from};

use hp_diagram::{Ref, Table, one, zero};
use hp_quant::compose;
use hp_synth::{Layout, some_in};
use std::alloc::{AllocError, Global};

/// The replacement of one variable.
fn only(alloc: Global, vars: u16, k: u16, r: Ref) -> Result<Vec<Option<Ref>>, AllocError>
    requires { k < vars }
    ensures len { IfOk result (λ by. length by.items ≡ vars) }
    ensures only { IfOk result (λ by. IsOnly by.items k r) }
{
    let mut by = vec![in alloc; None; usize::from(vars)]?;
    by[usize::from(k)] = Some(r);
    Ok(by)
}

/// The function with a value for one variable.
pub fn with(alloc: Global, t: &mut Table, f: Ref, k: u16, r: Ref) -> Result<Ref, AllocError>
    requires f { Has t.old f }
    requires r { Has t.old r }
    requires k { k < t.old.vars }
    ensures ok { IfOk result (Means t.new (put_in t.old f k r)) }
    ensures keeps { Keeps t.old t.new }
{
    let vars = t.vars();
    let by = only(alloc, vars, k, r)?;
    compose(alloc, t, f, &by)
}

/// The function with another function in the place of one variable: chosen by that function from those where the variable is true, and where it is false. So no node
/// of `f` is made behind a test that does not lead to it.
pub fn put(alloc: Global, t: &mut Table, f: Ref, k: u16, r: Ref) -> Result<Ref, AllocError>
    requires f { Has t.old f }
    requires r { Has t.old r }
    requires k { k < t.old.vars }
    ensures ok { IfOk result (Means t.new (put_in t.old f k r)) }
    ensures keeps { Keeps t.old t.new }
{
    let high = with(alloc, t, f, k, one())?;
    let low = with(alloc, t, f, k, zero())?;
    t.ite(r, high, low)
}

/// The function of a control bit, in a table where variables stand at places: its preferred value, unless only the other one leaves a choice.
pub fn control_bit(
    alloc: Global,
    t: &mut Table,
    layout: &Layout,
    p: Ref,
    k: u16,
    prefer: bool,
) -> Result<Ref, AllocError>
    requires layout { IsLayout t.old.vars layout.now }
    requires p { Has t.old p }
    requires k { k < layout.now.counts.registers + layout.now.counts.early + layout.now.counts.control }
    ensures has { IfOk result (Has t.new) }
    ensures ok { IfOk result (λ r. (g : Game) (n : ℕ) (q : Bits → Bits → Set) → IsCounts g layout.now.counts → control_from g ≤ k
        → late_from g ≡ suc k + n → AreLeft g (place layout.now) t.old k (suc n) q p → Means t.new (over (place layout.now) (OfEarly g (λ s u. bit_of prefer n (q s u)))) r) }
    ensures keeps { Keeps t.old t.new }
{
    let late = t.vars() - layout.counts.late;
    let at = layout.place(k);
    let some = some_in(alloc, t, layout, p, k + 1, late)?;
    let high = with(alloc, t, some, at, one())?;
    let low = with(alloc, t, some, at, zero())?;
    let no_low = t.not(low)?;
    if prefer {
        t.or(high, no_low)
    } else {
        t.and(high, no_low)
    }
}
