//! The diagrams of gates.
ghost use Rattle.std.specs.Prelude.{◌≡◌, length, IfOk};
ghost use Rattle.hp_diagram.specs.Diagrams.{Has, Means, Keeps};
ghost use Rattle.hp_boolx.specs.Game.{Game};
ghost use Rattle.hp_boolx.specs.Machine.{AreFit, GateFits};
ghost use Rattle.hp_synth.specs.Valued.{total};
ghost use Rattle.hp_synth.specs.Building.{gate_function, HasEach, AreGates};
ghost use Rattle.hp_synth.specs.Layouts.{place, IsLayout};

use crate::layout::Layout;
use hp_boolx::Gate;
use hp_diagram::{Ref, Table, one, zero};
use std::alloc::{AllocError, Global};

/// The diagram of a gate, from those of the gates before it.
fn gate_diagram(t: &mut Table, layout: &Layout, refs: &[Ref], gate: Gate) -> Result<Ref, AllocError>
    requires layout { IsLayout t.old.vars layout.now }
    requires refs { HasEach t.old refs.now }
    requires fits { GateFits t.old.vars (length refs.now) gate }
    ensures ok { IfOk result (Means t.new (λ v. gate_function (place layout.now) t.old refs.now v gate)) }
    ensures keeps { Keeps t.old t.new }
{
    let _vars = t.vars();
    match gate {
        Gate::Const(b) => Ok(if b { one() } else { zero() }),
        Gate::Var(x) => t.var(layout.place(x)),
        Gate::Not(i) => t.not(refs[i]),
        Gate::And(i, j) => t.and(refs[i], refs[j]),
        Gate::Or(i, j) => t.or(refs[i], refs[j]),
        Gate::Xor(i, j) => {
            let other = t.not(refs[j])?;
            t.ite(refs[i], other, refs[j])
        }
        Gate::Ite(i, j, k) => t.ite(refs[i], refs[j], refs[k]),
    }
}

/// The diagrams of all gates, one by one.
pub(crate) fn gate_diagrams(
    alloc: Global,
    gates: &[Gate],
    layout: &Layout,
    t: &mut Table,
) -> Result<Vec<Ref>, AllocError>
    requires layout { IsLayout t.old.vars layout.now }
    requires fits { AreFit t.old.vars 0 gates.now }
    ensures len { IfOk result (λ refs. length refs.items ≡ length gates.now) }
    ensures has { IfOk result (λ refs. HasEach t.new refs.items) }
    ensures keeps { Keeps t.old t.new }
    ensures ok { IfOk result (λ refs. (g : Game) → total g ≡ t.old.vars → AreGates g (place layout.now) t.new gates.now refs.items) }
{
    let _vars = t.vars();
    let mut refs = Vec::with_capacity(alloc, gates.len())?;
    for i in 0..gates.len() {
        let r = gate_diagram(t, layout, &refs, gates[i])?;
        refs.push(r)?;
    }
    Ok(refs)
}
