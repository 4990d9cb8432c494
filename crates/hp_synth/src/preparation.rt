//! What the rounds of a solver work on.
ghost use Rattle.std.specs.Prelude.{◌≡◌, ◌+◌, ◌<◌, ◌++◌, All, length, map, slice_index_or, IfOk, OnOk};
ghost use Rattle.hp_diagram.specs.Diagrams.{Has, Means, Keeps, zero_ref};
ghost use Rattle.hp_boolx.specs.Game.{Game, valid_choice, valid_early};
ghost use Rattle.hp_boolx.specs.Machine.{game};
ghost use Rattle.hp_synth.specs.Building.{HasEach, AreGates};
ghost use Rattle.hp_synth.specs.Kept.{AllMean};
ghost use Rattle.hp_synth.specs.Rounds.{IsCounts};
ghost use Rattle.hp_synth.specs.Layouts.{place, IsLayout};
ghost use Rattle.hp_synth.specs.Sought.{base_at};
ghost use Rattle.hp_synth.specs.Valued.{all, over, OfChoice, OfEarly};

use crate::building::gate_diagrams;
use crate::layout::Layout;
use crate::quantifying::some_in;
use hp_boolx::BoolMachine;
use hp_diagram::{Ref, Table};
use std::alloc::{AllocError, Global};

/// The valid choices, and the valid early values.
fn valid_values(
    alloc: Global,
    t: &mut Table,
    layout: &Layout,
    valid: Ref,
) -> Result<(Ref, Ref), AllocError>
    requires layout { IsLayout t.old.vars layout.now }
    requires has { Has t.old valid }
    ensures choices { IfOk result (λ r. (g : Game) → IsCounts g layout.now.counts → Means t.old (over (place layout.now) (λ v. g.valid (all g v))) valid → Means t.new (over (place layout.now) (OfChoice g (valid_choice g))) r.0) }
    ensures earlies { IfOk result (λ r. (g : Game) → IsCounts g layout.now.counts → Means t.old (over (place layout.now) (λ v. g.valid (all g v))) valid → Means t.new (over (place layout.now) (OfEarly g (valid_early g))) r.1) }
    ensures keeps { Keeps t.old t.new }
{
    let to = t.vars();
    let late = to - layout.counts.late;
    let choices = some_in(alloc, t, layout, valid, late, to)?;
    let earlies = some_in(
        alloc,
        t,
        layout,
        choices,
        late - layout.counts.control,
        late,
    )?;
    Ok((choices, earlies))
}

/// Adds the references of some gates.
fn add_gates(numbers: &[usize], gates: &[Ref], roots: &mut Vec<Ref>) -> Result<(), AllocError>
    requires { All (λ k. k < length gates.now) numbers.now }
    ensures { OnOk result (roots.new.items ≡ roots.old.items ++ map (λ k. slice_index_or gates.now k zero_ref) numbers.now) }
{
    for i in 0..numbers.len() {
        roots.push(gates[numbers[i]])?;
    }
    Ok(())
}

/// From the references of the gates.
fn prepare_gates(
    alloc: Global,
    m: &BoolMachine,
    layout: &Layout,
    t: &mut Table,
    gates: &[Ref],
) -> Result<Vec<Ref>, AllocError>
    requires layout { IsLayout t.old.vars layout.now }
    requires counts { IsCounts (game m.now) layout.now.counts }
    requires len { length gates.now ≡ length m.now.gates }
    requires gates { AreGates (game m.now) (place layout.now) t.old m.now.gates gates.now }
    ensures ok { IfOk result (λ roots. AllMean t.new (base_at (place layout.now) (game m.now)) roots.items) }
    ensures keeps { Keeps t.old t.new }
{
    let valid = gates[m.valid];
    let (choices, earlies) = valid_values(alloc, t, layout, valid)?;
    let first = [valid, gates[m.hyp], gates[m.duty], choices, earlies];
    let mut roots = Vec::from_slice(alloc, &first)?;
    add_gates(&m.next, gates, &mut roots)?;
    Ok(roots)
}

/// The references of what is valid, the hypothesis, the duty, the valid choices, the valid early values, and the next value of each register, in a table where
/// variables stand at places.
pub fn prepare(
    alloc: Global,
    m: &BoolMachine,
    layout: &Layout,
    t: &mut Table,
) -> Result<Vec<Ref>, AllocError>
    requires layout { IsLayout t.old.vars layout.now }
    requires counts { IsCounts (game m.now) layout.now.counts }
    ensures keeps { Keeps t.old t.new }
    ensures ok { IfOk result (λ roots. AllMean t.new (base_at (place layout.now) (game m.now)) roots.items) }
{
    let gates = gate_diagrams(alloc, &m.gates, layout, t)?;
    prepare_gates(alloc, m, layout, t, &gates)
}
