//! The permitted choices.
ghost use Rattle.std.specs.Prelude.{◌≡◌, ◌+◌, ◌≤◌, not, length, IfOk};
ghost use Rattle.hp_diagram.specs.Diagrams.{Has, Means, Keeps};
ghost use Rattle.hp_boolx.specs.Game.{Game, IsForm, permitted, valid_choice, bad as bad_in};
ghost use Rattle.hp_boolx.specs.Machine.{game};
ghost use Rattle.hp_boolx.specs.Search.{Set};
ghost use Rattle.hp_synth.specs.Building.{HasEach};
ghost use Rattle.hp_synth.specs.Kept.{AllMean};
ghost use Rattle.hp_synth.specs.Layouts.{place, IsLayout};
ghost use Rattle.hp_synth.specs.Rounds.{IsCounts};
ghost use Rattle.hp_synth.specs.Sought.{base_at};
ghost use Rattle.hp_synth.specs.Valued.{all, Fun, through, over, OfState, OfChoice};

use hp_boolx::BoolMachine;
use hp_diagram::{Ref, Table};
use hp_synth::{Layout, Sets, all_in, bad, next_values, placed, prepare};
use std::alloc::{AllocError, Global};

/// The valid choices by which, whatever the late values are, nothing bad comes.
pub(crate) fn without_bad(
    alloc: Global,
    t: &mut Table,
    layout: &Layout,
    choices: Ref,
    worse: Ref,
) -> Result<Ref, AllocError>
    requires layout { IsLayout t.old.vars layout.now }
    requires choices { Has t.old choices }
    requires worse { Has t.old worse }
    ensures has { IfOk result (Has t.new) }
    ensures ok { IfOk result (λ r. (g : Game) (X : Set) → IsCounts g layout.now.counts → Means t.old (over (place layout.now) (OfChoice g (valid_choice g))) choices
        → Means t.old (λ v. bad_in g X (all g (through (place layout.now) v))) worse → Means t.new (over (place layout.now) (OfChoice g (permitted g X))) r) }
    ensures keeps { Keeps t.old t.new }
{
    let to = t.vars();
    let good = t.not(worse)?;
    let always = all_in(alloc, t, layout, good, to - layout.counts.late, to)?;
    t.and(choices, always)
}

/// The permitted choices, from the references of a machine that `prepare` gives and the states that are not to be reached, in a table where variables stand at places.
pub fn permitted_at(
    alloc: Global,
    t: &mut Table,
    layout: &Layout,
    roots: &[Ref],
    lost: Ref,
) -> Result<Ref, AllocError>
    requires layout { IsLayout t.old.vars layout.now }
    requires has { HasEach t.old roots.now }
    requires lost { Has t.old lost }
    requires roots { 5 + layout.now.counts.registers ≤ length roots.now }
    ensures has { IfOk result (Has t.new) }
    ensures ok { IfOk result (λ r. (g : Game) (X : Set) → IsForm g → IsCounts g layout.now.counts → AllMean t.old (base_at (place layout.now) g) roots.now
        → Means t.old (over (place layout.now) (OfState g X)) lost → Means t.new (over (place layout.now) (OfChoice g (permitted g X))) r) }
    ensures keeps { Keeps t.old t.new }
{
    let by = next_values(alloc, t.vars(), layout, roots)?;
    let sets = Sets {
        valid: roots[0],
        hyp: roots[1],
        duty: roots[2],
        choices: roots[3],
        earlies: roots[4],
    };
    let worse = bad(alloc, t, sets, &by, lost)?;
    without_bad(alloc, t, layout, sets.choices, worse)
}

/// All valuations but those of a function, in a table where variables stand at places. In this function each stands at the place of its own number.
fn others_at(alloc: Global, t: &mut Table, layout: &Layout, inv: Ref) -> Result<Ref, AllocError>
    requires layout { IsLayout t.old.vars layout.now }
    requires inv { Has t.old inv }
    ensures has { IfOk result (Has t.new) }
    ensures ok { IfOk result (λ r. (f : Fun) → Means t.old f inv → Means t.new (over (place layout.now) (λ v. not (f v))) r) }
    ensures keeps { Keeps t.old t.new }
{
    let here = placed(alloc, t, layout, &[inv])?;
    t.not(here[0])
}

/// The permitted choices of a machine, in a table where variables stand at places. These are its safe states, where each variable stands at the place of its own number.
pub fn permitted_choices(
    alloc: Global,
    t: &mut Table,
    m: &BoolMachine,
    layout: &Layout,
    inv: Ref,
) -> Result<Ref, AllocError>
    requires layout { IsLayout t.old.vars layout.now }
    requires counts { IsCounts (game m.now) layout.now.counts }
    requires inv { Has t.old inv }
    ensures has { IfOk result (Has t.new) }
    ensures ok { IfOk result (λ r. (X : Set) → Means t.old (OfState (game m.now) X) inv → Means t.new (over (place layout.now) (OfChoice (game m.now) (permitted (game m.now) (λ s. not (X s))))) r) }
    ensures keeps { Keeps t.old t.new }
{
    // The proof of `ok` opens the machine.
    let _vars = m.vars();
    let roots = prepare(alloc, m, layout, t)?;
    let lost = others_at(alloc, t, layout, inv)?;
    permitted_at(alloc, t, layout, &roots, lost)
}
