//! The early values by which every choice loses, as diagrams.
ghost use Rattle.std.specs.Prelude.{◌≡◌, ◌+◌, ◌≤◌, ◌&&◌, length, IfOk};
ghost use Rattle.hp_diagram.specs.Diagrams.{Has, Means, Keeps};
ghost use Rattle.hp_boolx.specs.Game.{Game, IsForm, bad as bad_in, loses, valid_choice, valid_early};
ghost use Rattle.hp_boolx.specs.Search.{Set};
ghost use Rattle.hp_synth.specs.Building.{HasEach};
ghost use Rattle.hp_synth.specs.Kept.{AllMean};
ghost use Rattle.hp_synth.specs.Layouts.{place, IsLayout};
ghost use Rattle.hp_synth.specs.Rounds.{IsCounts};
ghost use Rattle.hp_synth.specs.Sought.{base_at};
ghost use Rattle.hp_synth.specs.Valued.{all, through, over, OfState, OfEarly, OfChoice};

use hp_diagram::{Ref, Table};
use hp_synth::{Layout, Sets, all_in, bad, next_values, some_in};
use std::alloc::{AllocError, Global};

/// The valuations by which a violation comes at once, or by which a state of the set comes.
pub fn worse(
    alloc: Global,
    t: &mut Table,
    layout: &Layout,
    roots: &[Ref],
    x: Ref,
) -> Result<Ref, AllocError>
    requires layout { IsLayout t.old.vars layout.now }
    requires has { HasEach t.old roots.now }
    requires x { Has t.old x }
    requires roots { 5 + layout.now.counts.registers ≤ length roots.now }
    ensures has { IfOk result (Has t.new) }
    ensures ok { IfOk result (λ r. (g : Game) (X : Set) → IsForm g → IsCounts g layout.now.counts → AllMean t.old (base_at (place layout.now) g) roots.now
        → Means t.old (over (place layout.now) (OfState g X)) x → Means t.new (λ v. bad_in g X (all g (through (place layout.now) v))) r) }
    ensures keeps { Keeps t.old t.new }
{
    let by = next_values(alloc, t.vars(), layout, roots)?;
    let sets = Sets {
        valid: roots[0],
        hyp: roots[1],
        duty: roots[2],
        choices: roots[3],
        earlies: roots[4],
    };
    bad(alloc, t, sets, &by, x)
}

/// The valid early values after which, whatever the choice is, some late values are among the worse valuations.
pub fn forcing(
    alloc: Global,
    t: &mut Table,
    layout: &Layout,
    choices: Ref,
    earlies: Ref,
    worse: Ref,
) -> Result<Ref, AllocError>
    requires layout { IsLayout t.old.vars layout.now }
    requires choices { Has t.old choices }
    requires earlies { Has t.old earlies }
    requires worse { Has t.old worse }
    ensures has { IfOk result (Has t.new) }
    ensures ok { IfOk result (λ r. (g : Game) (X : Set) → IsCounts g layout.now.counts → Means t.old (over (place layout.now) (OfChoice g (valid_choice g))) choices
        → Means t.old (over (place layout.now) (OfEarly g (valid_early g))) earlies → Means t.old (λ v. bad_in g X (all g (through (place layout.now) v))) worse
        → Means t.new (over (place layout.now) (OfEarly g (λ r u. valid_early g r u && loses g X r u))) r) }
    ensures keeps { Keeps t.old t.new }
{
    let to = t.vars();
    let late = to - layout.counts.late;
    let answered = some_in(alloc, t, layout, worse, late, to)?;
    let invalid = t.not(choices)?;
    let either = t.or(invalid, answered)?;
    let lost = all_in(alloc, t, layout, either, late - layout.counts.control, late)?;
    t.and(earlies, lost)
}
