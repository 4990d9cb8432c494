//! The set of the next round.
ghost use Rattle.std.specs.Prelude.{◌≡◌, ◌+◌, ◌≤◌, ◌++◌, List, length, IfOk, OnOk};
ghost use Rattle.hp_diagram.specs.Diagrams.{Has, Means, Keeps};
ghost use Rattle.hp_boolx.specs.Game.{Game, IsForm, attract};
ghost use Rattle.hp_boolx.specs.Search.{Set};
ghost use Rattle.hp_synth.specs.Building.{HasEach};
ghost use Rattle.hp_synth.specs.Courses.{IsCourse};
ghost use Rattle.hp_synth.specs.Kept.{AllMean};
ghost use Rattle.hp_synth.specs.Rounds.{IsCounts};
ghost use Rattle.hp_synth.specs.Layouts.{place, IsLayout};
ghost use Rattle.hp_synth.specs.Sought.{base_at};
ghost use Rattle.hp_synth.specs.Valued.{Fun, over, OfState};

use crate::course::Course;
use crate::layout::Layout;
use crate::rounds::{round, sets_of};
use hp_diagram::{Ref, Table};
use std::alloc::{AllocError, Global};

/// The states from which a violation, or a set of states, can be forced by the next instant, in a table where variables stand at places.
pub fn next_set(
    alloc: Global,
    t: &mut Table,
    layout: &Layout,
    roots: &[Ref],
    x: Ref,
) -> Result<Ref, AllocError>
    requires layout { IsLayout t.old.vars layout.now }
    requires has { HasEach t.old roots.now }
    requires x { Has t.old x }
    requires roots { 5 + layout.now.counts.registers ≤ length roots.now }
    ensures has { IfOk result (Has t.new) }
    ensures ok { IfOk result (λ r. (g : Game) (X : Set) (rest : List Fun) → IsForm g → IsCounts g layout.now.counts → AllMean t.old (base_at (place layout.now) g ++ rest) roots.now
        → Means t.old (over (place layout.now) (OfState g X)) x → Means t.new (over (place layout.now) (OfState g (attract g X))) r) }
    ensures keeps { Keeps t.old t.new }
{
    let mut course = Course::new(alloc, t.vars(), layout, roots)?;
    further_set(alloc, t, layout, roots, &mut course, x)
}

/// The same, beside what was composed in the rounds before.
pub(crate) fn further_set(
    alloc: Global,
    t: &mut Table,
    layout: &Layout,
    roots: &[Ref],
    course: &mut Course,
    x: Ref,
) -> Result<Ref, AllocError>
    requires layout { IsLayout t.old.vars layout.now }
    requires has { HasEach t.old roots.now }
    requires x { Has t.old x }
    requires roots { 5 + layout.now.counts.registers ≤ length roots.now }
    requires course { IsCourse t.old layout.now roots.now course.old }
    ensures has { IfOk result (Has t.new) }
    ensures ok { IfOk result (λ r. (g : Game) (X : Set) (rest : List Fun) → IsForm g → IsCounts g layout.now.counts → AllMean t.old (base_at (place layout.now) g ++ rest) roots.now
        → Means t.old (over (place layout.now) (OfState g X)) x → Means t.new (over (place layout.now) (OfState g (attract g X))) r) }
    ensures keeps { Keeps t.old t.new }
    ensures course { OnOk result (IsCourse t.new layout.now roots.now course.new) }
{
    let sets = sets_of(roots);
    round(alloc, t, layout, sets, &course.by, &mut course.composed, x)
}
