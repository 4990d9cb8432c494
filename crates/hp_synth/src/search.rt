//! The rounds of a solver.
ghost use Rattle.std.specs.Prelude.{◌≡◌, ◌+◌, ◌≤◌, ◌++◌, ℕ, length, IfOk, OnOk};
ghost use Rattle.hp_diagram.specs.Diagrams.{valuation, Has, Means};
ghost use Rattle.hp_boolx.specs.Game.{Game, IsForm};
ghost use Rattle.hp_boolx.specs.Machine.{game};
ghost use Rattle.hp_synth.specs.Building.{HasEach};
ghost use Rattle.hp_synth.specs.Courses.{IsCourse};
ghost use Rattle.hp_synth.specs.Kept.{AllMean, AreCarried};
ghost use Rattle.hp_synth.specs.Rounds.{IsCounts};
ghost use Rattle.hp_synth.specs.Layouts.{place, IsLayout};
ghost use Rattle.hp_synth.specs.Playing.{Ends};
ghost use Rattle.hp_synth.specs.Sought.{Stands, Went, base_at, rounds};
ghost use Rattle.hp_synth.specs.Valued.{states, through};

use crate::course::Course;
use crate::layout::Layout;
use crate::next::further_set;
use crate::played::End;
use crate::sweep::swept;
use hp_boolx::BoolMachine;
use hp_diagram::{Ref, Table, zero};
use std::alloc::{AllocError, Global};

/// What a round comes to.
#[derive(Clone, Copy, Debug)]
enum Progress {
    /// The set is that of the round before.
    Stopped,
    /// The initial state is in the set.
    Reached,
    /// There is another round from this set.
    Next(Ref),
}

/// How many nodes a table may have before it is swept between rounds. Until then answers that were found in one round help in the next.
const MANY: usize = 1 << 20;

/// References of the same functions, of which the table is swept if it has become large; then nothing is composed yet.
fn tidied(
    alloc: Global,
    layout: &Layout,
    t: &mut Table,
    roots: &mut Vec<Ref>,
    course: &mut Course,
) -> Result<(), AllocError>
    requires layout { IsLayout t.old.vars layout.now }
    requires has { HasEach t.old roots.old.items }
    requires roots { 5 + layout.now.counts.registers ≤ length roots.old.items }
    requires course { IsCourse t.old layout.now roots.old.items course.old }
    ensures carried { OnOk result (AreCarried t.old t.new roots.old.items roots.new.items) }
    ensures course { OnOk result (IsCourse t.new layout.now roots.new.items course.new) }
{
    if t.len() > MANY {
        *roots = swept(alloc, t, roots)?;
        *course = Course::new(alloc, t.vars(), layout, roots)?;
    }
    Ok(())
}

/// One round, from this set.
fn advance(
    alloc: Global,
    layout: &Layout,
    t: &mut Table,
    roots: &mut Vec<Ref>,
    course: &mut Course,
    x: Ref,
    init: &[bool],
) -> Result<Progress, AllocError>
    requires layout { IsLayout t.old.vars layout.now }
    requires has { HasEach t.old roots.old.items }
    requires x { Has t.old x }
    requires roots { 5 + layout.now.counts.registers ≤ length roots.old.items }
    requires values { t.old.vars ≤ length init.now }
    requires course { IsCourse t.old layout.now roots.old.items course.old }
    ensures vars { OnOk result (t.new.vars ≡ t.old.vars) }
    ensures course { OnOk result (IsCourse t.new layout.now roots.new.items course.new) }
    ensures went { IfOk result (λ s. (g : Game) (n : ℕ) → IsForm g → IsCounts g layout.now.counts → states g (through (place layout.now) (valuation init.now)) ≡ g.init
        → Stands (place layout.now) g t.old roots.old.items x n → Went (place layout.now) g x n t.new roots.new.items s) }
{
    let y = further_set(alloc, t, layout, roots, course, x)?;
    if t.same(x, y) {
        return Ok(Progress::Stopped);
    }
    roots.push(y)?;
    if t.value(y, init) {
        return Ok(Progress::Reached);
    }
    tidied(alloc, layout, t, roots, course)?;
    Ok(Progress::Next(roots[roots.len() - 1]))
}

/// Goes from round to round until the set stops or has the initial state. It gives the end, and what was composed on the way.
pub(crate) fn search(
    alloc: Global,
    m: &BoolMachine,
    layout: &Layout,
    t: &mut Table,
    roots: &mut Vec<Ref>,
    init: &[bool],
) -> Result<(End, Course), AllocError>
    requires layout { IsLayout t.old.vars layout.now }
    requires counts { IsCounts (game m.now) layout.now.counts }
    requires roots { AllMean t.old (base_at (place layout.now) (game m.now)) roots.old.items }
    requires values { t.old.vars ≤ length init.now }
    requires init { states (game m.now) (through (place layout.now) (valuation init.now)) ≡ m.now.init }
    ensures vars { OnOk result (t.new.vars ≡ t.old.vars) }
    ensures course { IfOk result (λ r. IsCourse t.new layout.now roots.new.items r.1) }
    ensures ended { IfOk result (λ r. (n : ℕ) × AllMean t.new (base_at (place layout.now) (game m.now) ++ rounds (place layout.now) (game m.now) n) roots.new.items
        × Ends (game m.now) (place layout.now) t.new n r.0) }
{
    // The proof wants the machine's form.
    let _vars = m.vars();
    let mut x = zero();
    let mut course = Course::new(alloc, t.vars(), layout, roots)?;
    loop {
        match advance(alloc, layout, t, roots, &mut course, x, init)? {
            Progress::Stopped => return Ok((End::Won { lost: x }, course)),
            Progress::Reached => return Ok((End::Lost, course)),
            Progress::Next(y) => x = y,
        }
    }
}
