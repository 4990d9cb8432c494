//! One round of the solver.
ghost use Rattle.std.specs.Prelude.{◌≡◌, ◌≤◌, ◌||◌, length, IfOk, OnOk};
ghost use Rattle.hp_diagram.specs.Diagrams.{Has, function, Means, Keeps};
ghost use Rattle.hp_quant.specs.Replacements.{AllComposed, HasAll};
ghost use Rattle.hp_boolx.specs.Search.{Bits, Set};
ghost use Rattle.hp_boolx.specs.Game.{Game, attract};
ghost use Rattle.hp_synth.specs.Layouts.{place, IsLayout};
ghost use Rattle.hp_synth.specs.Valued.{Valued, over, OfState};
ghost use Rattle.hp_synth.specs.Rounds.{HasSets, bad_of, at_once_of, later_of, of_all, alternating, IsCounts, AreSets, sets_in};

use crate::layout::Layout;
use crate::quantifying::{all_in, either_from, some_in};
use hp_diagram::{Ref, Table};
use hp_quant::{Memo, compose_with};
use std::alloc::{AllocError, Global};

/// The gates of a machine and what is valid, as diagrams.
#[derive(Clone, Copy)]
pub struct Sets {
    pub valid: Ref,
    pub hyp: Ref,
    pub duty: Ref,
    pub choices: Ref,
    pub earlies: Ref,
}

/// The gates and what is valid, of the references of a solver.
pub(crate) fn sets_of(roots: &[Ref]) -> Sets
    requires { 5 ≤ length roots.now }
    ensures { result ≡ sets_in roots.now }
{
    Sets {
        valid: roots[0],
        hyp: roots[1],
        duty: roots[2],
        choices: roots[3],
        earlies: roots[4],
    }
}

/// The valuations by which a violation comes at once, or by which the set comes.
pub fn bad(
    alloc: Global,
    t: &mut Table,
    sets: Sets,
    by: &[Option<Ref>],
    x: Ref,
) -> Result<Ref, AllocError>
    requires sets { HasSets t.old sets }
    requires x { Has t.old x }
    requires replacements { HasAll t.old by.now }
    requires each { length by.now ≡ t.old.vars }
    ensures ok { IfOk result (Means t.new (bad_of t.old sets by.now x)) }
    ensures keeps { Keeps t.old t.new }
{
    bad_beside(t, sets, by, &mut Memo::new(alloc), x)
}

/// The same, beside what was composed before with the same replacements.
pub(crate) fn bad_beside(
    t: &mut Table,
    sets: Sets,
    by: &[Option<Ref>],
    composed: &mut Memo,
    x: Ref,
) -> Result<Ref, AllocError>
    requires sets { HasSets t.old sets }
    requires x { Has t.old x }
    requires replacements { HasAll t.old by.now }
    requires each { length by.now ≡ t.old.vars }
    requires right { AllComposed t.old by.now composed.old }
    ensures ok { IfOk result (Means t.new (bad_of t.old sets by.now x)) }
    ensures keeps { Keeps t.old t.new }
{
    let after = compose_with(t, x, by, composed)?;
    let kept = t.not(sets.duty)?;
    let fails = t.or(kept, after)?;
    let both = t.and(sets.hyp, fails)?;
    t.and(sets.valid, both)
}

/// The valuations by which, after valid early values, no valid choice comes, or a violation at once.
fn at_once(t: &mut Table, sets: Sets) -> Result<Ref, AllocError>
    requires { HasSets t.old sets }
    ensures ok { IfOk result (Means t.new (at_once_of t.old sets)) }
    ensures keeps { Keeps t.old t.new }
{
    let fails = t.not(sets.duty)?;
    let meant = t.and(sets.hyp, fails)?;
    let violates = t.and(sets.valid, meant)?;
    let invalid = t.not(sets.choices)?;
    let either = t.or(invalid, violates)?;
    t.and(sets.earlies, either)
}

/// The valid valuations of the hypothesis after which the set comes.
fn later(
    t: &mut Table,
    sets: Sets,
    by: &[Option<Ref>],
    composed: &mut Memo,
    x: Ref,
) -> Result<Ref, AllocError>
    requires sets { HasSets t.old sets }
    requires x { Has t.old x }
    requires replacements { HasAll t.old by.now }
    requires each { length by.now ≡ t.old.vars }
    requires right { AllComposed t.old by.now composed.old }
    ensures ok { IfOk result (Means t.new (later_of t.old sets by.now x)) }
    ensures keeps { Keeps t.old t.new }
    ensures right { OnOk result (AllComposed t.new by.now composed.new) }
{
    let meant = t.and(sets.valid, sets.hyp)?;
    let after = compose_with(t, x, by, composed)?;
    t.and(meant, after)
}

/// The states from which a violation, or the set, can be forced by the next instant; what was composed before with the same replacements is not composed again.
pub(crate) fn round(
    alloc: Global,
    t: &mut Table,
    layout: &Layout,
    sets: Sets,
    by: &[Option<Ref>],
    composed: &mut Memo,
    x: Ref,
) -> Result<Ref, AllocError>
    requires layout { IsLayout t.old.vars layout.now }
    requires sets { HasSets t.old sets }
    requires x { Has t.old x }
    requires replacements { HasAll t.old by.now }
    requires each { length by.now ≡ t.old.vars }
    requires right { AllComposed t.old by.now composed.old }
    ensures has { IfOk result (Has t.new) }
    ensures ok { IfOk result (λ r. (g : Game) (X : Set) → IsCounts g layout.now.counts → AreSets (place layout.now) t.old sets by.now g
        → Means t.old (over (place layout.now) (OfState g X)) x → Means t.new (over (place layout.now) (OfState g (attract g X))) r) }
    ensures keeps { Keeps t.old t.new }
    ensures right { OnOk result (AllComposed t.new by.now composed.new) }
{
    let now = at_once(t, sets)?;
    let then = later(t, sets, by, composed, x)?;
    alternate(alloc, t, layout, now, then)
}

/// The states in which, for some early values, whatever the controls are, some late values make one of the two true.
fn alternate(
    alloc: Global,
    t: &mut Table,
    layout: &Layout,
    now: Ref,
    then: Ref,
) -> Result<Ref, AllocError>
    requires layout { IsLayout t.old.vars layout.now }
    requires now { Has t.old now }
    requires then { Has t.old then }
    ensures has { IfOk result (Has t.new) }
    ensures ok { IfOk result (λ r. (g : Game) (F : Bits → Bits → Bits → Set) → IsCounts g layout.now.counts
        → ((v : Valued) → (function t.old now v || function t.old then v) ≡ over (place layout.now) (of_all g F) v)
        → Means t.new (over (place layout.now) (OfState g (alternating g F))) r) }
    ensures keeps { Keeps t.old t.new }
{
    let counts = layout.counts;
    let late = t.vars() - counts.late;
    let control = late - counts.control;
    let some = either_from(alloc, t, layout, now, then, late)?;
    let all = all_in(alloc, t, layout, some, control, late)?;
    some_in(alloc, t, layout, all, counts.registers, control)
}
