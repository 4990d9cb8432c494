//! The steps of a certificate, as diagrams of a table where variables stand at places.
ghost use Rattle.std.specs.Prelude.{◌≡◌, ◌+◌, ◌<◌, ◌≤◌, ◌↔◌, ◌⊎◌, ℕ, not, List, map, Some, None, IsTrue, length, slice_index_or, IfOk};
ghost use Rattle.hp_boolx.specs.Game.{Game, IsForm, permitted};
ghost use Rattle.hp_boolx.specs.Search.{Bits, Set};
ghost use Rattle.hp_boolx.specs.Solved.{win_step, rank_step};
ghost use Rattle.hp_cert.specs.Steps.{FirstWeak};
ghost use Rattle.hp_diagram.specs.Diagrams.{Has, function, Means, Keeps, zero_ref};
ghost use Rattle.hp_synth.specs.Building.{HasEach, functions_at};
ghost use Rattle.hp_synth.specs.Kept.{AllMean};
ghost use Rattle.hp_synth.specs.Layouts.{place, IsLayout};
ghost use Rattle.hp_synth.specs.Rounds.{IsCounts};
ghost use Rattle.hp_synth.specs.Sought.{base_at};
ghost use Rattle.hp_synth.specs.Valued.{Valued, through, over, states, earlies, OfState, OfChoice, OfEarly};

use hp_control::{permitted_at, put};
use hp_diagram::{Ref, Table, zero};
use hp_quant::implies;
use hp_synth::{Layout, next_set};
use std::alloc::{AllocError, Global};

/// What is left of choices where functions stand in the place of the control bits, in a table where variables stand at places.
fn chosen(
    alloc: Global,
    t: &mut Table,
    layout: &Layout,
    choices: Ref,
    funs: &[Ref],
) -> Result<Ref, AllocError>
    requires layout { IsLayout t.old.vars layout.now }
    requires choices { Has t.old choices }
    requires funs { HasEach t.old funs.now }
    requires count { length funs.now ≡ layout.now.counts.control }
    ensures has { IfOk result (Has t.new) }
    ensures ok { IfOk result (λ r. (g : Game) (q : Bits → Bits → Set) (F : Bits → Bits → Bits) → IsCounts g layout.now.counts → Means t.old (over (place layout.now) (OfChoice g q)) choices
        → ((v : Valued) → functions_at t.old funs.now v ≡ F (states g (through (place layout.now) v)) (earlies g (through (place layout.now) v))) → Means t.new (over (place layout.now) (OfEarly g (λ s u. q s u (F s u)))) r) }
    ensures keeps { Keeps t.old t.new }
{
    let _vars = t.vars();
    let mut left = choices;
    let mut k = layout.counts.registers + layout.counts.early;
    for i in 0..funs.len() {
        left = put(alloc, t, left, layout.place(k), funs[i])?;
        k += 1;
    }
    Ok(left)
}

/// Where the choice of the functions is permitted, if these states are not to be left.
fn kept(
    alloc: Global,
    t: &mut Table,
    layout: &Layout,
    roots: &[Ref],
    inv: Ref,
    funs: &[Ref],
) -> Result<Ref, AllocError>
    requires layout { IsLayout t.old.vars layout.now }
    requires has { HasEach t.old roots.now }
    requires inv { Has t.old inv }
    requires funs { HasEach t.old funs.now }
    requires count { length funs.now ≡ layout.now.counts.control }
    requires roots { 5 + layout.now.counts.registers ≤ length roots.now }
    ensures has { IfOk result (Has t.new) }
    ensures ok { IfOk result (λ r. (g : Game) (X : Set) (F : Bits → Bits → Bits) → IsForm g → IsCounts g layout.now.counts → AllMean t.old (base_at (place layout.now) g) roots.now → Means t.old (over (place layout.now) (OfState g X)) inv
        → ((v : Valued) → functions_at t.old funs.now v ≡ F (states g (through (place layout.now) v)) (earlies g (through (place layout.now) v)))
        → Means t.new (over (place layout.now) (OfEarly g (λ s u. permitted g (λ q. not (X q)) s u (F s u)))) r) }
    ensures keeps { Keeps t.old t.new }
{
    let lost = t.not(inv)?;
    let choices = permitted_at(alloc, t, layout, roots, lost)?;
    chosen(alloc, t, layout, choices, funs)
}

/// Whether from each of these states, for all valid early values, the functions give a valid choice that keeps them.
pub fn win_holds(
    alloc: Global,
    t: &mut Table,
    layout: &Layout,
    roots: &[Ref],
    inv: Ref,
    funs: &[Ref],
) -> Result<bool, AllocError>
    requires layout { IsLayout t.old.vars layout.now }
    requires has { HasEach t.old roots.now }
    requires inv { Has t.old inv }
    requires funs { HasEach t.old funs.now }
    requires count { length funs.now ≡ layout.now.counts.control }
    requires roots { 5 + layout.now.counts.registers ≤ length roots.now }
    ensures ok { IfOk result (λ b. (g : Game) (X : Set) (F : Bits → Bits → Bits) → IsForm g → IsCounts g layout.now.counts → AllMean t.old (base_at (place layout.now) g) roots.now → Means t.old (over (place layout.now) (OfState g X)) inv
        → ((v : Valued) → functions_at t.old funs.now v ≡ F (states g (through (place layout.now) v)) (earlies g (through (place layout.now) v))) → IsTrue b ↔ IsTrue (win_step g X F)) }
    ensures keeps { Keeps t.old t.new }
{
    let kept = kept(alloc, t, layout, roots, inv, funs)?;
    let from = t.and(inv, roots[4])?;
    implies(alloc, t, from, kept)
}

/// Whether from each of the upper states a violation, or one of the lower, can be forced by the next instant.
fn rank_holds(
    alloc: Global,
    t: &mut Table,
    layout: &Layout,
    roots: &[Ref],
    lower: Ref,
    upper: Ref,
) -> Result<bool, AllocError>
    requires layout { IsLayout t.old.vars layout.now }
    requires has { HasEach t.old roots.now }
    requires lower { Has t.old lower }
    requires upper { Has t.old upper }
    requires roots { 5 + layout.now.counts.registers ≤ length roots.now }
    ensures ok { IfOk result (λ b. (g : Game) (X Y : Set) → IsForm g → IsCounts g layout.now.counts → AllMean t.old (base_at (place layout.now) g) roots.now → Means t.old (over (place layout.now) (OfState g X)) lower → Means t.old (over (place layout.now) (OfState g Y)) upper
        → IsTrue b ↔ IsTrue (rank_step g X Y)) }
    ensures keeps { Keeps t.old t.new }
{
    let forced = next_set(alloc, t, layout, roots, lower)?;
    implies(alloc, t, upper, forced)
}

/// The first of some sets, counted from 0, from some state of which a violation, or the set before it, cannot be forced by the next instant.
pub fn first_weak(
    alloc: Global,
    t: &mut Table,
    layout: &Layout,
    roots: &[Ref],
    ranks: &[Ref],
) -> Result<Option<usize>, AllocError>
    requires layout { IsLayout t.old.vars layout.now }
    requires has { HasEach t.old roots.now }
    requires ranks { HasEach t.old ranks.now }
    requires roots { 5 + layout.now.counts.registers ≤ length roots.now }
    ensures ok { IfOk result (λ o. (g : Game) (Xs : List Set) → IsForm g → IsCounts g layout.now.counts → AllMean t.old (base_at (place layout.now) g) roots.now → AllMean t.old (map (λ X. over (place layout.now) (OfState g X)) Xs) ranks.now → FirstWeak g Xs o) }
    ensures keeps { Keeps t.old t.new }
{
    let _vars = t.vars();
    let mut lower = zero();
    for k in 0..ranks.len() {
        let upper = ranks[k];
        if !rank_holds(alloc, t, layout, roots, lower, upper)? {
            return Ok(Some(k));
        }
        lower = upper;
    }
    Ok(None)
}
