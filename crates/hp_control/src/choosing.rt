//! The functions of a controller.
ghost use Rattle.std.specs.Prelude.{◌≡◌, ◌+◌, ◌≤◌, not, length, IfOk};
ghost use Rattle.hp_diagram.specs.Diagrams.{Has, Means, Keeps};
ghost use Rattle.hp_boolx.specs.Solved.{IsWin};
ghost use Rattle.hp_boolx.specs.Game.{Game, permitted, preferred};
ghost use Rattle.hp_boolx.specs.Machine.{game, variables};
ghost use Rattle.hp_boolx.specs.Search.{Bits, Set};
ghost use Rattle.hp_control.specs.Controlling.{AreFunctions, AreFunctionsAt, AreLeft, IsPermissive};
ghost use Rattle.hp_synth.specs.Building.{HasEach, functions_at};
ghost use Rattle.hp_synth.specs.Layouts.{place, IsLayout};
ghost use Rattle.hp_synth.specs.Playing.{IsPlayed, Wins};
ghost use Rattle.hp_synth.specs.Rounds.{IsCounts};
ghost use Rattle.hp_synth.specs.Valued.{Valued, through, states, earlies, control_from, OfState, OfChoice};
ghost use Rattle.hp_synth.specs.Verdicts.{IsWon};

use crate::controlling::{control_bit, put};
use crate::permitted::{permitted_choices, without_bad};
use hp_boolx::BoolMachine;
use hp_diagram::{Ref, Table};
use hp_synth::{End, Layout, Played, Solved, Verdict, layout_of, renamed};
use std::alloc::{AllocError, Global};

/// The functions of a controller, one for each control bit in order, in a table where the machine's variables stand at the places of a layout.
#[derive(Drop)]
struct PlacedFunctions {
    layout: Layout,
    funs: Vec<Ref>,
}

/// The functions of the control bits, one by one: each has its preferred value, unless only the other one leaves a choice, and takes its bit's place in what is left.
fn bits(
    alloc: Global,
    t: &mut Table,
    layout: &Layout,
    choices: Ref,
    prefer: &[bool],
) -> Result<Vec<Ref>, AllocError>
    requires layout { IsLayout t.old.vars layout.now }
    requires choices { Has t.old choices }
    requires count { length prefer.now ≡ layout.now.counts.control }
    ensures has { IfOk result (λ funs. HasEach t.new funs.items) }
    ensures ok { IfOk result (λ funs. (g : Game) (q : Bits → Bits → Set) → IsCounts g layout.now.counts → AreLeft g (place layout.now) t.old (control_from g) (length prefer.now) q choices
        → (v : Valued) → functions_at t.new funs.items v ≡ preferred prefer.now (q (states g (through (place layout.now) v)) (earlies g (through (place layout.now) v)))) }
    ensures keeps { Keeps t.old t.new }
{
    let _vars = t.vars();
    let mut funs = Vec::new(alloc);
    let mut left = choices;
    let mut k = layout.counts.registers + layout.counts.early;
    for i in 0..prefer.len() {
        let fun = control_bit(alloc, t, layout, left, k, prefer[i])?;
        left = put(alloc, t, left, layout.place(k), fun)?;
        funs.push(fun)?;
        k += 1;
    }
    Ok(funs)
}

/// The functions of a machine, where these are its safe states, in an order of variables in which they are found with few nodes.
fn functions_of(
    alloc: Global,
    t: &mut Table,
    m: &BoolMachine,
    inv: Ref,
) -> Result<PlacedFunctions, AllocError>
    requires inv { Has t.old inv }
    requires fits { variables m.now ≡ t.old.vars }
    ensures layout { IfOk result (λ p. IsLayout (variables m.now) p.layout) }
    ensures has { IfOk result (λ p. HasEach t.new p.funs.items) }
    ensures ok { IfOk result (λ p. (X : Set) → Means t.old (OfState (game m.now) X) inv → IsWin (game m.now) X → AreFunctionsAt (game m.now) (place p.layout) t.new p.funs.items) }
    ensures keeps { Keeps t.old t.new }
{
    // The proof of `keeps` wants the table's rules.
    let _vars = t.vars();
    let layout = layout_of(alloc, m)?;
    let choices = permitted_choices(alloc, t, m, &layout, inv)?;
    let funs = bits(alloc, t, &layout, choices, &m.prefer)?;
    Ok(PlacedFunctions { layout, funs })
}

/// The functions of a controller, one for each control bit in order: at each state and all early values they are the preferred permitted choice, and the preference
/// itself where none is permitted. They are functions of variables that stand at the places of a layout. The verdict stays, and so does the function of each earlier
/// reference.
fn placed_functions(
    alloc: Global,
    s: &mut Solved,
    m: &BoolMachine,
) -> Result<PlacedFunctions, AllocError>
    requires fits { variables m.now ≡ s.old.table.vars }
    requires won { IsWon (game m.now) s.old.table s.old.verdict }
    ensures layout { IfOk result (λ p. IsLayout (variables m.now) p.layout) }
    ensures has { IfOk result (λ p. HasEach s.new.table p.funs.items) }
    ensures ok { IfOk result (λ p. AreFunctionsAt (game m.now) (place p.layout) s.new.table p.funs.items) }
    ensures verdict { s.new.verdict ≡ s.old.verdict }
    ensures keeps { Keeps s.old.table s.new.table }
{
    let inv = match &s.verdict {
        Verdict::Win { inv } => *inv,
        Verdict::Lose { .. } => unreachable!(),
    };
    functions_of(alloc, &mut s.table, m, inv)
}

/// The functions of a controller of a machine whose rounds are over: at each state and all early values they are the preferred permitted choice, and the preference itself
/// where none is permitted. They are functions of variables that stand at the places of its layout. What the rounds composed is not composed again.
pub fn played_functions(
    alloc: Global,
    p: &mut Played,
    m: &BoolMachine,
) -> Result<Vec<Ref>, AllocError>
    requires played { IsPlayed (game m.now) p.old }
    requires won { Wins p.old.end }
    ensures has { IfOk result (λ funs. HasEach p.new.table funs.items) }
    ensures ok { IfOk result (λ funs. AreFunctionsAt (game m.now) (place p.old.layout) p.new.table funs.items) }
    ensures layout { p.new.layout ≡ p.old.layout }
    ensures keeps { Keeps p.old.table p.new.table }
{
    // The proof wants the machine's form.
    let _vars = m.vars();
    let lost = match p.end {
        End::Won { lost } => lost,
        End::Lost => unreachable!(),
    };
    let choices = p.choices();
    let worse = p.bad(lost)?;
    let permitted = without_bad(alloc, &mut p.table, &p.layout, choices, worse)?;
    bits(alloc, &mut p.table, &p.layout, permitted, &m.prefer)
}

/// The same functions, where each variable stands at the place of its own number. The verdict stays, and so does the function of each earlier reference.
pub fn functions(alloc: Global, s: &mut Solved, m: &BoolMachine) -> Result<Vec<Ref>, AllocError>
    requires fits { variables m.now ≡ s.old.table.vars }
    requires won { IsWon (game m.now) s.old.table s.old.verdict }
    ensures has { IfOk result (λ funs. HasEach s.new.table funs.items) }
    ensures ok { IfOk result (λ funs. AreFunctions (game m.now) s.new.table funs.items) }
    ensures verdict { s.new.verdict ≡ s.old.verdict }
    ensures keeps { Keeps s.old.table s.new.table }
{
    let placed = placed_functions(alloc, s, m)?;
    renamed(alloc, &mut s.table, &placed.layout, &placed.funs)
}

/// The permitted choices of a machine, where these are its safe states.
fn choices_of(alloc: Global, t: &mut Table, m: &BoolMachine, inv: Ref) -> Result<Ref, AllocError>
    requires inv { Has t.old inv }
    requires fits { variables m.now ≡ t.old.vars }
    ensures ok { IfOk result (λ r. (X : Set) → Means t.old (OfState (game m.now) X) inv → Means t.new (OfChoice (game m.now) (permitted (game m.now) (λ s. not (X s)))) r) }
    ensures keeps { Keeps t.old t.new }
{
    // The proof of `keeps` wants the table's rules.
    let _vars = t.vars();
    let layout = layout_of(alloc, m)?;
    let choices = permitted_choices(alloc, t, m, &layout, inv)?;
    let own = renamed(alloc, t, &layout, &[choices])?;
    Ok(own[0])
}

/// The permitted choices, as one function of the registers, the early and the control variables: it is true exactly where, at the state and the early values, the
/// controls are a permitted choice. The verdict stays, and so does the function of each earlier reference.
pub fn permissive(alloc: Global, s: &mut Solved, m: &BoolMachine) -> Result<Ref, AllocError>
    requires fits { variables m.now ≡ s.old.table.vars }
    requires won { IsWon (game m.now) s.old.table s.old.verdict }
    ensures ok { IfOk result (IsPermissive (game m.now) s.new.table) }
    ensures verdict { s.new.verdict ≡ s.old.verdict }
    ensures keeps { Keeps s.old.table s.new.table }
{
    // The proof of `ok` opens the machine.
    let _counts = m.counts;
    let inv = match &s.verdict {
        Verdict::Win { inv } => *inv,
        Verdict::Lose { .. } => unreachable!(),
    };
    choices_of(alloc, &mut s.table, m, inv)
}
