//! Losing plays.
ghost use Rattle.std.specs.Prelude.{◌≡◌, ◌+◌, ◌<◌, ◌≤◌, not, length, IfOk, OnOk};
ghost use Rattle.hp_diagram.specs.Diagrams.{Has, Keeps, Means};
ghost use Rattle.hp_boolx.specs.Game.{Game, IsForm, bad, joined};
ghost use Rattle.hp_boolx.specs.Machine.{game, variables};
ghost use Rattle.hp_boolx.specs.Search.{Set, every_of};
ghost use Rattle.hp_synth.specs.Building.{HasEach};
ghost use Rattle.hp_synth.specs.Kept.{AllMean};
ghost use Rattle.hp_synth.specs.Layouts.{place, IsLayout};
ghost use Rattle.hp_synth.specs.Rounds.{IsCounts};
ghost use Rattle.hp_synth.specs.Sought.{base_at};
ghost use Rattle.hp_synth.specs.Valued.{over, OfChoice, OfState};
ghost use Rattle.hp_play.specs.Fields.{AreRanks, Exactly, IsField, IsThreat, Leads, rank_ref};
ghost use Rattle.hp_play.specs.Plays.{IsInstant, IsOutcome, IsPlayFrom, LoseEach, LosesIn, early_in, state_in, valuations};

use crate::forcing::{forcing, worse};
use crate::instant::{Instant, Outcome};
use crate::picking::{free_values, of_values, own_values, pick};
use crate::replaying::next_state;
use hp_boolx::BoolMachine;
use hp_diagram::{Ref, Table, zero};
use hp_synth::{Layout, Verdict, all_in, layout_of, placed, prepare, solve};
use std::alloc::{AllocError, Global};

/// The most instants of a play at each of which it is asked what is free, and at how many at each end of a longer one.
const WHOLE: usize = 20;

const ENDS: usize = 3;

/// A lost machine: where its variables stand in a table, what a solver works on there, and the states from which a violation is forced in one instant, in two, and so on.
#[derive(Drop)]
struct Field {
    layout: Layout,
    roots: Vec<Ref>,
    ranks: Vec<Ref>,
}

/// The valuations whose early values force a violation, and those that a play may take.
#[derive(Clone, Copy)]
struct Threat {
    forcing: Ref,
    moves: Ref,
}

/// The states from which a violation is forced within so many instants.
fn rank(ranks: &[Ref], k: usize) -> Ref
    requires { k ≤ length ranks.now }
    ensures { result ≡ rank_ref ranks.now k }
{
    if k == 0 { zero() } else { ranks[k - 1] }
}

/// The valuations of a choice by which, whatever the late values are, no violation comes at once, nor a state of the set.
fn slow(alloc: Global, t: &mut Table, field: &Field, x: Ref) -> Result<Ref, AllocError>
    requires layout { IsLayout t.old.vars field.now.layout }
    requires has { HasEach t.old field.now.roots.items }
    requires x { Has t.old x }
    requires roots { 5 + field.now.layout.counts.registers ≤ length field.now.roots.items }
    ensures has { IfOk result (Has t.new) }
    ensures ok { IfOk result (λ r. (g : Game) (X : Set) → IsForm g → IsCounts g field.now.layout.counts → AllMean t.old (base_at (place field.now.layout) g) field.now.roots.items
        → Means t.old (over (place field.now.layout) (OfState g X)) x → Means t.new (over (place field.now.layout) (OfChoice g (λ r u c. every_of g.late (λ w. not (bad g X (joined r u c w)))))) r) }
    ensures keeps { OnOk result (Keeps t.old t.new) }
{
    let to = t.vars();
    let layout = &field.layout;
    let worse = worse(alloc, t, layout, &field.roots, x)?;
    let good = t.not(worse)?;
    all_in(alloc, t, layout, good, to - layout.counts.late, to)
}

/// What threatens at an instant behind which so many are left. So that none is skipped, a choice is taken by which no violation comes at once, nor one that is forced in fewer.
fn threat_at(
    alloc: Global,
    m: &BoolMachine,
    t: &mut Table,
    field: &Field,
    left: usize,
) -> Result<Threat, AllocError>
    requires field { IsField (game m.now) t.old field.now }
    requires left { left < length field.now.ranks.items }
    ensures threat { IfOk result (IsThreat (game m.now) (place field.now.layout) left t.new) }
    ensures keeps { OnOk result (Keeps t.old t.new) }
{
    // The proof wants the machine's form.
    let _vars = m.vars();
    let layout = &field.layout;
    let below = rank(&field.ranks, left);
    let worse = worse(alloc, t, layout, &field.roots, below)?;
    let forcing = forcing(alloc, t, layout, field.roots[3], field.roots[4], worse)?;
    let moves = t.and(forcing, worse)?;
    if left == 0 {
        return Ok(Threat { forcing, moves });
    }
    let slow = slow(alloc, t, field, rank(&field.ranks, left - 1))?;
    let moves = t.and(moves, slow)?;
    Ok(Threat { forcing, moves })
}

/// What is preferred of each variable at its place in the table: false where nothing is said.
fn preferred(alloc: Global, m: &BoolMachine, layout: &Layout) -> Result<Vec<bool>, AllocError>
    requires layout { IsLayout (variables m.now) layout.now }
    ensures { IfOk result (λ values. length values.items ≡ variables m.now) }
{
    let mut values = vec![in alloc; false; usize::from(m.vars())]?;
    let first = m.counts.registers + m.counts.early;
    for k in 0..m.counts.control {
        values[usize::from(layout.place(first + k))] = m.prefer[usize::from(k)];
    }
    Ok(values)
}

/// The first variable of which is asked whether it is free, at an instant behind which so many are left: at the first instant the state is known, and between the ends of a long play nothing is asked.
fn first_asked(field: &Field, left: usize) -> u16
    ensures { result ≤ field.now.layout.counts.registers + field.now.layout.counts.early }
{
    let counts = field.layout.counts;
    let count = field.ranks.len();
    if left.saturating_add(1) >= count {
        return counts.registers;
    }
    if count > WHOLE && left >= ENDS && left.saturating_add(ENDS) < count {
        return counts.registers.saturating_add(counts.early);
    }
    0
}

/// Which registers and early values are free, where these force a violation.
fn free_at(
    alloc: Global,
    t: &mut Table,
    field: &Field,
    forcing: Ref,
    placed: &[bool],
    first: u16,
) -> Result<Vec<bool>, AllocError>
    requires layout { IsLayout t.old.vars field.now.layout }
    requires roots { 5 ≤ length field.now.roots.items }
    requires has { HasEach t.old field.now.roots.items }
    requires forcing { Has t.old forcing }
    requires placed { length placed.now ≡ t.old.vars }
    requires first { first ≤ field.now.layout.counts.registers + field.now.layout.counts.early }
    ensures many { IfOk result (λ free. length free.items ≡ field.now.layout.counts.registers + field.now.layout.counts.early) }
    ensures keeps { OnOk result (Keeps t.old t.new) }
{
    let invalid = t.not(field.roots[4])?;
    let serve = t.or(forcing, invalid)?;
    free_values(alloc, t, &field.layout, serve, placed, first)
}

/// An instant of a shortest play in this state, behind which so many are left.
fn instant_at(
    alloc: Global,
    m: &BoolMachine,
    t: &mut Table,
    field: &Field,
    left: usize,
    state: &[bool],
) -> Result<Instant, AllocError>
    requires vars { t.old.vars ≡ variables m.now }
    requires field { IsField (game m.now) t.old field.now }
    requires left { left < length field.now.ranks.items }
    requires state { length state.now ≡ m.now.registers }
    requires exactly { Exactly (game m.now) (left + 1) state.now }
    ensures instant { IfOk result (λ i. IsInstant (game m.now) state.now i.values.items) }
    ensures loses { IfOk result (λ i. LosesIn (game m.now) left (state_in (game m.now) i.values.items) (early_in (game m.now) i.values.items)) }
    ensures leads { IfOk result (λ i. Leads (game m.now) left i.values.items) }
    ensures keeps { OnOk result (Keeps t.old t.new) }
{
    let threat = threat_at(alloc, m, t, field, left)?;
    let here = of_values(t, &field.layout, 0, state)?;
    let moves = t.and(here, threat.moves)?;
    let mut placed = preferred(alloc, m, &field.layout)?;
    pick(t, moves, &mut placed);
    let values = own_values(alloc, m.vars(), &field.layout, &placed)?;
    let first = first_asked(field, left);
    let free = free_at(alloc, t, field, threat.forcing, &placed, first)?;
    Ok(Instant { values, free })
}

/// The instants of a shortest play, one after the other.
fn instants(
    alloc: Global,
    m: &BoolMachine,
    t: &mut Table,
    field: &Field,
) -> Result<Vec<Instant>, AllocError>
    requires vars { t.old.vars ≡ variables m.now }
    requires field { IsField (game m.now) t.old field.now }
    ensures many { IfOk result (λ play. length play.items ≡ length field.now.ranks.items) }
    ensures play { IfOk result (λ play. IsPlayFrom (game m.now) (game m.now).init (valuations play.items)) }
    ensures loses { IfOk result (λ play. LoseEach (game m.now) (length field.now.ranks.items) (valuations play.items)) }
{
    // The proof wants the table's rules, and the machine's form.
    let _vars = (t.vars(), m.vars());
    let mut state = Vec::from_slice(alloc, &m.init)?;
    let mut play = Vec::new(alloc);
    for i in 0..field.ranks.len() {
        let left = field.ranks.len() - 1 - i;
        let instant = instant_at(alloc, m, t, field, left, &state)?;
        state = next_state(alloc, m, &instant.values)?;
        play.push(instant)?;
    }
    Ok(play)
}

/// The field of a lost machine, where these are the states from which a violation is forced, each variable at the place of its own number.
fn field_of(
    alloc: Global,
    m: &BoolMachine,
    t: &mut Table,
    ranks: &[Ref],
) -> Result<Field, AllocError>
    requires vars { t.old.vars ≡ variables m.now }
    requires ranks { AreRanks (game m.now) t.old ranks.now }
    ensures field { IfOk result (IsField (game m.now) t.new) }
    ensures vars { t.new.vars ≡ t.old.vars }
{
    let layout = layout_of(alloc, m)?;
    let roots = prepare(alloc, m, &layout, t)?;
    let ranks = placed(alloc, t, &layout, ranks)?;
    Ok(Field {
        layout,
        roots,
        ranks,
    })
}

/// A play of a lost machine.
fn lost(alloc: Global, m: &BoolMachine, t: &mut Table, ranks: &[Ref]) -> Result<Outcome, AllocError>
    requires vars { t.old.vars ≡ variables m.now }
    requires ranks { AreRanks (game m.now) t.old ranks.now }
    ensures { IfOk result (IsOutcome (game m.now)) }
{
    let field = field_of(alloc, m, t, ranks)?;
    let play = instants(alloc, m, t, &field)?;
    Ok(Outcome::Lost { play })
}

/// Whether a violation is ever forced, and a shortest play in which it is.
pub fn losing_play(alloc: Global, m: &BoolMachine) -> Result<Outcome, AllocError>
    ensures { IfOk result (IsOutcome (game m.now)) }
{
    let mut solved = solve(alloc, m)?;
    match &solved.verdict {
        Verdict::Win { .. } => Ok(Outcome::Kept),
        Verdict::Lose { ranks } => lost(alloc, m, &mut solved.table, ranks),
    }
}
