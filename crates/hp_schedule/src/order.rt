//! The order by clock.
ghost use Rattle.std.specs.Prelude.{◌≡◌, List, length, map, IfOk, OnOk, ◌++◌, ◌∷◌, []};
ghost use Rattle.std.specs.List.{AllByRecursion};
ghost use Rattle.std.specs.List.Sorted.{IsPermutation, IsSortedBy, IsStableBy};
ghost use Rattle.std.proofs.Math.ListN.{replicate};
ghost use Rattle.hp_flat.specs.Equations.{FlatEqn as EqnSeen};
ghost use Rattle.law_equations.specs.Made.Laws.{unplaced};
ghost use Rattle.law_equations.specs.Meaning.Scheduling.{IsInOrder, AreBelow, reads, IsRanked};
ghost use Rattle.hp_schedule.specs.ByClock.{IsByClock, numbered};
ghost use Rattle.hp_schedule.specs.Reaching.{unmet, weight_of};
ghost use Rattle.hp_schedule.specs.Turning.{IsNoted, turn_of, turns_from, noted_turn, noted_turns, turns_before, weighed_by, weighed_before};

use crate::reach::{Reach, Weight, note, weight_of};
use hp_flat::{FlatEqn, FlatNode, Scheduled};
use std::alloc::{AllocError, Global};
use std::cmp::Reverse;

/// When an equation has its turn: its readers have theirs before.
#[derive(Clone, Copy)]
pub struct Turn {
    pub at: usize,
    pub index: usize,
}

/// An equation, and by what it is ordered.
#[derive(Drop)]
pub struct Weighed {
    pub eqn: FlatEqn,
    /// By the outermost variables of clocks.
    pub outer: Weight,
    /// By the second variables of clocks.
    pub middle: Weight,
    /// By the third variables of clocks.
    pub inner: Weight,
}

fn push_turn(turns: &mut Vec<Turn>, index: usize, eqn: &FlatEqn) -> Result<(), AllocError>
    ensures { OnOk result (turns.new.items ≡ turns.old.items ++ turn_of index eqn.now ∷ []) }
{
    let turn = Turn { at: eqn.at, index };
    turns.push(turn)?;
    Ok(())
}

#[tactic(auto, using(crate::proofs::TurnRules::turning))]
fn turns_of(alloc: Global, eqns: &[FlatEqn]) -> Result<Vec<Turn>, AllocError>
    ensures { IfOk result (λ turns. turns.items ≡ turns_from 0 eqns.now) }
{
    let mut turns = Vec::new(alloc);
    for i in 0..eqns.len() {
        push_turn(&mut turns, i, &eqns[i])?;
    }
    Ok(turns)
}

/// The equations by number, from the greatest place to the least.
fn turns(alloc: Global, eqns: &[FlatEqn]) -> Result<Vec<Turn>, AllocError>
    ensures all { IfOk result (λ turns. IsPermutation (turns_from 0 eqns.now) turns.items) }
    ensures order { IfOk result (λ turns. IsSortedBy turns_before turns.items) }
{
    let mut turns = turns_of(alloc, eqns)?;
    turns.sort_by_key(|turn| Reverse(turn.at))?;
    Ok(turns)
}

#[tactic(auto, using(crate::proofs::TurnRules::turning))]
fn note_turn(
    depth: usize,
    base: usize,
    eqns: &[FlatEqn],
    turn: Turn,
    table: &mut [Reach],
) -> Result<(), AllocError>
    ensures { OnOk result (table.new ≡ noted_turn depth base eqns.now turn table.old) }
{
    if turn.index < eqns.len() {
        note(depth, base, table, &eqns[turn.index])?;
    }
    Ok(())
}

#[tactic(auto, using(crate::proofs::TurnRules::turning))]
fn note_turns(
    depth: usize,
    base: usize,
    eqns: &[FlatEqn],
    turns: &[Turn],
    table: &mut [Reach],
) -> Result<(), AllocError>
    ensures { OnOk result (table.new ≡ noted_turns depth base eqns.now turns.now table.old) }
{
    for turn in turns {
        note_turn(depth, base, eqns, *turn, table)?;
    }
    Ok(())
}

/// How far the equations reach that read each of so many variables, by the controls at a depth of clocks.
fn reaches(
    alloc: Global,
    depth: usize,
    variables: usize,
    eqns: &[FlatEqn],
) -> Result<Vec<Reach>, AllocError>
    ensures { IfOk result (λ table. IsNoted depth variables eqns.now table.items) }
{
    let turns = turns(alloc, eqns)?;
    let mut table = vec![in alloc; Reach::unmet(); variables]?;
    note_turns(depth, variables, eqns, &turns, &mut table)?;
    Ok(table)
}

fn push_weighed(weighed: &mut Vec<Weighed>, one: Weighed) -> Result<(), AllocError>
    ensures { OnOk result (weighed.new.items ≡ weighed.old.items ++ one ∷ []) }
{
    match weighed.push(one) {
        Ok(()) => Ok(()),
        Err(_) => Err(AllocError),
    }
}

/// The equations with their weights.
fn weigh(
    alloc: Global,
    outers: &[Reach],
    middles: &[Reach],
    inners: &[Reach],
    eqns: Vec<FlatEqn>,
) -> Result<Vec<Weighed>, AllocError>
    ensures { IfOk result (λ weighed. weighed.items ≡ map (weighed_by (length outers.now) outers.now middles.now inners.now) eqns.items) }
{
    let base = outers.len();
    let mut weighed = Vec::new(alloc);
    for eqn in eqns {
        let outer = weight_of(0, base, outers, &eqn);
        let middle = weight_of(1, base, middles, &eqn);
        let inner = weight_of(2, base, inners, &eqn);
        push_weighed(
            &mut weighed,
            Weighed {
                eqn,
                outer,
                middle,
                inner,
            },
        )?;
    }
    Ok(weighed)
}

/// By depth, the outermost first: by level, the greatest first, then by control. Then by height, the greatest first.
fn in_order(mut weighed: Vec<Weighed>) -> Result<Vec<Weighed>, AllocError>
    ensures same { IfOk result (λ ordered. IsPermutation weighed.items ordered.items) }
    ensures sorted { IfOk result (λ ordered. IsSortedBy weighed_before ordered.items) }
    ensures stable { IfOk result (λ ordered. IsStableBy weighed_before weighed.items ordered.items) }
{
    weighed.sort_by_key(|one| {
        (
            (Reverse(one.outer.level), one.outer.control),
            (
                (Reverse(one.middle.level), one.middle.control),
                (
                    (Reverse(one.inner.level), one.inner.control),
                    Reverse(one.outer.height),
                ),
            ),
        )
    })?;
    Ok(weighed)
}

fn push_placed(placed: &mut Vec<FlatEqn>, mut eqn: FlatEqn) -> Result<(), AllocError>
    ensures { OnOk result (placed.new.items ≡ placed.old.items ++ record eqn { at = length placed.old.items } ∷ []) }
{
    eqn.at = placed.len();
    match placed.push(eqn) {
        Ok(()) => Ok(()),
        Err(_) => Err(AllocError),
    }
}

/// The equations with places in a row.
#[tactic(auto, using(crate::proofs::TurnRules::placing))]
fn place(alloc: Global, weighed: Vec<Weighed>) -> Result<Vec<FlatEqn>, AllocError>
    ensures { IfOk result (λ placed. placed.items ≡ numbered 0 (map (λ one. one.eqn) weighed.items)) }
{
    let mut placed = Vec::new(alloc);
    for one in weighed {
        push_placed(&mut placed, one.eqn)?;
    }
    Ok(placed)
}

fn by_clock(alloc: Global, variables: usize, eqns: Vec<FlatEqn>) -> Result<Vec<FlatEqn>, AllocError>
    ensures same { IfOk result (λ scheduled. IsPermutation (map unplaced eqns.items) (map unplaced scheduled.items)) }
    ensures order { IfOk result (λ scheduled. IsInOrder scheduled.items) }
    ensures by_clock { IfOk result (λ scheduled. IsRanked eqns.items → AllByRecursion (λ (e : EqnSeen). AreBelow variables (reads e)) eqns.items → IsByClock variables eqns.items scheduled.items) }
{
    let outers = reaches(alloc, 0, variables, &eqns)?;
    let middles = reaches(alloc, 1, variables, &eqns)?;
    let inners = reaches(alloc, 2, variables, &eqns)?;
    let weighed = weigh(alloc, &outers, &middles, &inners, eqns)?;
    let ordered = in_order(weighed)?;
    let placed = place(alloc, ordered)?;
    Ok(placed)
}

/// The node with its equations in the order by clock, where their places before were ranks and it reads its own variables.
pub fn schedule(alloc: Global, node: FlatNode) -> Result<Scheduled, AllocError>
    ensures name { IfOk result (λ scheduled. scheduled.node.name ≡ node.name) }
    ensures variables { IfOk result (λ scheduled. scheduled.node.variables ≡ node.variables) }
    ensures inputs { IfOk result (λ scheduled. scheduled.node.inputs ≡ node.inputs) }
    ensures outputs { IfOk result (λ scheduled. scheduled.node.outputs ≡ node.outputs) }
    ensures same { IfOk result (λ scheduled. IsPermutation (map unplaced node.eqns) (map unplaced scheduled.node.eqns)) }
    ensures order { IfOk result (λ scheduled. IsInOrder scheduled.node.eqns) }
    ensures by_clock { IfOk result (λ scheduled. IsRanked node.eqns → AllByRecursion (λ (e : EqnSeen). AreBelow (length node.variables) (reads e)) node.eqns → IsByClock (length node.variables) node.eqns scheduled.node.eqns) }
{
    let FlatNode {
        name,
        variables,
        inputs,
        outputs,
        eqns,
    } = node;
    let eqns = by_clock(alloc, variables.len(), eqns)?;
    Ok(Scheduled {
        node: FlatNode {
            name,
            variables,
            inputs,
            outputs,
            eqns,
        },
    })
}
