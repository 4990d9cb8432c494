//! Boolean machines, solved.
ghost use Rattle.std.specs.Prelude.{◌≡◌, ◌+◌, ◌≤◌, not, ℕ, List, length, map, drop, IfOk, OnOk};
ghost use Rattle.hp_diagram.specs.Diagrams.{valuation, Has, Means};
ghost use Rattle.hp_boolx.specs.Game.{Game, IsForm};
ghost use Rattle.hp_boolx.specs.Machine.{game, variables};
ghost use Rattle.hp_boolx.specs.Search.{Set};
ghost use Rattle.hp_boolx.specs.Solved.{IsWin, IsLose};
ghost use Rattle.hp_synth.specs.Building.{HasEach};
ghost use Rattle.hp_synth.specs.Kept.{AllMean, HoldsOnly};
ghost use Rattle.hp_synth.specs.Layouts.{place, IsLayout};
ghost use Rattle.hp_synth.specs.Playing.{IsPlayed};
ghost use Rattle.hp_synth.specs.Rounds.{IsCounts};
ghost use Rattle.hp_synth.specs.Valued.{states, through, over, OfState};
ghost use Rattle.hp_synth.specs.Verdicts.{IsSolved, refs_of};

use crate::layout::Layout;
use crate::ordering::layout_of;
use crate::played::{End, Played};
use crate::preparation::prepare;
use crate::renaming::renamed;
use crate::search::search;
use crate::sweep::swept;
use crate::verdict::{Solved, Verdict};
use hp_boolx::BoolMachine;
use hp_diagram::{Ref, Table};
use std::alloc::{AllocError, Global};

/// The initial state, as values of all variables of the table.
fn initial(alloc: Global, m: &BoolMachine, layout: &Layout) -> Result<Vec<bool>, AllocError>
    requires layout { IsLayout (variables m.now) layout.now }
    requires counts { IsCounts (game m.now) layout.now.counts }
    ensures len { IfOk result (λ values. variables m.now ≤ length values.items) }
    ensures states { IfOk result (λ values. states (game m.now) (through (place layout.now) (valuation values.items)) ≡ m.now.init) }
{
    let mut values = vec![in alloc; false; usize::from(m.vars())]?;
    for k in 0..layout.counts.registers {
        let at = usize::from(layout.place(k));
        values[at] = m.init[usize::from(k)];
    }
    Ok(values)
}

/// Goes from round to round: from which states a violation is forced in one instant, in two, and so on, until the initial state is among them or there are no more. It does
/// so in an order of variables of its own, and keeps all that it made.
pub fn play(alloc: Global, m: &BoolMachine) -> Result<Played, AllocError>
    ensures vars { IfOk result (λ p. p.table.vars ≡ variables m.now) }
    ensures played { IfOk result (IsPlayed (game m.now)) }
{
    let mut table = Table::new(alloc, m.vars())?;
    let layout = layout_of(alloc, m)?;
    let mut roots = prepare(alloc, m, &layout, &mut table)?;
    let init = initial(alloc, m, &layout)?;
    let (end, course) = search(alloc, m, &layout, &mut table, &mut roots, &init)?;
    Ok(Played {
        table,
        layout,
        end,
        roots,
        course,
    })
}

/// The set of all others, alone in the table, where each variable stands at the place of its own number.
fn win(alloc: Global, layout: &Layout, t: &mut Table, x: Ref) -> Result<Verdict, AllocError>
    requires layout { IsLayout t.old.vars layout.now }
    requires x { Has t.old x }
    ensures vars { OnOk result (t.new.vars ≡ t.old.vars) }
    ensures only { IfOk result (λ verdict. HoldsOnly t.new (refs_of verdict)) }
    ensures solved { IfOk result (λ verdict. (g : Game) (X : Set) → Means t.old (over (place layout.now) (OfState g X)) x → IsWin g (λ r. not (X r)) → IsSolved g t.new verdict) }
{
    let inv = t.not(x)?;
    let own = renamed(alloc, t, layout, &[inv])?;
    let kept = swept(alloc, t, &own)?;
    Ok(Verdict::Win { inv: kept[0] })
}

/// The sets of the rounds, alone in the table, where each variable stands at the place of its own number.
fn lose(alloc: Global, layout: &Layout, t: &mut Table, ranks: &[Ref]) -> Result<Verdict, AllocError>
    requires layout { IsLayout t.old.vars layout.now }
    requires ranks { HasEach t.old ranks.now }
    ensures vars { OnOk result (t.new.vars ≡ t.old.vars) }
    ensures only { IfOk result (λ verdict. HoldsOnly t.new (refs_of verdict)) }
    ensures solved { IfOk result (λ verdict. (g : Game) (Xs : List Set) → AllMean t.old (map (λ X. over (place layout.now) (OfState g X)) Xs) ranks.now → IsLose g Xs → IsSolved g t.new verdict) }
{
    let own = renamed(alloc, t, layout, ranks)?;
    let ranks = swept(alloc, t, &own)?;
    Ok(Verdict::Lose { ranks })
}

/// The sets of the rounds, behind what they work on.
fn behind(roots: &[Ref], registers: u16) -> &[Ref]
    requires { 5 + registers ≤ length roots.now }
    ensures { result.now ≡ drop (5 + registers) roots.now }
{
    &roots[5 + usize::from(registers)..]
}

/// The verdict of a machine whose rounds are over, alone in the table, where each variable stands at the place of its own number.
fn settle(alloc: Global, played: Played) -> Result<Solved, AllocError>
    requires { (g : Game) × IsForm g × IsPlayed g played }
    ensures vars { IfOk result (λ s. s.table.vars ≡ played.table.vars) }
    ensures only { IfOk result (λ s. HoldsOnly s.table (refs_of s.verdict)) }
    ensures solved { IfOk result (λ s. (g : Game) → IsForm g → IsPlayed g played → IsSolved g s.table s.verdict) }
{
    let Played {
        mut table,
        layout,
        end,
        roots,
        ..
    } = played;
    match end {
        End::Won { lost } => {
            let verdict = win(alloc, &layout, &mut table, lost)?;
            Ok(Solved { table, verdict })
        }
        End::Lost => {
            let ranks = behind(&roots, layout.counts.registers);
            let verdict = lose(alloc, &layout, &mut table, ranks)?;
            Ok(Solved { table, verdict })
        }
    }
}

/// Finds whether a violation is ever forced. It goes from round to round, in an order of variables of its own; the table of the answer holds what the verdict reaches, and
/// nothing else.
pub fn solve(alloc: Global, m: &BoolMachine) -> Result<Solved, AllocError>
    ensures vars { IfOk result (λ s. s.table.vars ≡ variables m.now) }
    ensures only { IfOk result (λ s. HoldsOnly s.table (refs_of s.verdict)) }
    ensures solved { IfOk result (λ s. IsSolved (game m.now) s.table s.verdict) }
{
    // The proof wants the machine's form.
    let _vars = m.vars();
    let played = play(alloc, m)?;
    settle(alloc, played)
}
