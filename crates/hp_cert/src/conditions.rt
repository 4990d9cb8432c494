//! The conditions of a certificate that fits its machine.
ghost use Rattle.std.specs.Prelude.{◌≡◌, ◌+◌, ◌<◌, ◌≤◌, ◌↔◌, ℕ, All, map, length, IsTrue, IfOk, MatchOption, MatchResult};
ghost use Rattle.hp_boolx.specs.Game.{IsForm};
ghost use Rattle.hp_boolx.specs.Machine.{game, variables};
ghost use Rattle.hp_cert.specs.Proving.{set_of, functions_of, ReadsBelow, HoldsAt, HoldsAtFirst, Keeps, ForcesNext};
ghost use Rattle.hp_cert.specs.Certtext.Certificates.{AreLines, IsClaim, IsRef};
ghost use Rattle.hp_cert.specs.Certtext.CertView.{claim_seen};
ghost use Rattle.hp_cert.specs.Conditions.{FirstFailing, IsReady};
ghost use Rattle.hp_quant.specs.declared.line.Line as plain;
ghost use Rattle.hp_synth.specs.Kept.{AllMean};
ghost use Rattle.hp_synth.specs.Sought.{base};
ghost use Rattle.hp_synth.specs.Valued.{OfState};

use crate::certtext::{Cert, CertKind};
use crate::functions::{functions, references};
use crate::marks::reached;
use crate::steps::{first_weak, win_holds};
use crate::value::value;
use hp_boolx::BoolMachine;
use hp_diagram::{Ref, Table};
use hp_quant::{Line, reference};
use hp_synth::{Layout, layout_of, prepare};
use std::alloc::{AllocError, Global};

/// Whether a state is in the set, or in the last rank.
fn holds_at(lines: &[Line], kind: &CertKind, state: &[bool]) -> bool
    requires lines { AreLines 2 lines.now }
    requires claim { IsClaim (length lines.now + 2) (claim_seen kind.now) }
    ensures { IsTrue result ↔ HoldsAt lines.now state.now (claim_seen kind.now) }
{
    match kind {
        CertKind::Win { inv, .. } => value(lines, *inv, state),
        CertKind::Lose { ranks } => value(lines, ranks[ranks.len() - 1], state),
    }
}

/// Whether the initial state is in the set, or in the last rank.
pub fn holds_at_first(m: &BoolMachine, c: &Cert) -> bool
    requires lines { AreLines 2 c.now.lines }
    requires claim { IsClaim (length c.now.lines + 2) c.now.claim }
    ensures { IsTrue result ↔ HoldsAtFirst m.now c.now c.now.claim }
{
    holds_at(&c.lines, &c.kind, &m.init)
}

/// A table with the gates of a machine and some functions of the lines of a certificate, in the solver's order of variables.
#[derive(Drop)]
struct Ready {
    table: Table,
    layout: Layout,
    /// What is valid, the hypothesis, the duty, the valid choices, the valid early values, and the next value of each register.
    roots: Vec<Ref>,
    /// The function of each line that is reached.
    lines: Vec<Ref>,
}

/// Builds what references of lines reach, and nothing else of them.
fn build(
    alloc: Global,
    m: &BoolMachine,
    lines: &[Line],
    numbers: &[usize],
) -> Result<Ready, AllocError>
    requires lines { AreLines 2 lines.now }
    requires vars { All (λ (l : plain.Line). l.var < variables m.now) lines.now }
    requires numbers { All (IsRef (length lines.now + 2)) numbers.now }
    ensures { IfOk result (λ r. IsReady m.now lines.now numbers.now r.layout r.table r.roots.items r.lines.items) }
{
    let layout = layout_of(alloc, m)?;
    let mut table = Table::new(alloc, m.vars())?;
    let roots = prepare(alloc, m, &layout, &mut table)?;
    let marks = reached(alloc, lines, numbers)?;
    let lines = functions(alloc, &mut table, &layout, lines, &marks)?;
    Ok(Ready {
        table,
        layout,
        roots,
        lines,
    })
}

/// Whether from each state of the set, for all valid early values, the functions give a valid choice that keeps the set.
pub fn keeps(
    alloc: Global,
    m: &BoolMachine,
    lines: &[Line],
    inv: usize,
    funs: &[usize],
) -> Result<bool, AllocError>
    requires lines { AreLines 2 lines.now }
    requires vars { All (λ (l : plain.Line). l.var < variables m.now) lines.now }
    requires inv { IsRef (length lines.now + 2) inv }
    requires funs { All (IsRef (length lines.now + 2)) funs.now }
    requires count { length funs.now ≡ m.now.control }
    requires inv_scope { ReadsBelow lines.now m.now.registers inv }
    requires funs_scope { All (ReadsBelow lines.now (m.now.registers + m.now.early)) funs.now }
    requires first { IsTrue (set_of lines.now inv m.now.init) }
    ensures { IfOk result (λ b. IsTrue b ↔ Keeps m.now lines.now inv funs.now) }
{
    // The proof wants the machine's form.
    let _vars = m.vars();
    let mut numbers = Vec::from_slice(alloc, funs)?;
    numbers.push(inv)?;
    let mut ready = build(alloc, m, lines, &numbers)?;
    let set = reference(&ready.lines, inv);
    let bits = references(alloc, &ready.lines, funs)?;
    win_holds(
        alloc,
        &mut ready.table,
        &ready.layout,
        &ready.roots,
        set,
        &bits,
    )
}

/// The first rank, counted from 0, from some state of which a violation, or the rank before, cannot be forced by the next instant.
pub fn first_failing(
    alloc: Global,
    m: &BoolMachine,
    lines: &[Line],
    ranks: &[usize],
) -> Result<Option<usize>, AllocError>
    requires lines { AreLines 2 lines.now }
    requires vars { All (λ (l : plain.Line). l.var < variables m.now) lines.now }
    requires ranks { All (IsRef (length lines.now + 2)) ranks.now }
    requires scope { All (ReadsBelow lines.now m.now.registers) ranks.now }
    ensures { IfOk result (FirstFailing m.now lines.now ranks.now) }
{
    // The proof wants the machine's form.
    let _vars = m.vars();
    let mut ready = build(alloc, m, lines, ranks)?;
    let sets = references(alloc, &ready.lines, ranks)?;
    first_weak(alloc, &mut ready.table, &ready.layout, &ready.roots, &sets)
}
