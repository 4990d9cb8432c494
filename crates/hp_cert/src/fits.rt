//! Whether a certificate fits a machine.
ghost use Rattle.std.specs.Prelude.{◌≡◌, ◌+◌, ◌<◌, ◌^◌, ◌↔◌, List, All, map, length, option_map, IsTrue, IfOk, IfErr, OnOk};
ghost use Rattle.hp_boolx.specs.Machine.{variables};
ghost use Rattle.hp_cert.specs.Checked.{Refuses};
ghost use Rattle.hp_cert.specs.Proving.{HasName, HasVars, HasWidths, HasCount, ReadsBelow, InScope, Fits};
ghost use Rattle.hp_cert.specs.Certtext.Certificates.{AreLines, IsRef, IsClaim};
ghost use Rattle.hp_cert.specs.Certtext.CertView.{claim_seen};
ghost use Rattle.hp_quant.specs.declared.line.Line as plain;

use crate::certtext::{Cert, CertErr, CertKind, Misfit};
use crate::marks::read_below;
use hp_boolx::{BoolMachine, Counts};
use hp_quant::Line;
use std::alloc::{AllocError, Global};

/// Whether all lines have variables below a number.
fn are_vars(lines: &[Line], vars: u16) -> bool
    ensures { IsTrue result ↔ All (λ (l : plain.Line). l.var < vars) lines.now }
{
    for i in 0..lines.len() {
        if lines[i].var >= vars {
            return false;
        }
    }
    true
}

/// Whether widths that are said are those of the machine.
fn has_widths(m: &BoolMachine, c: &Cert) -> bool
    ensures { IsTrue result ↔ HasWidths m.now c.now c.now.widths }
{
    match &c.widths {
        None => true,
        Some(widths) => widths.as_slice() == m.widths.as_slice(),
    }
}

fn has_vars(m: &BoolMachine, c: &Cert) -> bool
    ensures { IsTrue result ↔ HasVars m.now c.now }
{
    c.counts.registers == m.counts.registers
        && c.counts.early == m.counts.early
        && c.counts.control == m.counts.control
        && c.counts.late == m.counts.late
        && has_widths(m, c)
        && are_vars(&c.lines, m.vars())
}

fn has_count(m: &BoolMachine, c: &Cert) -> bool
    ensures { IsTrue result ↔ HasCount m.now c.now c.now.claim }
{
    match &c.kind {
        CertKind::Win { funs, .. } => funs.len() == usize::from(m.counts.control),
        CertKind::Lose { .. } => true,
    }
}

/// Whether a set of states reads registers alone, and functions registers and early values alone.
fn win_in_scope(
    alloc: Global,
    lines: &[Line],
    inv: usize,
    funs: &[usize],
    registers: u32,
    early: u32,
) -> Result<bool, AllocError>
    requires lines { AreLines 2 lines.now }
    requires inv { IsRef (length lines.now + 2) inv }
    requires funs { All (IsRef (length lines.now + 2)) funs.now }
    requires few { registers + early < 2 ^ 32 }
    ensures { IfOk result (λ b. IsTrue b ↔ (ReadsBelow lines.now registers inv × All (ReadsBelow lines.now (registers + early)) funs.now)) }
{
    let states = read_below(alloc, lines, &[inv], registers)?;
    if !states {
        return Ok(false);
    }
    read_below(alloc, lines, funs, registers + early)
}

fn in_scope(alloc: Global, m: &BoolMachine, c: &Cert) -> Result<bool, AllocError>
    requires lines { AreLines 2 c.now.lines }
    requires claim { IsClaim (length c.now.lines + 2) c.now.claim }
    ensures { IfOk result (λ b. IsTrue b ↔ InScope m.now c.now c.now.claim) }
{
    let registers = u32::from(m.counts.registers);
    match &c.kind {
        CertKind::Win { inv, funs } => {
            let early = u32::from(m.counts.early);
            win_in_scope(alloc, &c.lines, *inv, funs, registers, early)
        }
        CertKind::Lose { ranks } => read_below(alloc, &c.lines, ranks, registers),
    }
}

/// Refuses a certificate that does not fit the machine.
pub fn fits(alloc: Global, m: &BoolMachine, c: &Cert) -> Result<(), CertErr>
    requires lines { AreLines 2 c.now.lines }
    requires claim { IsClaim (length c.now.lines + 2) c.now.claim }
    ensures fits { OnOk result (Fits m.now c.now) }
    ensures refused { IfErr result (Refuses m.now c.now) }
{
    if !c.node.same(&m.name) {
        return Err(CertErr::Misfit(Misfit::Node));
    }
    if !has_vars(m, c) {
        return Err(CertErr::Misfit(Misfit::Vars));
    }
    if !has_count(m, c) {
        return Err(CertErr::Misfit(Misfit::Count));
    }
    if !in_scope(alloc, m, c)? {
        return Err(CertErr::Misfit(Misfit::Scope));
    }
    Ok(())
}
