//! The order of a machine's variables in the table of a solver. Registers stand in their order, and each other variable behind the first register whose next value reads
//! it, so that what belongs together stands together. Nothing is proved of the order but that each variable has a place of its own.
ghost use Rattle.std.specs.Prelude.{◌≡◌, IfOk};
ghost use Rattle.hp_boolx.specs.Machine.{game, variables};
ghost use Rattle.hp_synth.specs.Layouts.{IsLayout};
ghost use Rattle.hp_synth.specs.Rounds.{IsCounts};

use crate::layout::Layout;
use hp_boolx::{BoolMachine, Gate};
use std::alloc::{AllocError, Global};

/// A variable, and the number of the register behind which it stands.
#[derive(Clone, Copy, Debug, PartialEq, Eq, PartialOrd, Ord)]
struct Home {
    register: u16,
    variable: u16,
}

/// Writes a register at a place, if there is no earlier one.
fn note(homes: &mut [u16], at: usize, register: u16) {
    if let Some(home) = homes.get_mut(at) {
        *home = (*home).min(register);
    }
}

/// For each gate the first register whose next value reads it, and `none` where there is no such register.
fn gate_homes(alloc: Global, m: &BoolMachine, none: u16) -> Result<Vec<u16>, AllocError> {
    let mut homes = vec![in alloc; none; m.gates.len()]?;
    for k in 0..m.counts.registers {
        note(&mut homes, m.next[usize::from(k)], k);
    }
    for i in (0..m.gates.len()).rev() {
        spread(&mut homes, i, m.gates[i]);
    }
    Ok(homes)
}

/// What reads a gate reads the gates of which it is made.
fn spread(homes: &mut [u16], at: usize, gate: Gate) {
    let Some(home) = homes.get(at).copied() else {
        return;
    };
    match gate {
        Gate::Const(_) | Gate::Var(_) => {}
        Gate::Not(i) => note(homes, i, home),
        Gate::And(i, j) | Gate::Or(i, j) | Gate::Xor(i, j) => {
            note(homes, i, home);
            note(homes, j, home);
        }
        Gate::Ite(i, j, k) => {
            note(homes, i, home);
            note(homes, j, home);
            note(homes, k, home);
        }
    }
}

/// For each variable the first register whose next value reads it, and `none` where there is no such register.
fn variable_homes(alloc: Global, m: &BoolMachine, none: u16) -> Result<Vec<u16>, AllocError> {
    let of_gates = gate_homes(alloc, m, none)?;
    let mut homes = vec![in alloc; none; usize::from(m.vars())]?;
    for i in 0..m.gates.len() {
        if let (Gate::Var(x), Some(home)) = (m.gates[i], of_gates.get(i)) {
            note(&mut homes, usize::from(x), *home);
        }
    }
    Ok(homes)
}

/// The register behind which a variable stands, which is a register itself where its number is below `registers`.
fn home_of(homes: &[u16], registers: u16, variable: u16) -> Home {
    let first = homes.get(usize::from(variable)).copied();
    let register = if variable < registers {
        variable
    } else {
        first.unwrap_or(registers)
    };
    Home { register, variable }
}

/// The variables of a machine in the order in which they are to stand.
fn in_order(alloc: Global, m: &BoolMachine) -> Result<Vec<Home>, AllocError> {
    let registers = m.counts.registers;
    let homes = variable_homes(alloc, m, registers)?;
    let mut all = Vec::new(alloc);
    for x in 0..m.vars() {
        all.push(home_of(&homes, registers, x))?;
    }
    all.sort_by_key(|home| home.register)?;
    Ok(all)
}

/// The variables alone.
fn variables_of(alloc: Global, all: &[Home]) -> Result<Vec<u16>, AllocError> {
    let mut variables = Vec::new(alloc);
    for i in 0..all.len() {
        variables.push(all[i].variable)?;
    }
    Ok(variables)
}

/// Where each of them stands.
fn places_of(alloc: Global, vars: u16, variables: &[u16]) -> Result<Vec<u16>, AllocError> {
    let mut places = vec![in alloc; 0; usize::from(vars)]?;
    for y in 0..vars {
        let x = variables.get(usize::from(y)).copied().unwrap_or(0);
        if let Some(place) = places.get_mut(usize::from(x)) {
            *place = y;
        }
    }
    Ok(places)
}

/// Where the variables of a machine stand in a solver's table: in the order in which functions of the machine are found with few nodes.
pub fn layout_of(alloc: Global, m: &BoolMachine) -> Result<Layout, AllocError>
    ensures layout { IfOk result (IsLayout (variables m.now)) }
    ensures counts { IfOk result (λ layout. IsCounts (game m.now) layout.counts) }
{
    let vars = m.vars();
    let all = in_order(alloc, m)?;
    let variables = variables_of(alloc, &all)?;
    let places = places_of(alloc, vars, &variables)?;
    Ok(Layout::of(alloc, vars, m.counts, places, variables))
}
