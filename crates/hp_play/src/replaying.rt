//! Plays, replayed on the gates of the machine.
ghost use Rattle.std.specs.Prelude.{◌≡◌, ◌↔◌, ◌≤◌, [], length, map, take, IsTrue, IfOk, MatchOption};
ghost use Rattle.hp_boolx.specs.Machine.{bit, game, variables, values as gate_values};
ghost use Rattle.hp_play.specs.Plays.{IsInstant, IsPlayFrom, valuations};

use crate::instant::Instant;
use hp_boolx::{BoolMachine, eval};
use std::alloc::{AllocError, Global};

/// Whether the values begin with these.
fn begins(values: &[bool], with: &[bool]) -> bool
    requires { length with.now ≤ length values.now }
    ensures { IsTrue result ↔ (take (length with.now) values.now ≡ with.now) }
{
    for i in 0..with.len() {
        if values[i] != with[i] {
            return false;
        }
    }
    true
}

/// Whether the duty holds at an instant in this state with these values, if they are those of one. It gives the gates their values there.
fn duty_in(m: &BoolMachine, state: &[bool], values: &[bool], gates: &mut [bool]) -> Option<bool>
    requires gates { length gates.old ≡ length m.now.gates }
    requires state { length state.now ≡ m.now.registers }
    ensures { MatchOption result (IsInstant (game m.now) state.now values.now → ⊥) (λ kept. IsInstant (game m.now) state.now values.now × (kept ≡ (game m.now).duty values.now)) }
{
    if !is_instant(m, state, values, gates) {
        return None;
    }
    Some(gates[m.duty])
}

/// The same, with room for the values of gates.
fn duty_at(
    alloc: Global,
    m: &BoolMachine,
    state: &[bool],
    values: &[bool],
) -> Result<Option<bool>, AllocError>
    requires { length state.now ≡ m.now.registers }
    ensures { IfOk result (λ found. MatchOption found (IsInstant (game m.now) state.now values.now → ⊥) (λ kept. IsInstant (game m.now) state.now values.now × (kept ≡ (game m.now).duty values.now))) }
{
    let mut gates = vec![in alloc; false; m.gates.len()]?;
    let found = duty_in(m, state, values, &mut gates);
    Ok(found)
}

/// Whether the values are those of an instant in this state. It gives the gates their values there.
fn is_instant(m: &BoolMachine, state: &[bool], values: &[bool], gates: &mut [bool]) -> bool
    requires gates { length gates.old ≡ length m.now.gates }
    requires state { length state.now ≡ m.now.registers }
    ensures len { length gates.new ≡ length gates.old }
    ensures is { IsTrue result ↔ IsInstant (game m.now) state.now values.now }
    ensures gates { IsTrue result → gates.new ≡ gate_values values.now [] m.now.gates }
{
    if values.len() != usize::from(m.vars()) {
        return false;
    }
    if !begins(values, state) {
        return false;
    }
    eval(m, values, gates);
    gates[m.valid] && gates[m.hyp]
}

/// The state that the gates give.
fn state_of(alloc: Global, m: &BoolMachine, gates: &[bool]) -> Result<Vec<bool>, AllocError>
    requires { length gates.now ≡ length m.now.gates }
    ensures { IfOk result (λ state. state.items ≡ map (bit gates.now) m.now.next) }
{
    let mut state = Vec::with_capacity(alloc, m.next.len())?;
    for k in 0..m.next.len() {
        state.push(gates[m.next[k]])?;
    }
    Ok(state)
}

/// The state behind values. It gives the gates their values there.
fn state_in(
    alloc: Global,
    m: &BoolMachine,
    values: &[bool],
    gates: &mut [bool],
) -> Result<Vec<bool>, AllocError>
    requires values { length values.now ≡ variables m.now }
    requires gates { length gates.old ≡ length m.now.gates }
    ensures { IfOk result (λ state. state.items ≡ (game m.now).next values.now) }
{
    eval(m, values, gates);
    state_of(alloc, m, gates)
}

/// The state behind an instant with these values.
pub(crate) fn next_state(
    alloc: Global,
    m: &BoolMachine,
    values: &[bool],
) -> Result<Vec<bool>, AllocError>
    requires { length values.now ≡ variables m.now }
    ensures { IfOk result (λ state. state.items ≡ (game m.now).next values.now) }
{
    let mut gates = vec![in alloc; false; m.gates.len()]?;
    let state = state_in(alloc, m, values, &mut gates)?;
    Ok(state)
}

/// Whether these are the instants of a play of the machine, from its first state to a violation of the duty.
pub fn replay(alloc: Global, m: &BoolMachine, play: &[Instant]) -> Result<bool, AllocError>
    ensures { IfOk result (λ is. IsTrue is ↔ IsPlayFrom (game m.now) m.now.init (valuations play.now)) }
{
    // The proof wants the machine's form.
    let _vars = m.vars();
    let mut state = Vec::from_slice(alloc, &m.init)?;
    for i in 0..play.len() {
        let instant = &play[i];
        let Some(kept) = duty_at(alloc, m, &state, &instant.values)? else {
            return Ok(false);
        };
        if i + 1 == play.len() {
            return Ok(!kept);
        }
        if !kept {
            return Ok(false);
        }
        state = next_state(alloc, m, &instant.values)?;
    }
    Ok(false)
}
