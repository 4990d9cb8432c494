//! Machines of parts of which nothing is known.
ghost use Rattle.std.specs.Prelude.{◌≡◌, ◌↔◌, ◌+◌, ◌≤◌, ◌<◌, All, length, sum, IsTrue, MatchOption};
ghost use Rattle.hp_boolx.specs.Machine.{AreFit, GateFits, IsMachine, variables};
ghost use Rattle.hp_boolx.specs.PartsView.{HasLengths, parts_seen};

use crate::gate::Gate;
use crate::machine::{BoolMachine, Counts};
use hp_base::Name;

/// The parts of a Boolean machine, of which nothing is known yet.
#[derive(Debug, Drop)]
pub struct Parts {
    pub name: Name,
    pub counts: Counts,
    pub widths: Vec<u16>,
    pub prefer: Vec<bool>,
    pub gates: Vec<Gate>,
    pub init: Vec<bool>,
    pub next: Vec<usize>,
    pub valid: usize,
    pub hyp: usize,
    pub duty: usize,
}

/// Whether the gate names variables and gates of which there are so many.
fn fits(gate: Gate, vars: u32, before: usize) -> bool
    ensures { IsTrue result ↔ GateFits vars before gate }
{
    match gate {
        Gate::Const(_) => true,
        Gate::Var(x) => u32::from(x) < vars,
        Gate::Not(i) => i < before,
        Gate::And(i, j) | Gate::Or(i, j) | Gate::Xor(i, j) => i < before && j < before,
        Gate::Ite(i, j, k) => i < before && j < before && k < before,
    }
}

/// Whether each gate names variables and earlier gates.
fn all_fit(gates: &[Gate], vars: u32) -> bool
    ensures { IsTrue result ↔ AreFit vars 0 gates.now }
{
    for i in 0..gates.len() {
        if !fits(gates[i], vars, i) {
            return false;
        }
    }
    true
}

/// Whether all of some numbers are below another.
fn all_below(numbers: &[usize], count: usize) -> bool
    ensures { IsTrue result ↔ All (λ k. k < count) numbers.now }
{
    numbers.iter().all(|k| *k < count)
}

/// Whether some numbers add up to another.
fn adds_up(numbers: &[u16], count: u16) -> bool
    ensures { IsTrue result ↔ (sum numbers.now ≡ count) }
{
    let mut left = count;
    for i in 0..numbers.len() {
        if numbers[i] > left {
            return false;
        }
        left -= numbers[i];
    }
    left == 0
}

/// Whether each list has the length that is said of it, and each number names a gate.
fn has_lengths(m: &Parts) -> bool
    ensures { IsTrue result ↔ HasLengths (parts_seen m.now) }
{
    let count = m.gates.len();
    m.init.len() == usize::from(m.counts.registers)
        && m.next.len() == usize::from(m.counts.registers)
        && m.prefer.len() == usize::from(m.counts.control)
        && m.valid < count
        && m.hyp < count
        && m.duty < count
}

/// How many variables there are.
fn variables(counts: Counts) -> u32
    ensures { result ≡ counts.registers + counts.early + counts.control + counts.late }
{
    u32::from(counts.registers)
        + u32::from(counts.early)
        + u32::from(counts.control)
        + u32::from(counts.late)
}

/// Whether these are the parts of a machine.
fn is_machine(m: &Parts) -> bool
    ensures { IsTrue result ↔ IsMachine (parts_seen m.now) }
{
    let vars = variables(m.counts);
    vars <= 65_535
        && all_fit(&m.gates, vars)
        && has_lengths(m)
        && all_below(&m.next, m.gates.len())
        && adds_up(&m.widths, m.counts.control)
}

impl BoolMachine {
    /// The machine of these parts, exactly where they keep what a machine keeps. It takes no memory.
    pub fn of(parts: Parts) -> Option<BoolMachine>
        ensures { MatchOption result (IsMachine (parts_seen parts) → ⊥) (λ m. m ≡ parts_seen parts) }
    {
        if !is_machine(&parts) {
            return None;
        }
        let Parts {
            name,
            counts,
            widths,
            prefer,
            gates,
            init,
            next,
            valid,
            hyp,
            duty,
        } = parts;
        Some(BoolMachine {
            name,
            counts,
            widths,
            prefer,
            gates,
            init,
            next,
            valid,
            hyp,
            duty,
        })
    }
}
