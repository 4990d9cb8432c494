//! The values of gates.
ghost use Rattle.std.specs.Prelude.{◌≡◌, [], length};
ghost use Rattle.hp_boolx.specs.Machine.{GateFits, gate_value, values, variables};

use crate::gate::Gate;
use crate::machine::BoolMachine;

/// The value of a gate, from the values of the variables and of the gates before it.
fn gate_value(vars: &[bool], done: &[bool], gate: Gate) -> bool
    requires { GateFits (length vars.now) (length done.now) gate }
    ensures { result ≡ gate_value vars.now done.now gate }
{
    match gate {
        Gate::Const(value) => value,
        Gate::Var(x) => vars[usize::from(x)],
        Gate::Not(i) => !done[i],
        Gate::And(i, j) => done[i] && done[j],
        Gate::Or(i, j) => done[i] || done[j],
        Gate::Xor(i, j) => { if done[i] { !done[j] } else { done[j] } }
        Gate::Ite(i, j, k) => { if done[i] { done[j] } else { done[k] } }
    }
}

/// Gives each gate its value, where the variables have these values: registers, early, control and late variables, in this order. It takes no memory.
pub fn eval(m: &BoolMachine, vars: &[bool], into: &mut [bool])
    requires vars { length vars.now ≡ variables m.now }
    requires into { length into.old ≡ length m.now.gates }
    ensures { into.new ≡ values vars.now [] m.now.gates }
{
    for i in 0..m.gates.len() {
        let value = gate_value(vars, &into[..i], m.gates[i]);
        into[i] = value;
    }
}
