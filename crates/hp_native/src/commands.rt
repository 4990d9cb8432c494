//! Whether commands and machines are the same.
ghost use Rattle.std.specs.Prelude.{◌≡◌};
ghost use Rattle.std.specs.Bool.{Decides};
ghost use Rattle.hp_obc.specs.CommandView.{cmd_seen};
ghost use Rattle.hp_obc.specs.Commands.{arms_of, set, call, restart, case_of};
ghost use Rattle.hp_native.specs.Alike.{SameParts};

use crate::same::{Same, are_same};
use hp_base::Name;
use hp_obc::{Arg, Cmd, Cmds, Machine, ObcOp};

/// Whether a command sets this name to the value of this operator.
fn is_set(name: &Name, op: ObcOp, args: &[Arg], other: &Cmd) -> bool
    ensures { Decides result (set name.now op args.now ≡ cmd_seen other.now) }
{
    match other {
        Cmd::Set {
            name: another,
            op: operator,
            args: arguments,
        } => name.same(another) && op == *operator && are_same(args, arguments),
        _ => false,
    }
}

/// Whether a command is this call.
fn is_call(inst: &Name, outs: &[Name], args: &[Arg], other: &Cmd) -> bool
    ensures { Decides result (call inst.now outs.now args.now ≡ cmd_seen other.now) }
{
    match other {
        Cmd::Call {
            inst: another,
            outs: outputs,
            args: arguments,
        } => inst.same(another) && are_same(outs, outputs) && are_same(args, arguments),
        _ => false,
    }
}

/// Whether a command resets this instance.
fn is_restart(inst: &Name, other: &Cmd) -> bool
    ensures { Decides result (restart inst.now ≡ cmd_seen other.now) }
{
    match other {
        Cmd::Restart { inst: another } => inst.same(another),
        _ => false,
    }
}

/// Whether a command is a case over this name with these arms.
#[cycle(same)]
#[tactic(auto, using(crate::proofs::Rules::sizes))]
fn is_case(name: &Name, arms: &[Cmds], other: &Cmd) -> bool
    ensures { Decides result (case_of name.now (arms_of arms.now) ≡ cmd_seen other.now) }
{
    match other {
        Cmd::Case {
            name: another,
            arms: others,
        } => name.same(another) && same_arms(arms, others),
        _ => false,
    }
}

#[cycle(same)]
#[tactic(auto, using(crate::proofs::Rules::sizes))]
fn same_command(cmd: &Cmd, other: &Cmd) -> bool
    ensures { Decides result (cmd_seen cmd.now ≡ cmd_seen other.now) }
{
    match cmd {
        Cmd::Set { name, op, args } => is_set(name, *op, args, other),
        Cmd::Call { inst, outs, args } => is_call(inst, outs, args, other),
        Cmd::Restart { inst } => is_restart(inst, other),
        Cmd::Case { name, arms } => is_case(name, arms, other),
    }
}

#[cycle(same)]
#[tactic(auto, using(crate::proofs::Rules::sizes))]
fn same_commands(cmds: &Cmds, others: &Cmds) -> bool
    ensures { Decides result (cmds.now ≡ others.now) }
{
    if cmds.list.len() != others.list.len() {
        return false;
    }
    for i in 0..cmds.list.len() {
        let cmd = &cmds.list[i];
        let other = &others.list[i];
        if !same_command(cmd, other) {
            return false;
        }
    }
    true
}

#[cycle(same)]
#[tactic(auto, using(crate::proofs::Rules::sizes))]
fn same_arms(arms: &[Cmds], others: &[Cmds]) -> bool
    ensures { Decides result (arms_of arms.now ≡ arms_of others.now) }
{
    if arms.len() != others.len() {
        return false;
    }
    for i in 0..arms.len() {
        let cmds = &arms[i];
        let other = &others[i];
        if !same_commands(cmds, other) {
            return false;
        }
    }
    true
}

/// Whether two machines have the same variables, memories and instances.
fn same_parts(m: &Machine, other: &Machine) -> bool
    ensures { Decides result (SameParts m.now other.now) }
{
    are_same(&m.inputs, &other.inputs)
        && are_same(&m.outputs, &other.outputs)
        && are_same(&m.vars, &other.vars)
        && are_same(&m.mems, &other.mems)
        && are_same(&m.insts, &other.insts)
}

/// Whether two machines are the same, to each name, their own too. It takes no memory, and looks as deep as cases nest in both.
pub fn same_machine(m: &Machine, other: &Machine) -> bool
    ensures { Decides result (m.now ≡ other.now) }
{
    m.name.same(&other.name) && same_parts(m, other) && same_commands(&m.step, &other.step)
}
