//! The machines that a text says.
ghost use Rattle.std.specs.Prelude.{◌≡◌, map, IfOk};
ghost use Rattle.hp_obc.specs.CommandView.{cmd_seen};
ghost use Rattle.hp_obc.specs.Commands.{arms_of};
ghost use Rattle.hp_obctext.specs.Files.{branches_of};
ghost use Rattle.hp_obctext.specs.Machines.{command, commands, arms, machine_of};
ghost use Rattle.hp_obctext.specs.StepView.{step_seen, branch_seen};

use crate::steps::{Branch, Step, Steps};
use crate::text::Text;
use hp_base::copy_names;
use hp_obc::{Arg, Cmd, Cmds, Machine};
use std::alloc::{AllocError, Global};

fn arg_copy(alloc: Global, arg: &Arg) -> Result<Arg, AllocError>
    ensures { IfOk result (λ copy. copy ≡ arg.now) }
{
    match arg {
        Arg::Name(name) => Ok(Arg::Name(name.copy(alloc)?)),
        Arg::Const(constant) => Ok(Arg::Const(constant.copy(alloc)?)),
    }
}

fn arg_copies(alloc: Global, args: &[Arg]) -> Result<Vec<Arg>, AllocError>
    ensures { IfOk result (λ copies. copies.items ≡ args.now) }
{
    let mut copies = Vec::with_capacity(alloc, args.len())?;
    for arg in args {
        copies.push(arg_copy(alloc, arg)?)?;
    }
    Ok(copies)
}

#[cycle(converting)]
fn command(alloc: Global, step: &Step) -> Result<Cmd, AllocError>
    ensures { IfOk result (λ cmd. cmd_seen cmd ≡ command (step_seen step.now)) }
{
    Ok(match step {
        Step::Set { name, op, args } => Cmd::Set {
            name: name.copy(alloc)?,
            op: *op,
            args: arg_copies(alloc, args)?,
        },
        Step::Call { inst, outs, args } => Cmd::Call {
            inst: inst.copy(alloc)?,
            outs: copy_names(alloc, outs)?,
            args: arg_copies(alloc, args)?,
        },
        Step::Restart { inst } => Cmd::Restart {
            inst: inst.copy(alloc)?,
        },
        Step::Case { name, branches } => Cmd::Case {
            name: name.copy(alloc)?,
            arms: arms(alloc, branches)?,
        },
    })
}

#[cycle(converting)]
#[tactic(auto, using(crate::proofs::Converting::converting))]
fn arms(alloc: Global, branches: &[Branch]) -> Result<Vec<Cmds>, AllocError>
    ensures { IfOk result (λ made. arms_of made.items ≡ arms (branches_of (map branch_seen branches.now))) }
{
    let mut arms = Vec::with_capacity(alloc, branches.len())?;
    for branch in branches {
        arms.push(commands(alloc, &branch.steps)?)?;
    }
    Ok(arms)
}

/// Steps without the values of arms.
#[cycle(converting)]
#[tactic(auto, using(crate::proofs::Converting::converting))]
fn commands(alloc: Global, steps: &Steps) -> Result<Cmds, AllocError>
    ensures { IfOk result (λ made. made ≡ commands steps.now) }
{
    let mut list = Vec::with_capacity(alloc, steps.list.len())?;
    for step in &steps.list {
        list.push(command(alloc, step)?)?;
    }
    Ok(Cmds { list })
}

fn machine_of(alloc: Global, text: Text) -> Result<Machine, AllocError>
    ensures { IfOk result (λ machine. machine ≡ machine_of text) }
{
    let step = commands(alloc, &text.steps)?;
    let Text {
        name,
        inputs,
        outputs,
        vars,
        mems,
        insts,
        steps: _,
    } = text;
    Ok(Machine {
        name,
        inputs,
        outputs,
        vars,
        mems,
        insts,
        step,
    })
}

/// The machines of texts.
pub(crate) fn machines_of(alloc: Global, texts: Vec<Text>) -> Result<Vec<Machine>, AllocError>
    ensures { IfOk result (λ machines. machines.items ≡ map machine_of texts.items) }
{
    let mut machines = Vec::with_capacity(alloc, texts.len())?;
    for text in texts {
        machines.push(machine_of(alloc, text)?)?;
    }
    Ok(machines)
}
