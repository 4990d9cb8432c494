//! Whether the commands of a step have form.
ghost use Rattle.hp_obc.specs.Machines.{ObcType};
ghost use Rattle.std.specs.Prelude.{◌≡◌, List, length, map, Some, option_and_then, IfOk};
ghost use Rattle.std.specs.Bool.{Decides};
ghost use Rattle.std.specs.List.{IsDistinct};
ghost use Rattle.std.specs.Str.{bytes_eq};
ghost use Rattle.hp_obc.specs.CommandView.{cmd_seen};
ghost use Rattle.hp_obc.specs.Commands.{arms_of, set, call};
ghost use Rattle.hp_obc.specs.Values.{kind_of};
ghost use Rattle.hp_obc.specs.Form.{written, scope, kind_in, argument_kind, argument_kinds, name_kinds, var_kinds, result_kind, arms_for, unary_kind, BothAre, CallForm, HaveForm, HasForm, ArmsHaveForm};
ghost use Rattle.hp_form.specs.Kinds.{maybe_at, on_one, on_two, on_three};
ghost use Rattle.hp_form.specs.Scoping.{Agree};

use crate::declare::are_apart;
use crate::kind::{Kind, binary, both_are, ternary, unary};
use crate::scope::Scope;
use hp_base::Name;
use hp_obc::{Arg, Cmd, Cmds, Machine, ObcOp, Var};
use std::alloc::{AllocError, Global};

fn on_one(op: ObcOp, kind: Option<Kind>) -> Option<Kind>
    ensures { (types : List ObcType) → maybe_at types result ≡ on_one op (maybe_at types kind) }
{
    match kind {
        Some(kind) => unary(op, kind),
        None => None,
    }
}

fn on_two(op: ObcOp, first: Option<Kind>, second: Option<Kind>) -> Option<Kind>
    ensures { (types : List ObcType) → maybe_at types result ≡ on_two op (maybe_at types first) (maybe_at types second) }
{
    match (first, second) {
        (Some(first), Some(second)) => binary(op, first, second),
        _ => None,
    }
}

fn on_three(
    op: ObcOp,
    first: Option<Kind>,
    second: Option<Kind>,
    third: Option<Kind>,
) -> Option<Kind>
    ensures { (types : List ObcType) → maybe_at types result ≡ on_three op (maybe_at types first) (maybe_at types second) (maybe_at types third) }
{
    match (first, second, third) {
        (Some(first), Some(second), Some(third)) => ternary(op, first, second, third),
        _ => None,
    }
}

/// The kind of what an operator gives on some arguments.
fn set_kind(names: &Scope<'_, '_>, op: ObcOp, args: &[Arg]) -> Option<Kind>
    ensures { maybe_at names.now.types.now.declared.now result ≡ option_and_then (result_kind op) (argument_kinds names.now.types.now.declared.now (scope names.now.machine.now) args.now) }
{
    let count = args.len();
    if count == 1 {
        return on_one(op, names.arg(&args[0]));
    }
    if count == 2 {
        return on_two(op, names.arg(&args[0]), names.arg(&args[1]));
    }
    if count == 3 {
        let (first, second) = (names.arg(&args[0]), names.arg(&args[1]));
        return on_three(op, first, second, names.arg(&args[2]));
    }
    None
}

fn set_has_form(names: &Scope<'_, '_>, name: &Name, op: ObcOp, args: &[Arg]) -> bool
    ensures { Decides result (HasForm names.now.types.now.declared.now names.now.earlier.now names.now.machine.now (set name.now op args.now)) }
{
    both_are(names.target(name), set_kind(names, op, args))
}

fn arg_fits(names: &Scope<'_, '_>, arg: &Arg, input: &Var) -> bool
    ensures { Decides result (BothAre (argument_kind names.now.types.now.declared.now (scope names.now.machine.now) arg.now) (kind_of names.now.types.now.declared.now input.now.ty)) }
{
    both_are(names.arg(arg), names.types.kind(&input.ty))
}

/// Whether arguments have the kinds of inputs.
fn args_agree(names: &Scope<'_, '_>, args: &[Arg], inputs: &[Var]) -> bool
    ensures { Decides result (Agree (argument_kind names.now.types.now.declared.now (scope names.now.machine.now)) names.now.types.now.declared.now args.now inputs.now) }
{
    if args.len() != inputs.len() {
        return false;
    }
    for i in 0..args.len() {
        if !arg_fits(names, &args[i], &inputs[i]) {
            return false;
        }
    }
    true
}

fn out_fits(names: &Scope<'_, '_>, out: &Name, output: &Var) -> bool
    ensures { Decides result (BothAre (kind_in names.now.types.now.declared.now (written names.now.machine.now) out.now) (kind_of names.now.types.now.declared.now output.now.ty)) }
{
    both_are(names.target(out), names.types.kind(&output.ty))
}

/// Whether names that the step may write have the kinds of outputs.
fn outs_agree(names: &Scope<'_, '_>, outs: &[Name], outputs: &[Var]) -> bool
    ensures { Decides result (Agree (kind_in names.now.types.now.declared.now (written names.now.machine.now)) names.now.types.now.declared.now outs.now outputs.now) }
{
    if outs.len() != outputs.len() {
        return false;
    }
    for i in 0..outs.len() {
        if !out_fits(names, &outs[i], &outputs[i]) {
            return false;
        }
    }
    true
}

/// Whether a call gives the callee what it takes, and takes what it gives, each output once.
fn fits_callee(
    alloc: Global,
    names: &Scope<'_, '_>,
    callee: &Machine,
    outs: &[Name],
    args: &[Arg],
) -> Result<bool, AllocError>
    ensures { IfOk result (λ b. Decides b (CallForm names.now.types.now.declared.now names.now.machine.now callee.now outs.now args.now)) }
{
    if !args_agree(names, args, &callee.inputs) {
        return Ok(false);
    }
    if !outs_agree(names, outs, &callee.outputs) {
        return Ok(false);
    }
    let apart = are_apart(alloc, outs)?;
    Ok(apart)
}

fn call_has_form(
    alloc: Global,
    names: &Scope<'_, '_>,
    inst: &Name,
    outs: &[Name],
    args: &[Arg],
) -> Result<bool, AllocError>
    ensures { IfOk result (λ b. Decides b (HasForm names.now.types.now.declared.now names.now.earlier.now names.now.machine.now (call inst.now outs.now args.now))) }
{
    let Some(callee) = names.callee(inst) else {
        return Ok(false);
    };
    let fits = fits_callee(alloc, names, callee, outs, args)?;
    Ok(fits)
}

/// Whether a case over the name has so many arms.
fn has_arms(names: &Scope<'_, '_>, name: &Name, count: usize) -> bool
    ensures { Decides result (option_and_then arms_for (kind_in names.now.types.now.declared.now (scope names.now.machine.now) name.now) ≡ Some count) }
{
    match names.kind(name) {
        None => false,
        Some(kind) => names.types.arms(kind) == Some(count),
    }
}

#[cycle(commands)]
#[tactic(auto, using(crate::proofs::Rules::sizes))]
fn has_form(alloc: Global, names: &Scope<'_, '_>, cmd: &Cmd) -> Result<bool, AllocError>
    ensures { IfOk result (λ b. Decides b (HasForm names.now.types.now.declared.now names.now.earlier.now names.now.machine.now (cmd_seen cmd.now))) }
{
    match cmd {
        Cmd::Set { name, op, args } => Ok(set_has_form(names, name, *op, args)),
        Cmd::Call { inst, outs, args } => {
            let fits = call_has_form(alloc, names, inst, outs, args)?;
            Ok(fits)
        }
        Cmd::Restart { inst } => Ok(names.callee(inst).is_some()),
        Cmd::Case { name, arms } => {
            if !has_arms(names, name, arms.len()) {
                return Ok(false);
            }
            let held = arms_have_form(alloc, names, arms)?;
            Ok(held)
        }
    }
}

#[cycle(commands)]
#[tactic(auto, using(crate::proofs::Rules::sizes))]
fn arms_have_form(alloc: Global, names: &Scope<'_, '_>, arms: &[Cmds]) -> Result<bool, AllocError>
    ensures { IfOk result (λ b. Decides b (ArmsHaveForm names.now.types.now.declared.now names.now.earlier.now names.now.machine.now (arms_of arms.now))) }
{
    for cmds in arms {
        if !have_form(alloc, names, cmds)? {
            return Ok(false);
        }
    }
    Ok(true)
}

/// Whether commands have form.
#[cycle(commands)]
#[tactic(auto, using(crate::proofs::Rules::sizes))]
pub fn have_form(alloc: Global, names: &Scope<'_, '_>, cmds: &Cmds) -> Result<bool, AllocError>
    ensures { IfOk result (λ b. Decides b (HaveForm names.now.types.now.declared.now names.now.earlier.now names.now.machine.now cmds.now)) }
{
    for cmd in &cmds.list {
        if !has_form(alloc, names, cmd)? {
            return Ok(false);
        }
    }
    Ok(true)
}
