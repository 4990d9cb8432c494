//! The machines `min` and `max` of two integers, and what they give.
ghost use Rattle.std.specs.Prelude.{◌≡◌, ◌≤◌, ◌∷◌, [], length, codes, IfOk};
ghost use Rattle.hp_base.specs.Kinds.{Ints, AreOfKinds};
ghost use Rattle.hp_obc.specs.Commands.{set};
ghost use Rattle.hp_obc.specs.declared.command.ObcOp.TheVariants.{Lt, Mux};
ghost use Rattle.hp_obc.specs.CommandView.{cmd_seen};
ghost use Rattle.hp_native.specs.Natively.{IsNative, outputs_of};
ghost use Rattle.hp_native.specs.Order.{lesser, greater, named, args_of, ordering, ordering_commands, min_machine, max_machine};

use hp_base::{MAX_NAME, Name, Ty, Value};
use hp_obc::{Arg, Cmd, Cmds, Machine, ObcOp, Var};
use std::alloc::{AllocError, Global};

/// The lesser of two integers.
fn lesser(first: Value, second: Value) -> Value
    ensures { result ≡ lesser first second }
{
    match (first, second) {
        (Value::I(m), Value::I(n)) => Value::I(if m < n { m } else { n }),
        _ => Value::Absent,
    }
}

/// The greater of two integers.
fn greater(first: Value, second: Value) -> Value
    ensures { result ≡ greater first second }
{
    match (first, second) {
        (Value::I(m), Value::I(n)) => Value::I(if m < n { n } else { m }),
        _ => Value::Absent,
    }
}

/// What the machine `min` gives.
pub fn give_lesser(args: &[Value], outs: &mut [Value])
    requires ins { AreOfKinds (Ints ∷ Ints ∷ []) args.now }
    requires outs { AreOfKinds (Ints ∷ []) outs.old }
    ensures { outs.new ≡ outputs_of [] min_machine args.now }
{
    outs[0] = lesser(args[0], args[1]);
}

/// What the machine `max` gives.
pub fn give_greater(args: &[Value], outs: &mut [Value])
    requires ins { AreOfKinds (Ints ∷ Ints ∷ []) args.now }
    requires outs { AreOfKinds (Ints ∷ []) outs.old }
    ensures { outs.new ≡ outputs_of [] max_machine args.now }
{
    outs[0] = greater(args[0], args[1]);
}

/// A variable.
fn var(alloc: Global, name: &[u8], ty: Ty) -> Result<Var, AllocError>
    requires { length name.now ≤ MAX_NAME }
    ensures { IfOk result (λ v. v ≡ named name.now ty) }
{
    Ok(Var {
        name: Name::new(alloc, name)?,
        ty,
    })
}

/// One variable.
fn vars_of(alloc: Global, name: &[u8], ty: Ty) -> Result<Vec<Var>, AllocError>
    requires { length name.now ≤ MAX_NAME }
    ensures { IfOk result (λ vars. vars.items ≡ named name.now ty ∷ []) }
{
    let mut vars = Vec::new(alloc);
    vars.push(var(alloc, name, ty)?)?;
    Ok(vars)
}

/// The inputs `a` and `b`.
fn inputs_of(alloc: Global) -> Result<Vec<Var>, AllocError>
    ensures { IfOk result (λ vars. vars.items ≡ named (codes "a") Ty.Int ∷ named (codes "b") Ty.Int ∷ []) }
{
    let mut vars = Vec::new(alloc);
    vars.push(var(alloc, b"a", Ty::Int)?)?;
    vars.push(var(alloc, b"b", Ty::Int)?)?;
    Ok(vars)
}

/// The argument of a name.
fn arg(alloc: Global, name: &[u8]) -> Result<Arg, AllocError>
    requires { length name.now ≤ MAX_NAME }
    ensures { IfOk result (λ arg. arg ≡ Arg.Name name.now) }
{
    Ok(Arg::Name(Name::new(alloc, name)?))
}

/// Sets `t` to whether `a` is less than `b`.
fn compare(alloc: Global) -> Result<Cmd, AllocError>
    ensures { IfOk result (λ cmd. cmd_seen cmd ≡ set (codes "t") Lt (args_of (codes "a" ∷ codes "b" ∷ []))) }
{
    let mut args = Vec::new(alloc);
    args.push(arg(alloc, b"a")?)?;
    args.push(arg(alloc, b"b")?)?;
    Ok(Cmd::Set {
        name: Name::new(alloc, b"t")?,
        op: ObcOp::Lt,
        args,
    })
}

/// Sets `m` to one of two names, by what `t` holds.
fn choose(alloc: Global, least: &[u8], other: &[u8]) -> Result<Cmd, AllocError>
    requires least { length least.now ≤ MAX_NAME }
    requires other { length other.now ≤ MAX_NAME }
    ensures { IfOk result (λ cmd. cmd_seen cmd ≡ set (codes "m") Mux (args_of (codes "t" ∷ least.now ∷ other.now ∷ []))) }
{
    let mut args = Vec::new(alloc);
    args.push(arg(alloc, b"t")?)?;
    args.push(arg(alloc, least)?)?;
    args.push(arg(alloc, other)?)?;
    Ok(Cmd::Set {
        name: Name::new(alloc, b"m")?,
        op: ObcOp::Mux,
        args,
    })
}

/// The commands of the machine.
fn commands_of(alloc: Global, least: &[u8], other: &[u8]) -> Result<Cmds, AllocError>
    requires least { length least.now ≤ MAX_NAME }
    requires other { length other.now ≤ MAX_NAME }
    ensures { IfOk result (λ cmds. cmds ≡ ordering_commands least.now other.now) }
{
    let mut list = Vec::new(alloc);
    list.push(compare(alloc)?)?;
    list.push(choose(alloc, least, other)?)?;
    Ok(Cmds { list })
}

/// The machine of a name that gives one of its two inputs, by their order.
fn ordering(alloc: Global, name: &[u8], least: &[u8], other: &[u8]) -> Result<Machine, AllocError>
    requires name { length name.now ≤ MAX_NAME }
    requires least { length least.now ≤ MAX_NAME }
    requires other { length other.now ≤ MAX_NAME }
    ensures { IfOk result (λ m. m ≡ ordering name.now least.now other.now) }
{
    let step = commands_of(alloc, least, other)?;
    Ok(Machine {
        name: Name::new(alloc, name)?,
        inputs: inputs_of(alloc)?,
        outputs: vars_of(alloc, b"m", Ty::Int)?,
        vars: vars_of(alloc, b"t", Ty::Bool)?,
        mems: Vec::new(alloc),
        insts: Vec::new(alloc),
        step,
    })
}

/// The machine `min`, which gives the lesser of its inputs `a` and `b`.
pub fn min_machine(alloc: Global) -> Result<Machine, AllocError>
    ensures machine { IfOk result (λ m. m ≡ min_machine) }
    ensures native { IfOk result IsNative }
{
    ordering(alloc, b"min", b"a", b"b")
}

/// The machine `max`, which gives the greater of its inputs `a` and `b`.
pub fn max_machine(alloc: Global) -> Result<Machine, AllocError>
    ensures machine { IfOk result (λ m. m ≡ max_machine) }
    ensures native { IfOk result IsNative }
{
    ordering(alloc, b"max", b"b", b"a")
}
