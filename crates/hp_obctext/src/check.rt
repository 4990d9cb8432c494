//! Whether the words of a text keep the rules of form.
ghost use Rattle.std.specs.Prelude.{◌≡◌, ◌∷◌, ◌++◌, [], false, true, drop, is_some, option_map, Some, IfOk, OnOk};
ghost use Rattle.hp_obctext.specs.Breaches.{passed_one, after};
ghost use Rattle.hp_base.specs.Known.Known.{lookup};
ghost use Rattle.hp_obctext.specs.NamesView.{types_seen, names_seen, kind_seen, maybe_kind_seen};
ghost use Rattle.hp_obctext.specs.Rules.{in_constructors, with_constructors, in_type, with_type, in_types, with_types, no_types, in_vars, with_vars, in_mems, with_mems, in_insts, with_insts, in_section, in_op, wanted, in_args, first_ty, with_instance, in_set, is_output, with_output, in_outs, is_input, in_inputs, in_call};

use crate::found::Found;
use crate::names::{Kind, Names, Types, agree, kind_of};
use crate::text::Text;
use hp_base::known::Known;
use hp_base::{Name, Ty};
use hp_obc::{Arg, Mem, ObcOp, ObcType, Var};
use std::alloc::{AllocError, Global};

/// Passes the constructors of a type, each with `=` or `|` in front, and adds them.
#[tactic(auto, using(crate::proofs::CheckLaws::constructors))]
fn check_constructors<'a>(
    ty: &'a ObcType,
    names: &'a [Name],
    cons: &mut Known<'a, ObcType>,
    found: &mut Found,
) -> Result<(), AllocError>
    ensures found { OnOk result (found.new ≡ after found.old (in_constructors ty.now 0 cons.old names.now)) }
    ensures cons { OnOk result (cons.new ≡ with_constructors ty.now cons.old names.now) }
{
    for i in 0..names.len() {
        let name = &names[i];
        found.word(true);
        found.word(!cons.has(name) & (i < 64));
        cons.add(name, ty)?;
    }
    Ok(())
}

/// Passes a type, and adds it.
#[tactic(auto, using(crate::proofs::BreachLaws::passing))]
fn check_type<'a>(
    ty: &'a ObcType,
    types: &mut Types<'a>,
    found: &mut Found,
) -> Result<(), AllocError>
    ensures found { OnOk result (found.new ≡ after found.old (in_type (types_seen types.old) ty.now)) }
    ensures types { OnOk result (types_seen types.new ≡ with_type (types_seen types.old) ty.now) }
{
    found.word(true);
    found.word(!types.names.has(&ty.name) & (types.names.len() < 1000));
    types.names.add(&ty.name, ty)?;
    check_constructors(ty, &ty.cons, &mut types.cons, found)
}

/// Passes types, and gives what is known behind them.
#[tactic(auto, using(crate::proofs::CheckLaws::types))]
pub(crate) fn check_types<'a>(
    alloc: Global,
    types: &'a [ObcType],
    found: &mut Found,
) -> Result<Types<'a>, AllocError>
    ensures found { OnOk result (found.new ≡ after found.old (in_types no_types types.now)) }
    ensures types { IfOk result (λ known. types_seen known ≡ with_types no_types types.now) }
{
    let mut known = Types {
        names: Known::new(alloc),
        cons: Known::new(alloc),
    };
    for ty in types {
        check_type(ty, &mut known, found)?;
    }
    Ok(known)
}

#[tactic(auto, using(crate::proofs::CheckLaws::vars))]
fn check_vars<'a>(
    types: &Types<'_>,
    vars: &'a [Var],
    known: &mut Known<'a, Ty>,
    found: &mut Found,
) -> Result<(), AllocError>
    ensures found { OnOk result (found.new ≡ after found.old (in_vars (types_seen types.now) true known.old vars.now)) }
    ensures known { OnOk result (known.new ≡ with_vars known.old vars.now) }
{
    let mut first = true;
    for var in vars {
        found.comma(first);
        found.word(!known.has(&var.name));
        found.word(true);
        found.word(types.is_known(&var.ty));
        known.add(&var.name, &var.ty)?;
        first = false;
    }
    Ok(())
}

#[tactic(auto, using(crate::proofs::CheckLaws::mems))]
fn check_mems<'a>(
    types: &Types<'_>,
    mems: &'a [Mem],
    known: &mut Known<'a, Ty>,
    found: &mut Found,
) -> Result<(), AllocError>
    ensures found { OnOk result (found.new ≡ after found.old (in_mems (types_seen types.now) true known.old mems.now)) }
    ensures known { OnOk result (known.new ≡ with_mems known.old mems.now) }
{
    let mut first = true;
    for mem in mems {
        found.comma(first);
        found.word(!known.has(&mem.name));
        found.word(true);
        found.word(types.is_known(&mem.ty));
        found.word(true);
        found.word(agree(types.kind(&mem.first), Some(kind_of(&mem.ty))));
        known.add(&mem.name, &mem.ty)?;
        first = false;
    }
    Ok(())
}

/// Adds an instance whose machine is known.
fn add_instance<'a>(
    insts: &mut Known<'a, Text>,
    name: &'a Name,
    machine: Option<&'a Text>,
) -> Result<(), AllocError>
    ensures { OnOk result (insts.new ≡ with_instance insts.old name.now (option_map (λ m. m.now) machine.entry)) }
{
    match machine {
        None => Ok(()),
        Some(machine) => insts.add(name, machine),
    }
}

#[tactic(auto, using(crate::proofs::CheckLaws::insts))]
fn check_insts<'a>(
    machines: &Known<'a, Text>,
    insts: &'a [(Name, Name)],
    known: &mut Known<'a, Text>,
    found: &mut Found,
) -> Result<(), AllocError>
    ensures found { OnOk result (found.new ≡ after found.old (in_insts machines.now true known.old insts.now)) }
    ensures known { OnOk result (known.new ≡ with_insts machines.now known.old insts.now) }
{
    let mut first = true;
    for inst in insts {
        found.comma(first);
        found.word(!known.has(&inst.0));
        found.word(true);
        found.word(machines.has(&inst.1));
        add_instance(known, &inst.0, machines.get(&inst.1))?;
        first = false;
    }
    Ok(())
}

#[tactic(auto, using(crate::proofs::CheckLaws::vars))]
pub(crate) fn note_vars<'a>(known: &mut Known<'a, Ty>, vars: &'a [Var]) -> Result<(), AllocError>
    ensures { OnOk result (known.new ≡ with_vars known.old vars.now) }
{
    for var in vars {
        known.add(&var.name, &var.ty)?;
    }
    Ok(())
}

#[tactic(auto, using(crate::proofs::CheckLaws::mems))]
pub(crate) fn note_mems<'a>(known: &mut Known<'a, Ty>, mems: &'a [Mem]) -> Result<(), AllocError>
    ensures { OnOk result (known.new ≡ with_mems known.old mems.now) }
{
    for mem in mems {
        known.add(&mem.name, &mem.ty)?;
    }
    Ok(())
}

#[tactic(auto, using(crate::proofs::BreachLaws::passing))]
pub(crate) fn var_section<'a>(
    types: &Types<'_>,
    vars: &'a [Var],
    known: &mut Known<'a, Ty>,
    found: &mut Found,
) -> Result<(), AllocError>
    ensures found { OnOk result (found.new ≡ after found.old (in_section (in_vars (types_seen types.now) true known.old vars.now))) }
    ensures known { OnOk result (known.new ≡ with_vars known.old vars.now) }
{
    found.word(true);
    found.word(true);
    check_vars(types, vars, known, found)?;
    found.word(true);
    Ok(())
}

#[tactic(auto, using(crate::proofs::BreachLaws::passing))]
pub(crate) fn mem_section<'a>(
    types: &Types<'_>,
    mems: &'a [Mem],
    known: &mut Known<'a, Ty>,
    found: &mut Found,
) -> Result<(), AllocError>
    ensures found { OnOk result (found.new ≡ after found.old (in_section (in_mems (types_seen types.now) true known.old mems.now))) }
    ensures known { OnOk result (known.new ≡ with_mems known.old mems.now) }
{
    found.word(true);
    found.word(true);
    check_mems(types, mems, known, found)?;
    found.word(true);
    Ok(())
}

#[tactic(auto, using(crate::proofs::BreachLaws::passing))]
pub(crate) fn inst_section<'a>(
    machines: &Known<'a, Text>,
    insts: &'a [(Name, Name)],
    known: &mut Known<'a, Text>,
    found: &mut Found,
) -> Result<(), AllocError>
    ensures found { OnOk result (found.new ≡ after found.old (in_section (in_insts machines.now true known.old insts.now))) }
    ensures known { OnOk result (known.new ≡ with_insts machines.now known.old insts.now) }
{
    found.word(true);
    found.word(true);
    check_insts(machines, insts, known, found)?;
    found.word(true);
    Ok(())
}

/// Passes the operator of a `set`.
#[tactic(auto, using(crate::proofs::BreachLaws::passing))]
fn check_op(op: ObcOp, target: Option<Kind<'_>>, found: &mut Found)
    ensures { found.new ≡ after found.old (in_op op (maybe_kind_seen target.entry)) }
{
    match op {
        ObcOp::Copy => {}
        ObcOp::Mux => found.word(true),
        ObcOp::Neg | ObcOp::Add | ObcOp::Sub | ObcOp::Mul | ObcOp::Div | ObcOp::Rem => {
            found.word(agree(target, Some(Kind::Int)));
        }
        _ => found.word(agree(target, Some(Kind::Bool))),
    }
}

/// The kind that an argument is to have.
fn wanted<'a>(
    op: ObcOp,
    target: Option<Kind<'a>>,
    first: Option<Kind<'a>>,
    number: usize,
) -> Option<Kind<'a>>
    ensures { maybe_kind_seen result ≡ wanted op (maybe_kind_seen target.entry) (maybe_kind_seen first.entry) number }
{
    match op {
        ObcOp::Copy => target,
        ObcOp::Mux => {
            if number == 0 {
                Some(Kind::Bool)
            } else {
                target
            }
        }
        ObcOp::Eq | ObcOp::Ne => first,
        ObcOp::Not | ObcOp::And | ObcOp::Or | ObcOp::Xor | ObcOp::Imp => Some(Kind::Bool),
        _ => Some(Kind::Int),
    }
}

#[tactic(auto, using(crate::proofs::CheckLaws::args))]
fn check_args(
    names: &Names<'_, '_>,
    op: ObcOp,
    target: Option<Kind<'_>>,
    args: &[Arg],
    found: &mut Found,
)
    ensures { found.new ≡ after found.old (in_args (names_seen names.now) op (maybe_kind_seen target.entry) (first_ty (names_seen names.now) args.now) 0 args.now) }
{
    let first = match args {
        [] => None,
        [arg, ..] => names.arg(arg),
    };
    for i in 0..args.len() {
        let kind = names.arg(&args[i]);
        found.word(agree(kind, wanted(op, target, first, i)));
    }
}

#[tactic(auto, using(crate::proofs::BreachLaws::passing))]
pub(crate) fn check_set(
    names: &Names<'_, '_>,
    name: &Name,
    op: ObcOp,
    args: &[Arg],
    found: &mut Found,
)
    ensures { found.new ≡ after found.old (in_set (names_seen names.now) name.now op args.now) }
{
    found.word(true);
    found.word(names.written.has(name));
    let target = names.target(name);
    check_op(op, target, found);
    check_args(names, op, target, args, found);
}

/// Passes an output of a call, and notes it.
#[tactic(auto, using(crate::proofs::CheckLaws::output))]
fn check_output<'a>(
    names: &Names<'_, '_>,
    name: &'a Name,
    outputs: &'a [Var],
    i: usize,
    seen: &mut Known<'a, Ty>,
    found: &mut Found,
) -> Result<(), AllocError>
    ensures found { OnOk result (found.new ≡ passed_one found.old (is_output (names_seen names.now) seen.old name.now (drop i outputs.now))) }
    ensures seen { OnOk result (seen.new ≡ with_output seen.old name.now (drop i outputs.now)) }
{
    if i < outputs.len() {
        let ty = &outputs[i].ty;
        found.word(!seen.has(name) & agree(names.target(name), Some(kind_of(ty))));
        seen.add(name, ty)
    } else {
        found.word(false);
        Ok(())
    }
}

#[tactic(auto, using(crate::proofs::CheckLaws::outs))]
pub(crate) fn check_outs<'a>(
    alloc: Global,
    names: &Names<'_, '_>,
    outs: &'a [Name],
    outputs: &'a [Var],
    found: &mut Found,
) -> Result<(), AllocError>
    ensures { OnOk result (found.new ≡ after found.old (in_outs (names_seen names.now) [] outs.now outputs.now)) }
{
    let mut seen = Known::new(alloc);
    for i in 0..outs.len() {
        check_output(names, &outs[i], outputs, i, &mut seen, found)?;
    }
    found.word(outputs.len() <= outs.len());
    Ok(())
}

#[tactic(auto, using(crate::proofs::CheckLaws::input))]
fn check_input(names: &Names<'_, '_>, arg: &Arg, inputs: &[Var], i: usize, found: &mut Found)
    ensures { found.new ≡ passed_one found.old (is_input (names_seen names.now) arg.now (drop i inputs.now)) }
{
    if i < inputs.len() {
        found.word(agree(names.arg(arg), Some(kind_of(&inputs[i].ty))));
    } else {
        found.word(false);
    }
}

#[tactic(auto, using(crate::proofs::CheckLaws::inputs))]
pub(crate) fn check_inputs(names: &Names<'_, '_>, args: &[Arg], inputs: &[Var], found: &mut Found)
    ensures { found.new ≡ after found.old (in_inputs (names_seen names.now) args.now inputs.now) }
{
    for i in 0..args.len() {
        check_input(names, &args[i], inputs, i, found);
    }
    found.word(inputs.len() <= args.len());
}
