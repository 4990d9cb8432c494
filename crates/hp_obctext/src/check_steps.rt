//! Whether the steps, the machines and the whole of a text keep the rules of form.
ghost use Rattle.std.specs.Prelude.{◌≡◌, [], true, map, length, option_map, OnOk, IfOk, List, ℕ};
ghost use Rattle.hp_obctext.specs.Breaches.{passed_one, after};
ghost use Rattle.hp_obctext.specs.Files.{branches_of};
ghost use Rattle.hp_obctext.specs.Found.{labels_seen};
ghost use Rattle.hp_base.specs.Known.Known.{lookup};
ghost use Rattle.hp_obctext.specs.NamesView.{types_seen, names_seen, kind_seen, maybe_kind_seen};
ghost use Rattle.hp_obctext.specs.Rules.{inputs_of, outputs_of, in_call, is_choice, labels_of_ty, cons_of, in_step, in_steps, in_branches, all_vars, context_of, with_vars, with_mems, with_insts, in_section, in_insts, in_names, in_declarations, in_machine, in_machines, in_file};
ghost use Rattle.hp_obctext.specs.StepView.{step_seen, branch_seen};
ghost use Rattle.hp_obctext.specs.Texts.{file_seen};

use crate::check::{
    check_inputs, check_outs, check_set, check_types, inst_section, mem_section, note_mems,
    note_vars, var_section,
};
use crate::found::Found;
use crate::labels::Labels;
use crate::names::{Kind, Names, Types};
use crate::steps::{Branch, Step, Steps};
use crate::text::{File, Text};
use hp_base::known::Known;
use hp_base::{Name, Ty};
use hp_obc::{Arg, Var};
use std::alloc::{AllocError, Global};

fn inputs_of<'a>(machine: Option<&'a Text>) -> &'a [Var]
    ensures { result.now ≡ inputs_of (option_map (λ m. m.now) machine.entry) }
{
    match machine {
        None => &[],
        Some(machine) => &machine.inputs,
    }
}

fn outputs_of<'a>(machine: Option<&'a Text>) -> &'a [Var]
    ensures { result.now ≡ outputs_of (option_map (λ m. m.now) machine.entry) }
{
    match machine {
        None => &[],
        Some(machine) => &machine.outputs,
    }
}

#[tactic(auto, using(crate::proofs::BreachLaws::passing))]
fn check_call(
    alloc: Global,
    names: &Names<'_, '_>,
    inst: &Name,
    outs: &[Name],
    args: &[Arg],
    found: &mut Found,
) -> Result<(), AllocError>
    ensures { OnOk result (found.new ≡ after found.old (in_call (names_seen names.now) inst.now outs.now args.now)) }
{
    found.word(true);
    found.word(names.insts.has(inst));
    found.word(true);
    let machine = names.insts.get(inst);
    check_outs(alloc, names, outs, outputs_of(machine), found)?;
    found.word(true);
    check_inputs(names, args, inputs_of(machine), found);
    Ok(())
}

/// Whether a case may be over values of the kind.
fn is_choice(kind: Option<Kind<'_>>) -> bool
    ensures { result ≡ is_choice (maybe_kind_seen kind.entry) }
{
    match kind {
        Some(Kind::Bool | Kind::Enum(_)) => true,
        _ => false,
    }
}

fn constructors<'a>(types: &Types<'a>, name: &Name) -> Labels<'a>
    ensures { labels_seen result ≡ cons_of (lookup types.now.names name.now) }
{
    match types.names.get(name) {
        None => Labels::Nothing,
        Some(ty) => Labels::Named(&ty.cons),
    }
}

/// The values of the kind, in order.
fn labels_of<'a>(types: &Types<'a>, kind: Option<Kind<'_>>) -> Labels<'a>
    ensures { labels_seen result ≡ labels_of_ty (types_seen types.now) (maybe_kind_seen kind.entry) }
{
    match kind {
        Some(Kind::Bool) => Labels::Bools,
        Some(Kind::Enum(name)) => constructors(types, name),
        _ => Labels::Nothing,
    }
}

#[cycle(checking)]
#[tactic(auto, using(crate::proofs::BreachLaws::passing))]
fn check_step(
    alloc: Global,
    names: &Names<'_, '_>,
    step: &Step,
    found: &mut Found,
) -> Result<(), AllocError>
    ensures { OnOk result (found.new ≡ after found.old (in_step (names_seen names.now) (step_seen step.now))) }
{
    match step {
        Step::Set { name, op, args } => {
            check_set(names, name, *op, args, found);
            Ok(())
        }
        Step::Call { inst, outs, args } => check_call(alloc, names, inst, outs, args, found),
        Step::Restart { inst } => {
            found.word(true);
            found.word(names.insts.has(inst));
            Ok(())
        }
        Step::Case { name, branches } => {
            let kind = names.kind(name);
            found.word(true);
            found.word(is_choice(kind));
            check_branches(alloc, names, labels_of(names.types, kind), branches, found)
        }
    }
}

#[cycle(checking)]
#[tactic(auto, using(crate::proofs::CheckLaws::branches))]
fn check_branches(
    alloc: Global,
    names: &Names<'_, '_>,
    labels: Labels<'_>,
    branches: &[Branch],
    found: &mut Found,
) -> Result<(), AllocError>
    ensures { OnOk result (found.new ≡ after found.old (in_branches (names_seen names.now) (labels_seen labels.entry) (branches_of (map branch_seen branches.now)))) }
{
    for i in 0..branches.len() {
        let branch = &branches[i];
        found.word(true);
        found.word(labels.is(i, &branch.label));
        check_steps(alloc, names, &branch.steps, found)?;
    }
    found.word(labels.len() <= branches.len());
    Ok(())
}

#[cycle(checking)]
#[tactic(auto, using(crate::proofs::CheckLaws::steps))]
fn check_steps(
    alloc: Global,
    names: &Names<'_, '_>,
    steps: &Steps,
    found: &mut Found,
) -> Result<(), AllocError>
    ensures { OnOk result (found.new ≡ after found.old (in_steps (names_seen names.now) steps.now)) }
{
    for step in &steps.list {
        check_step(alloc, names, step, found)?;
    }
    Ok(())
}

/// Passes the variables and memories of a machine, and gives the types of their names.
#[tactic(auto, using(crate::proofs::BreachLaws::passing))]
fn check_names<'a>(
    alloc: Global,
    types: &Types<'a>,
    machine: &'a Text,
    found: &mut Found,
) -> Result<Known<'a, Ty>, AllocError>
    ensures found { OnOk result (found.new ≡ after found.old (in_names (types_seen types.now) machine.now)) }
    ensures known { IfOk result (λ known. known ≡ all_vars machine.now) }
{
    let mut known = Known::new(alloc);
    var_section(types, &machine.inputs, &mut known, found)?;
    var_section(types, &machine.outputs, &mut known, found)?;
    var_section(types, &machine.vars, &mut known, found)?;
    mem_section(types, &machine.mems, &mut known, found)?;
    Ok(known)
}

/// Passes the instances of a machine, and gives their machines.
#[tactic(auto, using(crate::proofs::BreachLaws::passing))]
fn check_instances<'a>(
    alloc: Global,
    machines: &Known<'a, Text>,
    machine: &'a Text,
    found: &mut Found,
) -> Result<Known<'a, Text>, AllocError>
    ensures found { OnOk result (found.new ≡ after found.old (in_section (in_insts machines.now true [] machine.now.insts))) }
    ensures known { IfOk result (λ known. known ≡ with_insts machines.now [] machine.now.insts) }
{
    let mut known = Known::new(alloc);
    inst_section(machines, &machine.insts, &mut known, found)?;
    Ok(known)
}

/// The types of the names that a step may write.
fn written_names<'a>(alloc: Global, machine: &'a Text) -> Result<Known<'a, Ty>, AllocError>
    ensures { IfOk result (λ known. known ≡ with_mems (with_vars (with_vars [] machine.now.outputs) machine.now.vars) machine.now.mems) }
{
    let mut known = Known::new(alloc);
    note_vars(&mut known, &machine.outputs)?;
    note_vars(&mut known, &machine.vars)?;
    note_mems(&mut known, &machine.mems)?;
    Ok(known)
}

/// Passes the declarations of a machine, and gives its names.
#[tactic(auto, using(crate::proofs::BreachLaws::passing))]
fn check_declarations<'t, 'a>(
    alloc: Global,
    types: &'t Types<'a>,
    machines: &Known<'a, Text>,
    machine: &'a Text,
    found: &mut Found,
) -> Result<Names<'t, 'a>, AllocError>
    ensures found { OnOk result (found.new ≡ after found.old (in_declarations (types_seen types.now) machines.now machine.now)) }
    ensures names { IfOk result (λ names. names_seen names ≡ context_of (types_seen types.now) machines.now machine.now) }
{
    let vars = check_names(alloc, types, machine, found)?;
    let insts = check_instances(alloc, machines, machine, found)?;
    let written = written_names(alloc, machine)?;
    Ok(Names {
        types,
        vars,
        written,
        insts,
    })
}

#[tactic(auto, using(crate::proofs::BreachLaws::passing))]
fn check_machine<'a>(
    alloc: Global,
    types: &Types<'a>,
    machines: &Known<'a, Text>,
    machine: &'a Text,
    found: &mut Found,
) -> Result<(), AllocError>
    ensures { OnOk result (found.new ≡ after found.old (in_machine (types_seen types.now) machines.now machine.now)) }
{
    found.word(true);
    found.word(!machines.has(&machine.name));
    let names = check_declarations(alloc, types, machines, machine, found)?;
    found.word(true);
    check_steps(alloc, &names, &machine.steps, found)?;
    found.word(true);
    Ok(())
}

#[tactic(auto, using(crate::proofs::CheckLaws::machines))]
fn check_machines<'a>(
    alloc: Global,
    types: &Types<'a>,
    machines: &'a [Text],
    found: &mut Found,
) -> Result<(), AllocError>
    ensures { OnOk result (found.new ≡ after found.old (in_machines (types_seen types.now) [] machines.now)) }
{
    let mut known = Known::new(alloc);
    for machine in machines {
        check_machine(alloc, types, &known, machine, found)?;
        known.add(&machine.name, machine)?;
    }
    Ok(())
}

/// Passes the words of a file.
#[tactic(auto, using(crate::proofs::BreachLaws::passing))]
pub(crate) fn check_file(alloc: Global, file: &File, found: &mut Found) -> Result<(), AllocError>
    ensures { OnOk result (found.new ≡ after found.old (in_file (file_seen file.now))) }
{
    found.word(true);
    found.word(true);
    let types = check_types(alloc, &file.types, found)?;
    check_machines(alloc, &types, &file.machines, found)
}
