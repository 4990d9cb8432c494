//! Names that are declared one behind the other.
ghost use Rattle.std.specs.Prelude.{◌≡◌, ◌++◌, ◌∷◌, [], true, false, not, Ok, IsSome, IfOk};
ghost use Rattle.std.specs.Bool.{Decides};
ghost use Rattle.std.specs.List.{IsDistinct};
ghost use Rattle.std.specs.Str.{bytes_eq};
ghost use Rattle.hp_base.specs.Known.Known.{lookup};
ghost use Rattle.hp_obc.specs.Values.{kind_of};
ghost use Rattle.hp_obc.specs.Form.{has_name, is_name, constant_kind, BothAre};
ghost use Rattle.hp_form.specs.Declaring.{keys, IsNew, VarForm, VarsForm, MemForm, MemsForm, InstsKnown, with_inst, with_insts, NamesForm};
ghost use Rattle.hp_form.specs.Scoping.{var_entries, mem_entries, target_entries};

use crate::kind::both_are;
use crate::spelling::is_name;
use crate::types::Types;
use hp_base::known::Known;
use hp_base::{Name, Ty};
use hp_obc::{Machine, Mem, Var};
use std::alloc::{AllocError, Global};

/// Whether nothing is known of the name yet.
#[tactic(auto, using(crate::proofs::Rules::known))]
pub fn is_fresh<T>(known: &Known<'_, T>, name: &Name) -> bool
    ensures { result ≡ not (has_name (keys known.now) name.now) }
{
    !known.has(name)
}

/// Adds what is known of a name, where nothing is yet, and answers whether it was so.
#[tactic(auto, using(crate::proofs::Rules::known))]
pub fn add_apart<'a, T>(
    known: &mut Known<'a, T>,
    name: &'a Name,
    value: &'a T,
) -> Result<bool, AllocError>
    ensures apart { IfOk result (λ b. Decides b (has_name (keys known.old) name.now ≡ false)) }
    ensures added { result ≡ Ok true → known.new ≡ known.old ++ (name.now, value.now) ∷ [] }
{
    if !is_fresh(known, name) {
        return Ok(false);
    }
    known.add(name, value)?;
    Ok(true)
}

/// Whether names differ.
pub fn are_apart(alloc: Global, names: &[Name]) -> Result<bool, AllocError>
    ensures { IfOk result (λ b. Decides b (IsDistinct bytes_eq names.now)) }
{
    let mut known = Known::new(alloc);
    for name in names {
        if !add_apart(&mut known, name, name)? {
            return Ok(false);
        }
    }
    Ok(true)
}

/// Whether the name is one, and new among some names and others.
fn may_declare(before: &Known<'_, Ty>, known: &Known<'_, Ty>, name: &Name) -> bool
    ensures { Decides result (IsNew is_name (keys before.now ++ keys known.now) name.now) }
{
    if !is_name(name) {
        return false;
    }
    if !is_fresh(before, name) {
        return false;
    }
    is_fresh(known, name)
}

#[tactic(auto, using(crate::proofs::Rules::known))]
fn add_var<'a>(
    types: &Types<'_>,
    before: &Known<'a, Ty>,
    known: &mut Known<'a, Ty>,
    var: &'a Var,
) -> Result<bool, AllocError>
    ensures form { IfOk result (λ b. Decides b (VarForm types.now.declared.now (keys before.now ++ keys known.old) var.now)) }
    ensures added { result ≡ Ok true → known.new ≡ known.old ++ (var.now.name, var.now.ty) ∷ [] }
{
    if !may_declare(before, known, &var.name) {
        return Ok(false);
    }
    if types.kind(&var.ty).is_none() {
        return Ok(false);
    }
    known.add(&var.name, &var.ty)?;
    Ok(true)
}

/// Adds variables to known names, where they have form behind these and those before.
fn add_vars<'a>(
    types: &Types<'_>,
    before: &Known<'a, Ty>,
    known: &mut Known<'a, Ty>,
    vars: &'a [Var],
) -> Result<bool, AllocError>
    ensures form { IfOk result (λ b. Decides b (VarsForm types.now.declared.now (keys before.now ++ keys known.old) vars.now)) }
    ensures added { result ≡ Ok true → known.new ≡ known.old ++ var_entries vars.now }
{
    for i in 0..vars.len() {
        let var = &vars[i];
        if !add_var(types, before, known, var)? {
            return Ok(false);
        }
    }
    Ok(true)
}

#[tactic(auto, using(crate::proofs::Rules::known))]
fn add_mem<'a>(
    types: &Types<'_>,
    before: &Known<'a, Ty>,
    known: &mut Known<'a, Ty>,
    mem: &'a Mem,
) -> Result<bool, AllocError>
    ensures form { IfOk result (λ b. Decides b (MemForm types.now.declared.now (keys before.now ++ keys known.old) mem.now)) }
    ensures added { result ≡ Ok true → known.new ≡ known.old ++ (mem.now.name, mem.now.ty) ∷ [] }
{
    if !may_declare(before, known, &mem.name) {
        return Ok(false);
    }
    if !begins_well(types, mem) {
        return Ok(false);
    }
    known.add(&mem.name, &mem.ty)?;
    Ok(true)
}

/// Whether the first value of a memory is of its kind.
fn begins_well(types: &Types<'_>, mem: &Mem) -> bool
    ensures { Decides result (BothAre (kind_of types.now.declared.now mem.now.ty) (constant_kind types.now.declared.now mem.now.first)) }
{
    both_are(types.kind(&mem.ty), types.constant(&mem.first))
}

/// Adds memories to known names, where they have form behind these and those before.
fn add_mems<'a>(
    types: &Types<'_>,
    before: &Known<'a, Ty>,
    known: &mut Known<'a, Ty>,
    mems: &'a [Mem],
) -> Result<bool, AllocError>
    ensures form { IfOk result (λ b. Decides b (MemsForm types.now.declared.now (keys before.now ++ keys known.old) mems.now)) }
    ensures added { result ≡ Ok true → known.new ≡ known.old ++ mem_entries mems.now }
{
    for i in 0..mems.len() {
        let mem = &mems[i];
        if !add_mem(types, before, known, mem)? {
            return Ok(false);
        }
    }
    Ok(true)
}

fn add_inst<'a>(
    earlier: &Known<'a, Machine>,
    known: &mut Known<'a, Machine>,
    inst: &'a (Name, Name),
) -> Result<bool, AllocError>
    ensures form { IfOk result (λ b. Decides b (IsNew is_name (keys known.old) inst.now.0 × IsSome (lookup earlier.now inst.now.1))) }
    ensures added { result ≡ Ok true → known.new ≡ with_inst earlier.now known.old inst.now }
{
    let Some(machine) = earlier.get(&inst.1) else {
        return Ok(false);
    };
    if !is_name(&inst.0) {
        return Ok(false);
    }
    let apart = add_apart(known, &inst.0, machine)?;
    Ok(apart)
}

/// Adds instances with their machines, where they have form.
pub fn add_insts<'a>(
    earlier: &Known<'a, Machine>,
    known: &mut Known<'a, Machine>,
    insts: &'a [(Name, Name)],
) -> Result<bool, AllocError>
    requires { known.old ≡ [] }
    ensures form { IfOk result (λ b. Decides b (InstsKnown earlier.now [] insts.now)) }
    ensures added { result ≡ Ok true → known.new ≡ with_insts earlier.now [] insts.now }
{
    for i in 0..insts.len() {
        let inst = &insts[i];
        if !add_inst(earlier, known, inst)? {
            return Ok(false);
        }
    }
    Ok(true)
}

/// Adds the variables and memories of a machine, where they have form.
pub fn add_names<'a>(
    types: &Types<'_>,
    machine: &'a Machine,
    inputs: &mut Known<'a, Ty>,
    targets: &mut Known<'a, Ty>,
) -> Result<bool, AllocError>
    requires inputs { inputs.old ≡ [] }
    requires targets { targets.old ≡ [] }
    ensures form { IfOk result (λ b. Decides b (NamesForm types.now.declared.now machine.now)) }
    ensures inputs { result ≡ Ok true → inputs.new ≡ var_entries machine.now.inputs }
    ensures targets { result ≡ Ok true → targets.new ≡ target_entries machine.now }
{
    if !add_vars(types, targets, inputs, &machine.inputs)? {
        return Ok(false);
    }
    if !add_vars(types, inputs, targets, &machine.outputs)? {
        return Ok(false);
    }
    if !add_vars(types, inputs, targets, &machine.vars)? {
        return Ok(false);
    }
    let held = add_mems(types, inputs, targets, &machine.mems)?;
    Ok(held)
}
