//! Whether machines have form.
ghost use Rattle.std.specs.Prelude.{◌≡◌, ◌++◌, ◌∷◌, [], true, Ok, is_some, IfOk, IfSome};
ghost use Rattle.std.specs.Bool.{Decides};
ghost use Rattle.hp_obc.specs.Form.{MachineForm, MachinesForm};
ghost use Rattle.hp_form.specs.Declaring.{DeclaredForm, StepForm};
ghost use Rattle.hp_form.specs.Scopes.{IsScopeOf};
ghost use Rattle.hp_form.specs.Scoping.{machine_entries};

use crate::command::have_form;
use crate::declare::{add_insts, add_names, is_fresh};
use crate::levels::are_shallow;
use crate::scope::Scope;
use crate::spelling::is_name;
use crate::types::Types;
use hp_base::known::Known;
use hp_obc::Machine;
use std::alloc::{AllocError, Global};

impl<'t, 'a> Scope<'t, 'a> {
    /// What a machine declares, where it has form behind earlier machines.
    pub fn new(
        alloc: Global,
        types: &'t Types<'a>,
        known: &Known<'a, Machine>,
        earlier: &'a [Machine],
        machine: &'a Machine,
    ) -> Result<Option<Scope<'t, 'a>>, AllocError>
        requires { known.now ≡ machine_entries earlier.now }
        ensures form { IfOk result (λ o. Decides (is_some o) (DeclaredForm types.now.declared.now earlier.now machine.now)) }
        ensures of { IfOk result (λ o. IfSome o (λ s. IsScopeOf s types.now.declared.now earlier.now machine.now)) }
    {
        let mut inputs = Known::new(alloc);
        let mut targets = Known::new(alloc);
        let mut instances = Known::new(alloc);
        if !add_names(types, machine, &mut inputs, &mut targets)? {
            return Ok(None);
        }
        if !add_insts(known, &mut instances, &machine.insts)? {
            return Ok(None);
        }
        Ok(Some(Scope {
            types,
            earlier,
            machine,
            inputs,
            targets,
            instances,
        }))
    }
}

/// Whether the commands of a machine have form.
fn step_has_form(alloc: Global, names: &Scope<'_, '_>) -> Result<bool, AllocError>
    ensures { IfOk result (λ b. Decides b (StepForm names.now.types.now.declared.now names.now.earlier.now names.now.machine.now)) }
{
    let machine = names.machine;
    if !are_shallow(&machine.step, 300) {
        return Ok(false);
    }
    let held = have_form(alloc, names, &machine.step)?;
    Ok(held)
}

/// Whether a machine has form behind earlier machines.
fn has_form<'a>(
    alloc: Global,
    types: &Types<'a>,
    known: &Known<'a, Machine>,
    earlier: &'a [Machine],
    machine: &'a Machine,
) -> Result<bool, AllocError>
    requires { known.now ≡ machine_entries earlier.now }
    ensures { IfOk result (λ b. Decides b (MachineForm types.now.declared.now earlier.now machine.now)) }
{
    if !is_name(&machine.name) {
        return Ok(false);
    }
    if !is_fresh(known, &machine.name) {
        return Ok(false);
    }
    let Some(names) = Scope::new(alloc, types, known, earlier, machine)? else {
        return Ok(false);
    };
    let held = step_has_form(alloc, &names)?;
    Ok(held)
}

/// Adds a machine to those before it, where it has form behind them.
fn add_machine<'a>(
    alloc: Global,
    types: &Types<'a>,
    known: &mut Known<'a, Machine>,
    earlier: &'a [Machine],
    machine: &'a Machine,
) -> Result<bool, AllocError>
    requires { known.old ≡ machine_entries earlier.now }
    ensures form { IfOk result (λ b. Decides b (MachineForm types.now.declared.now earlier.now machine.now)) }
    ensures added { result ≡ Ok true → known.new ≡ machine_entries (earlier.now ++ machine.now ∷ []) }
{
    if !has_form(alloc, types, known, earlier, machine)? {
        return Ok(false);
    }
    known.add(&machine.name, machine)?;
    Ok(true)
}

/// Whether each machine has form behind those before it.
pub fn have_form_in_order<'a>(
    alloc: Global,
    types: &Types<'a>,
    machines: &'a [Machine],
) -> Result<bool, AllocError>
    ensures { IfOk result (λ b. Decides b (MachinesForm types.now.declared.now [] machines.now)) }
{
    let mut known = Known::new(alloc);
    for i in 0..machines.len() {
        let earlier = &machines[..i];
        let machine = &machines[i];
        if !add_machine(alloc, types, &mut known, earlier, machine)? {
            return Ok(false);
        }
    }
    Ok(true)
}
