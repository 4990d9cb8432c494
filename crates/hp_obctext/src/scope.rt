//! The names of a machine, ready to be looked up.
ghost use Rattle.std.specs.Prelude.{◌≡◌, ◌++◌, List, ℕ, map, OnOk, IfOk};
ghost use Rattle.hp_obc.specs.Form.{scope, mem_vars};
ghost use Rattle.hp_obctext.specs.Found.{var_entries, type_entries, labels_at, labels_seen, named};
ghost use Rattle.hp_base.specs.Known.Known.{lookup};

use crate::labels::Labels;
use hp_base::known::Known;
use hp_base::{Name, Ty};
use hp_obc::{Machine, Mem, ObcType, Var};
use std::alloc::{AllocError, Global};

/// The types of a file, and the types of the names of a machine.
#[derive(Drop)]
pub(crate) struct Scope<'a> {
    pub types: &'a Known<'a, ObcType>,
    pub vars: Known<'a, Ty>,
}

/// The types of a file by their names.
pub(crate) fn known_types<'a>(
    alloc: Global,
    types: &'a [ObcType],
) -> Result<Known<'a, ObcType>, AllocError>
    ensures { IfOk result (λ known. (x : List ℕ) → lookup known x ≡ lookup (type_entries types.now) x) }
{
    let mut known = Known::new(alloc);
    for ty in types {
        known.add(&ty.name, ty)?;
    }
    Ok(known)
}

fn add_vars<'a>(known: &mut Known<'a, Ty>, vars: &'a [Var]) -> Result<(), AllocError>
    ensures { OnOk result ((x : List ℕ) → lookup known.new x ≡ lookup (known.old ++ var_entries vars.now) x) }
{
    for var in vars {
        known.add(&var.name, &var.ty)?;
    }
    Ok(())
}

fn add_mems<'a>(known: &mut Known<'a, Ty>, mems: &'a [Mem]) -> Result<(), AllocError>
    ensures { OnOk result ((x : List ℕ) → lookup known.new x ≡ lookup (known.old ++ var_entries (mem_vars mems.now)) x) }
{
    for mem in mems {
        known.add(&mem.name, &mem.ty)?;
    }
    Ok(())
}

/// The types of inputs, outputs, variables and memories.
fn known_vars<'a>(
    alloc: Global,
    inputs: &'a [Var],
    outputs: &'a [Var],
    vars: &'a [Var],
    mems: &'a [Mem],
) -> Result<Known<'a, Ty>, AllocError>
    ensures { IfOk result (λ known. (x : List ℕ) → lookup known x ≡ lookup (var_entries (inputs.now ++ (outputs.now ++ vars.now ++ mem_vars mems.now))) x) }
{
    let mut known = Known::new(alloc);
    add_vars(&mut known, inputs)?;
    add_vars(&mut known, outputs)?;
    add_vars(&mut known, vars)?;
    add_mems(&mut known, mems)?;
    Ok(known)
}

impl<'a> Scope<'a> {
    /// The names of a machine.
    pub(crate) fn new(
        alloc: Global,
        types: &'a Known<'a, ObcType>,
        machine: &'a Machine,
    ) -> Result<Scope<'a>, AllocError>
        ensures types { IfOk result (λ s. s.types.now ≡ types.now) }
        ensures vars { IfOk result (λ s. (x : List ℕ) → lookup s.vars x ≡ lookup (var_entries (scope machine.now)) x) }
    {
        let vars = known_vars(
            alloc,
            &machine.inputs,
            &machine.outputs,
            &machine.vars,
            &machine.mems,
        )?;
        Ok(Scope { types, vars })
    }

    /// The values of the kind of a name.
    pub(crate) fn labels(&self, name: &Name) -> Labels<'_>
        ensures { labels_seen result ≡ labels_at self.now name.now }
    {
        match self.vars.get(name) {
            None => Labels::Nothing,
            Some(Ty::Bool) => Labels::Bools,
            Some(Ty::Int) => Labels::Nothing,
            Some(Ty::Enum(ty)) => self.constructors(ty),
        }
    }

    fn constructors(&self, ty: &Name) -> Labels<'_>
        ensures { labels_seen result ≡ named (lookup self.now.types.now ty.now) }
    {
        match self.types.get(ty) {
            None => Labels::Nothing,
            Some(declared) => Labels::Named(&declared.cons),
        }
    }
}
