//! What a machine declares, ready to be looked up.
ghost use Rattle.std.specs.Prelude.{◌≡◌, option_map};
ghost use Rattle.hp_obc.specs.Form.{written, scope, kind_in, argument_kind, machine_of};
ghost use Rattle.hp_form.specs.Kinds.{maybe_at};
ghost use Rattle.hp_form.specs.Scoping.{var_entries, target_entries, Holds};

use crate::kind::Kind;
use crate::types::Types;
use hp_base::known::Known;
use hp_base::{Name, Ty};
use hp_obc::{Arg, Machine};

/// What a machine declares, by the names.
#[derive(Drop)]
pub struct Scope<'t, 'a> {
    pub types: &'t Types<'a>,
    /// The machines before it.
    pub earlier: &'a [Machine],
    pub machine: &'a Machine,
    pub inputs: Known<'a, Ty>,
    /// What its step may write.
    pub targets: Known<'a, Ty>,
    pub instances: Known<'a, Machine>,
    ghost reads: { inputs ≡ var_entries machine.now.inputs },
    ghost writes: { targets ≡ target_entries machine.now },
    ghost holds: { Holds instances earlier.now machine.now.insts },
}

impl<'a> Scope<'_, 'a> {
    /// The kind of a name that the step may write.
    pub fn target(&self, name: &Name) -> Option<Kind>
        ensures { maybe_at self.now.types.now.declared.now result ≡ kind_in self.now.types.now.declared.now (written self.now.machine.now) name.now }
    {
        match self.targets.get(name) {
            None => None,
            Some(ty) => self.types.kind(ty),
        }
    }

    /// The kind of a name that the step may read.
    pub fn kind(&self, name: &Name) -> Option<Kind>
        ensures { maybe_at self.now.types.now.declared.now result ≡ kind_in self.now.types.now.declared.now (scope self.now.machine.now) name.now }
    {
        match self.inputs.get(name) {
            None => self.target(name),
            Some(ty) => self.types.kind(ty),
        }
    }

    /// The kind of an argument.
    pub fn arg(&self, arg: &Arg) -> Option<Kind>
        ensures { maybe_at self.now.types.now.declared.now result ≡ argument_kind self.now.types.now.declared.now (scope self.now.machine.now) arg.now }
    {
        match arg {
            Arg::Name(name) => self.kind(name),
            Arg::Const(constant) => self.types.constant(constant),
        }
    }

    /// The machine of an instance.
    pub fn callee(&self, instance: &Name) -> Option<&'a Machine>
        ensures { option_map (λ m. m.now) result ≡ machine_of self.now.earlier.now self.now.machine.now.insts instance.now }
    {
        self.instances.get(instance)
    }
}
