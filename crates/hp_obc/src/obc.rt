ghost use Rattle.std.specs.Prelude.{◌≡◌};
ghost use Rattle.hp_obc.specs.Form.{HasObcForm};
ghost use Rattle.hp_obc.specs.Kinded.{AreKinded, RunInKind};

use crate::machine::Machine;
use hp_base::Name;
use std::marker::Model;

/// An enumeration, with its constructors in order.
#[derive(Debug, Drop)]
pub struct ObcType {
    pub name: Name,
    pub cons: Vec<Name>,
}

impl Model for ObcType {
    ghost use Rattle.hp_obc.specs.Machines.{ObcType};
    ghost use Rattle.hp_obc.specs.MachineCode.{type_code};

    ghost Value = { ObcType };

    ghost coded = { type_code };

    ghost use Rattle.hp_obc.specs.TypeView.{type_seen};

    ghost view = { type_seen };
}

/// A file of machines. It has form: names are declared before their use and differ, kinds agree, and cases are whole.
#[derive(Debug, Drop)]
pub struct Obc {
    types: Vec<ObcType>,
    machines: Vec<Machine>,
}

impl Model for Obc {
    ghost use Rattle.hp_obc.specs.Machines.{Obc};
    ghost use Rattle.hp_obc.specs.MachineCode.{obc_code};

    ghost Value = { Obc };

    ghost coded = { obc_code };

    ghost use Rattle.hp_obc.specs.ObcView.{obc_seen, InsideHasForm};

    ghost view = { obc_seen };

    ghost invariant = { InsideHasForm };
}

impl Obc {
    /// A file of these types and machines, which have form. It takes no memory.
    pub fn new(types: Vec<ObcType>, machines: Vec<Machine>) -> Obc
        requires { HasObcForm types.items machines.items }
        ensures types { result.types ≡ types.items }
        ensures machines { result.machines ≡ machines.items }
    {
        Obc { types, machines }
    }

    /// The types, in order. They have form with the machines.
    pub fn types(&self) -> &[ObcType]
        ensures types { result.now ≡ self.now.types }
        ensures form { HasObcForm self.now.types self.now.machines }
    {
        self.types.as_slice()
    }

    /// The machines, in order. They have form with the types.
    pub fn machines(&self) -> &[Machine]
        ensures machines { result.now ≡ self.now.machines }
        ensures form { HasObcForm self.now.types self.now.machines }
    {
        self.machines.as_slice()
    }
}

/// The machines of a file keep values of their kinds and give outputs of theirs: in each step from a memory of its kinds, and in
/// each run.
pub fn outputs_are_of_their_kinds(o: &Obc)
    ensures steps { AreKinded o.now }
    ensures runs { RunInKind o.now }
{
    let _types = o.types();
}
