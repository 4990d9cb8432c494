ghost use Rattle.std.specs.Prelude.{◌≡◌, map, IfOk};
ghost use Rattle.hp_base.specs.SignatureView.{port_seen};
ghost use Rattle.hp_exec.specs.Signatures.{ports_by, signature_by};
ghost use Rattle.hp_exec.specs.Typing.{kind_found};

use crate::types::Types;
use hp_base::{Kind, Name, Signature};
use hp_obc::{Machine, Var};
use std::alloc::{AllocError, Global};

fn ports(alloc: Global, types: &Types, vars: &[Var]) -> Result<Vec<(Name, Kind)>, AllocError>
    ensures { IfOk result (λ ports. map port_seen ports.items ≡ ports_by (kind_found types.now) vars.now) }
{
    let mut ports = Vec::with_capacity(alloc, vars.len())?;
    for var in vars {
        let kind = types.kind(alloc, &var.ty)?;
        ports.push((var.name.copy(alloc)?, kind))?;
    }
    Ok(ports)
}

/// The names and kinds of the inputs and outputs of a machine.
pub fn signature_of(
    alloc: Global,
    types: &Types,
    machine: &Machine,
) -> Result<Signature, AllocError>
    ensures { IfOk result (λ signature. signature ≡ signature_by (kind_found types.now) machine.now) }
{
    Ok(Signature {
        name: machine.name.copy(alloc)?,
        inputs: ports(alloc, types, &machine.inputs)?,
        outputs: ports(alloc, types, &machine.outputs)?,
        contract: false,
    })
}
