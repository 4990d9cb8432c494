//! The file of types and machines that have form.
ghost use Rattle.std.specs.Prelude.{◌≡◌, IfOk, IfErr, OnOk};
ghost use Rattle.std.specs.Bool.{Decides};
ghost use Rattle.hp_obc.specs.Form.{HasObcForm};
ghost use Rattle.hp_form.specs.declared.error.FormErr.TheVariants.{OutOfMemory};

use crate::error::FormErr;
use crate::machine::have_form_in_order;
use crate::types::Types;
use hp_obc::{Machine, Obc, ObcType};
use std::alloc::{AllocError, Global};

/// Whether types and machines have form. The time is linear in them.
fn have_form(alloc: Global, types: &[ObcType], machines: &[Machine]) -> Result<bool, AllocError>
    ensures { IfOk result (λ b. Decides b (HasObcForm types.now machines.now)) }
{
    let Some(types) = Types::new(alloc, types)? else {
        return Ok(false);
    };
    let held = have_form_in_order(alloc, &types, machines)?;
    Ok(held)
}

/// The file of machines, where types and machines have form.
pub fn formed(alloc: Global, types: Vec<ObcType>, machines: Vec<Machine>) -> Result<Obc, FormErr>
    ensures types { IfOk result (λ obc. obc.types ≡ types.items) }
    ensures machines { IfOk result (λ obc. obc.machines ≡ machines.items) }
    ensures form { OnOk result (HasObcForm types.items machines.items) }
    ensures refused { HasObcForm types.items machines.items → IfErr result (λ e. e ≡ OutOfMemory) }
{
    if !have_form(alloc, &types, &machines)? {
        return Err(FormErr::NoForm);
    }
    Ok(Obc::new(types, machines))
}
