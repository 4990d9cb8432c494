//! Which machines a function may stand for.
ghost use Rattle.std.specs.Prelude.{◌≡◌};
ghost use Rattle.hp_native.specs.Natively.{is_simple, are_simple, is_plain};

use hp_base::Ty;
use hp_obc::{Machine, Var};

/// Whether a type is that of truth values or that of integers.
fn is_simple(ty: &Ty) -> bool
    ensures { result ≡ is_simple ty.now }
{
    match ty {
        Ty::Bool | Ty::Int => true,
        Ty::Enum(_) => false,
    }
}

fn are_simple(vars: &[Var]) -> bool
    ensures { result ≡ are_simple vars.now }
{
    for var in vars {
        if !is_simple(&var.ty) {
            return false;
        }
    }
    true
}

/// Whether a machine has no memories and no instances, and all its variables are truth values and integers. It takes no memory.
pub fn plain(m: &Machine) -> bool
    ensures { result ≡ is_plain m.now }
{
    m.mems.is_empty()
        && m.insts.is_empty()
        && are_simple(&m.inputs)
        && are_simple(&m.outputs)
        && are_simple(&m.vars)
}
