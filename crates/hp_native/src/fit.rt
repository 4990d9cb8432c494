//! Whether values are of the kinds of variables.
ghost use Rattle.std.specs.Prelude.{◌≡◌, []};
ghost use Rattle.std.specs.Bool.{OnTrue};
ghost use Rattle.hp_base.specs.Kinds.{AreOfKinds, IsOfKind};
ghost use Rattle.hp_obc.specs.Kinded.{kinds_in};
ghost use Rattle.hp_native.specs.Natively.{kind_in, fits_one, fits};

use hp_base::{Ty, Value};
use hp_obc::Var;

/// Whether a value is of a simple type.
fn fits_one(ty: &Ty, value: Value) -> bool
    ensures test { result ≡ fits_one (kind_in ty.now) value }
    ensures of_kind { OnTrue result (IsOfKind (kind_in ty.now) value) }
{
    match ty {
        Ty::Int => matches!(value, Value::I(_)),
        Ty::Bool | Ty::Enum(_) => matches!(value, Value::B(_)),
    }
}

/// Whether there is a value for each variable, in order, of its simple type.
pub fn fits(vars: &[Var], values: &[Value]) -> bool
    ensures test { result ≡ fits (kinds_in [] vars.now) values.now }
    ensures of_kinds { OnTrue result (AreOfKinds (kinds_in [] vars.now) values.now) }
{
    if vars.len() != values.len() {
        return false;
    }
    for i in 0..vars.len() {
        if !fits_one(&vars[i].ty, values[i]) {
            return false;
        }
    }
    true
}
