//! Equations that copy.
ghost use Rattle.std.specs.Prelude.{◌≡◌};
ghost use Rattle.hp_flat.specs.EquationView.{right_seen};
ghost use Rattle.hp_normal.specs.Reading.{only, copied, copy_of};

use hp_flat::{Atom, FlatEqn, FlatRight};
use hp_obc::ObcOp;

/// The element of a list of one.
pub fn only<T: Copy>(items: &[T]) -> Option<T>
    ensures { result ≡ only items.now }
{
    match items {
        [item] => Some(*item),
        _ => None,
    }
}

/// What an operator copies.
fn copied(right: &FlatRight) -> Option<Atom>
    ensures { result ≡ copied (right_seen right.now) }
{
    match right {
        FlatRight::Op(ObcOp::Copy, args) => only(args.as_slice()),
        _ => None,
    }
}

/// Of an equation that gives one variable a copy: that variable, and what is copied.
pub fn copy_of(eqn: &FlatEqn) -> Option<(usize, Atom)>
    ensures { result ≡ copy_of eqn.now }
{
    match (only(eqn.targets.as_slice()), copied(&eqn.right)) {
        (Some(target), Some(atom)) => Some((target, atom)),
        _ => None,
    }
}
