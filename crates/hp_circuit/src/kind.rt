//! The kinds of the variables of slots.
ghost use Rattle.std.specs.Prelude.{◌≡◌, ◌≤◌, ◌+◌};
ghost use Rattle.hp_base.specs.Limits.{most};
ghost use Rattle.hp_circuit.specs.Kinds.{what_of, role_kind, own};

use crate::circuit::Role;
use hp_base::What;

/// What kind of variables a slot has.
#[derive(Clone, Copy, Debug)]
pub enum Kind {
    Registers,
    Early,
    Control,
    Late,
}

/// What limits the bits of a kind.
pub fn what_of(kind: Kind) -> What
    ensures { result ≡ what_of kind }
{
    match kind {
        Kind::Registers => What::Registers,
        Kind::Early => What::Early,
        Kind::Control => What::Control,
        Kind::Late => What::Late,
    }
}

/// The most bits of a kind.
pub fn most_of(kind: Kind) -> u64
    ensures is { result ≡ most (what_of kind) }
    ensures within { result ≤ 64 }
{
    match kind {
        Kind::Registers | Kind::Early | Kind::Late => 64,
        Kind::Control => 16,
    }
}

/// The kind of a slot, where it is said whether its wire reads a controllable variable.
pub fn role_kind(role: Role, is_steered: bool) -> Kind
    ensures { result ≡ role_kind role is_steered }
{
    match role {
        Role::Register { .. } => Kind::Registers,
        Role::Input => Kind::Early,
        Role::Control => Kind::Control,
        Role::Free { may_be_early } => {
            if may_be_early && !is_steered {
                Kind::Early
            } else {
                Kind::Late
            }
        }
    }
}

/// A width, where it is of the kind; else 0.
pub fn own(kind: Kind, other: Kind, width: usize) -> usize
    ensures { result ≡ own kind other width }
{
    match (kind, other) {
        (Kind::Registers, Kind::Registers)
        | (Kind::Early, Kind::Early)
        | (Kind::Control, Kind::Control)
        | (Kind::Late, Kind::Late) => width,
        _ => 0,
    }
}
