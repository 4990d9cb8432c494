ghost use Rattle.std.specs.Prelude.{◌≡◌, IfOk};
ghost use Rattle.hp_normal.specs.Following.{AreBehind};
ghost use Rattle.hp_normal.specs.Normal.{InOrder, normal};

use crate::choice::simplify;
use crate::prune::prune;
use crate::retarget::retarget;
use crate::substitute::substitute;
use hp_flat::Scheduled;
use std::alloc::{AllocError, Global};

/// The scheduled node without needless choices and copies. A choice between one variable and itself copies it, and nothing makes an operator begin anew. A variable that is read by a copy alone, on its own clock, is defined under the name of the
/// copy; any other variable that only a copy defines is replaced by what is copied, unless it is an output or makes an equation begin anew.
/// Then operators whose variables nothing needs are left out: neither an output, nor a register, nor a call.
pub fn normalise(alloc: Global, scheduled: Scheduled) -> Result<Scheduled, AllocError>
    ensures node { IfOk result (λ made. made.node ≡ normal scheduled.node) }
    ensures behind { AreBehind scheduled.node.eqns → IfOk result (λ made. AreBehind made.node.eqns) }
    ensures order { InOrder scheduled.node.eqns → IfOk result (λ made. InOrder made.node.eqns) }
{
    let node = simplify(alloc, scheduled.node)?;
    let node = retarget(alloc, node)?;
    let node = substitute(alloc, node)?;
    let node = retarget(alloc, node)?;
    let node = prune(alloc, node)?;
    Ok(Scheduled { node })
}
