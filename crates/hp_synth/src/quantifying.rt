//! Quantifiers over ranges of a machine's variables, in a table where these stand at places.
ghost use Rattle.std.specs.Prelude.{◌≤◌, ◌||◌, IfOk};
ghost use Rattle.hp_diagram.specs.Diagrams.{Has, function, Keeps};
ghost use Rattle.hp_synth.specs.Layouts.{place, IsLayout};
ghost use Rattle.hp_synth.specs.Quantified.{IsSomeIn, IsAllIn};

use crate::layout::Layout;
use hp_diagram::{Ref, Table};
use hp_quant::{all_marked, either_marked, some_marked};
use std::alloc::{AllocError, Global};

/// The function that is true where some values of the variables from `from` up to, not including, `to` make it true.
pub fn some_in(
    alloc: Global,
    t: &mut Table,
    layout: &Layout,
    r: Ref,
    from: u16,
    to: u16,
) -> Result<Ref, AllocError>
    requires layout { IsLayout t.old.vars layout.now }
    requires has { Has t.old r }
    requires order { from ≤ to }
    requires within { to ≤ t.old.vars }
    ensures ok { IfOk result (IsSomeIn (place layout.now) from to t.new (function t.old r)) }
    ensures keeps { Keeps t.old t.new }
{
    let of = layout.marks(alloc, t.vars(), from, to)?;
    some_marked(alloc, t, r, &of)
}

/// The function that is true where all values of these variables make it true.
pub fn all_in(
    alloc: Global,
    t: &mut Table,
    layout: &Layout,
    r: Ref,
    from: u16,
    to: u16,
) -> Result<Ref, AllocError>
    requires layout { IsLayout t.old.vars layout.now }
    requires has { Has t.old r }
    requires order { from ≤ to }
    requires within { to ≤ t.old.vars }
    ensures ok { IfOk result (IsAllIn (place layout.now) from to t.new (function t.old r)) }
    ensures keeps { Keeps t.old t.new }
{
    let of = layout.marks(alloc, t.vars(), from, to)?;
    all_marked(alloc, t, r, &of)
}

/// The function that is true where some values of the variables from `from` on make one of the two true.
pub(crate) fn either_from(
    alloc: Global,
    t: &mut Table,
    layout: &Layout,
    f: Ref,
    g: Ref,
    from: u16,
) -> Result<Ref, AllocError>
    requires layout { IsLayout t.old.vars layout.now }
    requires f { Has t.old f }
    requires g { Has t.old g }
    requires within { from ≤ t.old.vars }
    ensures ok { IfOk result (IsSomeIn (place layout.now) from t.old.vars t.new (λ v. function t.old f v || function t.old g v)) }
    ensures keeps { Keeps t.old t.new }
{
    let vars = t.vars();
    let of = layout.marks(alloc, vars, from, vars)?;
    either_marked(alloc, t, f, g, &of)
}
