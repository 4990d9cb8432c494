//! Functions of a table where a machine's variables stand at places, over these variables themselves.
ghost use Rattle.std.specs.Prelude.{◌≡◌, List, map, length, IfOk};
ghost use Rattle.hp_diagram.specs.Diagrams.{Keeps};
ghost use Rattle.hp_synth.specs.Building.{HasEach};
ghost use Rattle.hp_synth.specs.Kept.{AllMean};
ghost use Rattle.hp_synth.specs.Layouts.{place, IsLayout};
ghost use Rattle.hp_synth.specs.Renamed.{AreNamed};
ghost use Rattle.hp_synth.specs.Valued.{Fun, over};

use crate::layout::Layout;
use hp_diagram::{Ref, Table};
use hp_quant::compose_all;
use std::alloc::{AllocError, Global};

/// At the place of each variable the function of that variable.
fn names(alloc: Global, t: &mut Table, layout: &Layout) -> Result<Vec<Option<Ref>>, AllocError>
    requires { IsLayout t.old.vars layout.now }
    ensures named { IfOk result (λ by. AreNamed layout.now t.new t.new.vars by.items) }
    ensures keeps { Keeps t.old t.new }
{
    let vars = t.vars();
    let mut by = vec![in alloc; None; usize::from(vars)]?;
    for x in 0..vars {
        let at = usize::from(layout.place(x));
        by[at] = Some(t.var(x)?);
    }
    Ok(by)
}

/// The references of the same functions where each variable stands at the place of its own number.
pub fn renamed(
    alloc: Global,
    t: &mut Table,
    layout: &Layout,
    refs: &[Ref],
) -> Result<Vec<Ref>, AllocError>
    requires layout { IsLayout t.old.vars layout.now }
    requires has { HasEach t.old refs.now }
    ensures has { IfOk result (λ made. HasEach t.new made.items) }
    ensures len { IfOk result (λ made. length made.items ≡ length refs.now) }
    ensures ok { IfOk result (λ made. (fs : List Fun) → AllMean t.old (map (over (place layout.now)) fs) refs.now → AllMean t.new fs made.items) }
    ensures keeps { Keeps t.old t.new }
{
    let by = names(alloc, t, layout)?;
    compose_all(alloc, t, refs, &by)
}

/// The references of the same functions where each variable stands at its place, of functions of variables that stand at the places of their own numbers.
pub fn placed(
    alloc: Global,
    t: &mut Table,
    layout: &Layout,
    refs: &[Ref],
) -> Result<Vec<Ref>, AllocError>
    requires layout { IsLayout t.old.vars layout.now }
    requires has { HasEach t.old refs.now }
    ensures has { IfOk result (λ made. HasEach t.new made.items) }
    ensures len { IfOk result (λ made. length made.items ≡ length refs.now) }
    ensures ok { IfOk result (λ made. (fs : List Fun) → AllMean t.old fs refs.now → AllMean t.new (map (over (place layout.now)) fs) made.items) }
    ensures keeps { Keeps t.old t.new }
{
    // The proof of `keeps` wants the table's rules.
    let _vars = t.vars();
    let turned = layout.turned(alloc)?;
    renamed(alloc, t, &turned, refs)
}
