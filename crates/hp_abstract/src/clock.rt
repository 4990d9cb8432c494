//! The clocks of definitions.
ghost use Rattle.std.specs.Prelude.{◌≡◌, IfOk, OnOk};
ghost use Rattle.hp_tables.specs.Telling.Seen.{told_seen};
ghost use Rattle.hp_drawing.specs.DrawnBlocks as drawn;
ghost use Rattle.hp_drawing.specs.DrawnExpressions.{step_clock};
ghost use Rattle.hp_drawing.specs.Seen.{sketch_of};
ghost use Rattle.hp_abstract.specs.Seen.{scope_of, told_in};
ghost use Rattle.hp_abstract.specs.Telling.{as_drawn};

use crate::scope::Scope;
use crate::table::Tables;
use hp_base::{Name, Span};
use hp_drawing::{BASE, Draft};
use hp_tables::telling::{Telling, told_by};
use hp_tree::{Cons, Decl, Expr};
use std::alloc::AllocError;

/// The path of the clock of a declaration, outermost first.
fn path(decl: &Decl) -> &[(Cons, Name)]
    ensures { result.now ≡ drawn.path_or decl.now.clock }
{
    match &decl.clock {
        None => &[],
        Some(path) => path,
    }
}

/// The path of the clock of a name that the block declares.
fn path_of<'t>(scope: &Scope, decls: &'t [Decl], name: &Name) -> &'t [(Cons, Name)]
    ensures { result.now ≡ drawn.path_of (scope_of scope.now) decls.now name.now }
{
    let Some(entry) = scope.own(name.bytes()) else {
        return &[];
    };
    let Some(number) = entry.decl else {
        return &[];
    };
    match decls.get(number) {
        None => &[],
        Some(decl) => path(decl),
    }
}

/// The clock with a step more, where the name has this value.
#[tactic(auto, unfolding(hp_drawing::specs::DrawnExpressions::step_clock))]
pub fn step(
    tables: &Tables,
    scope: &Scope,
    clock: usize,
    cons: &Cons,
    name: &Name,
    draft: &mut Draft,
) -> Result<usize, AllocError>
    ensures sketch { OnOk result (sketch_of draft.new ≡ (step_clock (told_in tables.now) (scope_of scope.now) clock cons.now name.now (sketch_of draft.old)).1) }
    ensures clock { IfOk result (λ c. c ≡ (step_clock (told_in tables.now) (scope_of scope.now) clock cons.now name.now (sketch_of draft.old)).0) }
{
    let value = scope.value(name);
    let is = tables.is(value.wire, cons, draft)?;
    draft.inner_clock(clock, is)
}

/// The clock of a path.
#[tactic(auto, using(crate::proofs::Rules::rows))]
fn clock_on(
    tables: &Tables,
    scope: &Scope,
    path: &[(Cons, Name)],
    draft: &mut Draft,
) -> Result<usize, AllocError>
    ensures sketch { OnOk result (sketch_of draft.new ≡ (drawn.clock_on (told_in tables.now) (scope_of scope.now) 0 path.now (sketch_of draft.old)).1) }
    ensures clock { IfOk result (λ c. c ≡ (drawn.clock_on (told_in tables.now) (scope_of scope.now) 0 path.now (sketch_of draft.old)).0) }
{
    let mut clock = BASE;
    for (cons, name) in path {
        clock = step(tables, scope, clock, cons, name, draft)?;
    }
    Ok(clock)
}

/// How the clock of a definition is told.
fn told<'a>(names: &'a [(Name, Span)], right: &'a Expr) -> Option<Telling<'a>>
    ensures { as_drawn (told_seen result) ≡ drawn.told_by names.now right.now }
{
    told_by(names, right)
}

/// The clock on which a definition stands, in the block of these declarations.
#[tactic(auto, unfolding(hp_drawing::specs::DrawnBlocks::clock_of))]
pub fn clock_of(
    tables: &Tables,
    scope: &Scope,
    decls: &[Decl],
    names: &[(Name, Span)],
    right: &Expr,
    draft: &mut Draft,
) -> Result<usize, AllocError>
    ensures sketch { OnOk result (sketch_of draft.new ≡ (drawn.clock_of (told_in tables.now) (scope_of scope.now) decls.now names.now right.now (sketch_of draft.old)).1) }
    ensures clock { IfOk result (λ c. c ≡ (drawn.clock_of (told_in tables.now) (scope_of scope.now) decls.now names.now right.now (sketch_of draft.old)).0) }
{
    match told(names, right) {
        None | Some(Telling::Base) => Ok(BASE),
        Some(Telling::Of(name)) => { clock_on(tables, scope, path_of(scope, decls, name), draft) }
        Some(Telling::On(cons, name)) => {
            let outer = clock_on(tables, scope, path_of(scope, decls, name), draft)?;
            step(tables, scope, outer, cons, name, draft)
        }
    }
}
