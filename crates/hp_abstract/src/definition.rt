//! The wires of definitions.
ghost use Rattle.std.specs.Prelude.{◌≡◌, OnOk};
ghost use Rattle.hp_drawing.specs.DrawnBlocks as drawn;
ghost use Rattle.hp_drawing.specs.Seen.{sketch_of};
ghost use Rattle.hp_abstract.specs.Seen.{scope_of, told_in};

use crate::call::Callees;
use crate::clock::clock_of;
use crate::expression::{draw, draw_call};
use crate::scope::Scope;
use crate::table::Tables;
use hp_base::{Name, Span};
use hp_drawing::{Callee, Draft, Place, Value};
use hp_tree::{Decl, Expr, ExprKind};
use std::alloc::AllocError;

/// Gives a name of the block its value.
fn define(scope: &Scope, name: &Name, value: Value, draft: &mut Draft) -> Result<(), AllocError>
    ensures { OnOk result (sketch_of draft.new ≡ drawn.define_name (scope_of scope.now) name.now value (sketch_of draft.old)) }
{
    draft.define(scope.value(name).wire, value)
}

/// Gives each name the output of a call at its place.
#[tactic(auto, using(crate::proofs::Rules::rows))]
fn define_each(
    scope: &Scope,
    names: &[(Name, Span)],
    callee: Callee,
    draft: &mut Draft,
) -> Result<(), AllocError>
    ensures { OnOk result (sketch_of draft.new ≡ drawn.define_each (scope_of scope.now) callee 0 names.now (sketch_of draft.old)) }
{
    for i in 0..names.len() {
        let (name, _) = &names[i];
        let value = callee.output(i, draft)?;
        define(scope, name, value, draft)?;
    }
    Ok(())
}

/// Gives the names a value.
#[tactic(auto, using(crate::proofs::Rules::rows))]
fn define_all(
    scope: &Scope,
    names: &[(Name, Span)],
    value: Value,
    draft: &mut Draft,
) -> Result<(), AllocError>
    ensures { OnOk result (sketch_of draft.new ≡ drawn.define_all (scope_of scope.now) names.now value (sketch_of draft.old)) }
{
    for (name, _) in names {
        define(scope, name, value, draft)?;
    }
    Ok(())
}

/// A definition, in the block of these declarations.
pub fn draw_definition<'a, C: Callees>(
    callees: &C,
    tables: &Tables<'a>,
    scope: &Scope<'a>,
    place: Place,
    locals: &'a [Decl],
    names: &'a [(Name, Span)],
    right: &'a Expr,
    draft: &mut Draft,
) -> Result<(), AllocError>
    ensures { OnOk result (sketch_of draft.new ≡ drawn.drawn_definition (told_in tables.now) C.brings (scope_of scope.now) place locals.now names.now right.now (sketch_of draft.old)) }
{
    let clock = clock_of(tables, scope, locals, names, right, draft)?;
    let there = place.on(clock);
    match &*right.kind {
        ExprKind::Call {
            node,
            inlined: _,
            args,
        } => {
            let callee = draw_call(callees, tables, scope, there, node, args, draft)?;
            define_each(scope, names, callee, draft)
        }
        _ => {
            let value = draw(callees, tables, scope, there, right, draft)?;
            define_all(scope, names, value, draft)
        }
    }
}
