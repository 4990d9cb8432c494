//! The wires of contracts.
ghost use Rattle.std.specs.Prelude.{◌≡◌, IfOk, OnOk};
ghost use Rattle.hp_drawing.specs.DrawnNodes as drawn;
ghost use Rattle.hp_drawing.specs.Seen.{sketch_of};
ghost use Rattle.hp_abstract.specs.Seen.{scope_of, told_in};

use crate::block::draw_block;
use crate::call::{Callees, NoCallees, contract_scope};
use crate::expression::draw;
use crate::layers::leave;
use crate::scope::Scope;
use crate::table::Tables;
use hp_drawing::{Callee, Draft, Place, TRUE};
use hp_tree::{Contract, Expr, Node};
use std::alloc::AllocError;

/// What is assumed or enforced, which holds where it is missing.
fn draw_told<'a, C: Callees>(
    callees: &C,
    tables: &Tables<'a>,
    scope: &Scope<'a>,
    place: Place,
    expr: &'a Option<Expr>,
    draft: &mut Draft,
) -> Result<usize, AllocError>
    ensures sketch { OnOk result (sketch_of draft.new ≡ (drawn.drawn_told (told_in tables.now) C.brings (scope_of scope.now) place expr.now (sketch_of draft.old)).1) }
    ensures wire { IfOk result (λ w. w ≡ (drawn.drawn_told (told_in tables.now) C.brings (scope_of scope.now) place expr.now (sketch_of draft.old)).0) }
{
    match expr {
        None => Ok(TRUE),
        Some(expr) => {
            let value = draw(callees, tables, scope, place, expr, draft)?;
            Ok(value.wire)
        }
    }
}

/// A contract: the wires of what it assumes and enforces.
pub fn draw_contract<'a, C: Callees>(
    callees: &C,
    tables: &Tables<'a>,
    scope: &mut Scope<'a>,
    place: Place,
    contract: &'a Contract,
    draft: &mut Draft,
) -> Result<(usize, usize), AllocError>
    ensures sketch { OnOk result (sketch_of draft.new ≡ (drawn.drawn_contract (told_in tables.now) C.brings (scope_of scope.old) place contract.now (sketch_of draft.old)).1) }
    ensures assume { IfOk result (λ observer. observer.0 ≡ (drawn.drawn_contract (told_in tables.now) C.brings (scope_of scope.old) place contract.now (sketch_of draft.old)).0.assume) }
    ensures enforce { IfOk result (λ observer. observer.1 ≡ (drawn.drawn_contract (told_in tables.now) C.brings (scope_of scope.old) place contract.now (sketch_of draft.old)).0.enforce) }
    ensures scope { OnOk result (scope_of scope.new ≡ (scope_of scope.old)) }
{
    draw_block(callees, tables, scope, place, &contract.body, draft)?;
    let assume = draw_told(callees, tables, scope, place, &contract.assume, draft)?;
    let enforce = draw_told(callees, tables, scope, place, &contract.enforce, draft)?;
    leave(scope);
    Ok((assume, enforce))
}

/// Of a node that is called its contract is there, in which nothing is called.
#[derive(Clone, Copy)]
pub struct Contracts;

/// The contract of a node that is called.
fn draw_called<'a>(
    tables: &Tables<'a>,
    place: Place,
    node: &'a Node,
    contract: &'a Contract,
    callee: Callee,
    draft: &mut Draft,
) -> Result<(), AllocError>
    ensures { OnOk result (sketch_of draft.new ≡ drawn.drawn_called (told_in tables.now) place node.now contract.now callee (sketch_of draft.old)) }
{
    let called = place.called(draft)?;
    let mut scope = contract_scope(tables, called, node, callee.inputs, callee.outputs, draft)?;
    let (assume, enforce) = draw_contract(&NoCallees, tables, &mut scope, called, contract, draft)?;
    draft.add_call(called.here, assume, enforce)
}

impl Callees for Contracts {
    ghost brings = { drawn.contracts };

    fn draw<'a>(
        &self,
        tables: &Tables<'a>,
        place: Place,
        node: &'a Node,
        callee: Callee,
        draft: &mut Draft,
    ) -> Result<(), AllocError> {
        match &node.contract {
            None => Ok(()),
            Some(contract) => draw_called(tables, place, node, contract, callee, draft),
        }
    }
}
