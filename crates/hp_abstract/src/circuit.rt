//! The circuit of a node.
ghost use Rattle.std.specs.Prelude.{◌≡◌, IfOk, OnOk};
ghost use Rattle.hp_tree.specs.Meaning.{controls_of};
ghost use Rattle.hp_drawing.specs.DrawnNodes as drawn;
ghost use Rattle.hp_drawing.specs.Seen.{IsOf, sketch_of};
ghost use Rattle.hp_abstract.specs.Enforced.{enforced, enforced_from};
ghost use Rattle.hp_abstract.specs.Seen.{layer_of, scope_of, told_in};

use crate::block::draw_block;
use crate::call::{add_holes, contract_scope, put_row};
use crate::contract::{Contracts, draw_contract};
use crate::scope::{Layer, Scope};
use crate::table::Tables;
use hp_circuit::{Circuit, Role, Shape};
use hp_drawing::{Draft, Entry, Place, TRUE};
use hp_tree::{Contract, Decl, Node, controls_of};
use std::alloc::AllocError;

/// A variable that is given.
fn add_one_given(role: Role, shape: Shape, draft: &mut Draft) -> Result<(), AllocError>
    ensures { OnOk result (sketch_of draft.new ≡ drawn.add_one_given role shape (sketch_of draft.old)) }
{
    draft.given(role, shape)?;
    Ok(())
}

/// Variables that are given, in order.
#[tactic(auto, using(crate::proofs::Rules::rows))]
fn add_given(
    tables: &Tables,
    role: Role,
    decls: &[Decl],
    draft: &mut Draft,
) -> Result<(), AllocError>
    ensures { OnOk result (sketch_of draft.new ≡ drawn.add_given (told_in tables.now) role decls.now (sketch_of draft.old)) }
{
    for decl in decls {
        add_one_given(role, tables.shape(&decl.ty), draft)?;
    }
    Ok(())
}

/// Outputs have no value but where they are defined.
#[tactic(auto, using(crate::proofs::Rules::rows))]
fn put_outputs<'a>(
    tables: &Tables<'a>,
    outputs: &'a [Decl],
    layer: &mut Layer<'a>,
) -> Result<(), AllocError>
    ensures { OnOk result (layer_of layer.new ≡ drawn.put_outputs (told_in tables.now) outputs.now (layer_of layer.old)) }
{
    for output in outputs {
        let shape = tables.shape(&output.ty);
        layer.add(output.name.bytes(), Entry::unseen(shape))?;
    }
    Ok(())
}

/// What the body of a node sees: its inputs and controllable variables.
fn body_layer<'a>(
    tables: &Tables<'a>,
    node: &'a Node,
    inputs: usize,
    controls: usize,
) -> Result<Layer<'a>, AllocError>
    ensures { IfOk result (λ layer. layer_of layer ≡ drawn.body_layer (told_in tables.now) node.now inputs controls) }
{
    let mut layer = Layer::new(tables.alloc);
    put_row(tables, controls_of(&node.contract), controls, &mut layer)?;
    put_row(tables, &node.inputs, inputs, &mut layer)?;
    put_outputs(tables, &node.outputs, &mut layer)?;
    Ok(layer)
}

/// The outputs are what the body defines. There is no memory for so many wires that one has no number.
#[tactic(auto, using(crate::proofs::Rules::rows))]
fn define_outputs(
    scope: &Scope,
    outputs: &[Decl],
    first: usize,
    draft: &mut Draft,
) -> Result<(), AllocError>
    ensures { OnOk result (sketch_of draft.new ≡ drawn.define_outputs (scope_of scope.now) outputs.now first (sketch_of draft.old)) }
{
    for i in 0..outputs.len() {
        let output = &outputs[i];
        let Some(wire) = first.checked_add(i) else {
            return Err(AllocError);
        };
        draft.define(wire, scope.value(&output.name))?;
    }
    Ok(())
}

/// The contract of a node.
fn draw_observer<'a>(
    tables: &Tables<'a>,
    scope: &mut Scope<'a>,
    contract: &'a Option<Contract>,
    draft: &mut Draft,
) -> Result<(usize, usize), AllocError>
    ensures sketch { OnOk result (sketch_of draft.new ≡ (drawn.drawn_observer (told_in tables.now) (scope_of scope.old) contract.now (sketch_of draft.old)).1) }
    ensures assume { IfOk result (λ observer. observer.0 ≡ (drawn.drawn_observer (told_in tables.now) (scope_of scope.old) contract.now (sketch_of draft.old)).0.assume) }
    ensures enforce { IfOk result (λ observer. observer.1 ≡ (drawn.drawn_observer (told_in tables.now) (scope_of scope.old) contract.now (sketch_of draft.old)).0.enforce) }
    ensures scope { OnOk result (scope_of scope.new ≡ (scope_of scope.old)) }
{
    match contract {
        None => Ok((TRUE, TRUE)),
        Some(contract) => draw_contract(&Contracts, tables, scope, Place::top(), contract, draft),
    }
}

/// The body of a node. The innermost layer is what its contract sees.
fn draw_body<'a>(
    tables: &Tables<'a>,
    scope: &mut Scope<'a>,
    layer: Layer<'a>,
    node: &'a Node,
    outputs: usize,
    draft: &mut Draft,
) -> Result<(), AllocError>
    ensures { OnOk result (sketch_of draft.new ≡ drawn.drawn_body (told_in tables.now) (scope_of scope.old) (layer_of layer.entry) node.now outputs (sketch_of draft.old)) }
{
    scope.leave();
    scope.push(layer)?;
    draw_block(&Contracts, tables, scope, Place::top(), &node.body, draft)?;
    define_outputs(scope, &node.outputs, outputs, draft)
}

/// Draws a node. The answer is the wire of what it enforces.
fn draw_node<'a>(
    tables: &Tables<'a>,
    node: &'a Node,
    draft: &mut Draft,
) -> Result<usize, AllocError>
    ensures sketch { OnOk result (sketch_of draft.new ≡ drawn.drawn_node_from (told_in tables.now) node.now (sketch_of draft.old)) }
    ensures enforce { IfOk result (λ enforce. enforce ≡ enforced_from (told_in tables.now) node.now (sketch_of draft.old)) }
{
    let outputs = draft.next_wire();
    add_holes(tables, &node.outputs, draft)?;
    let inputs = draft.next_wire();
    add_given(tables, Role::Input, &node.inputs, draft)?;
    let mut scope = contract_scope(tables, Place::top(), node, inputs, outputs, draft)?;
    let controls = draft.next_wire();
    add_given(tables, Role::Control, controls_of(&node.contract), draft)?;
    let (assume, enforce) = draw_observer(tables, &mut scope, &node.contract, draft)?;
    let layer = body_layer(tables, node, inputs, controls)?;
    draw_body(tables, &mut scope, layer, node, outputs, draft)?;
    draft.finish(assume, enforce)?;
    Ok(enforce)
}

/// The circuit of a node, and the wire of what the node enforces. The circuit itself does not tell this wire: gates with constants are left out, so the wire of the duty may be any.
pub fn circuit_of<'a>(tables: &Tables<'a>, node: &'a Node) -> Result<(Circuit, usize), AllocError>
    ensures circuit { IfOk result (λ drawing. IsOf drawing.0 (drawn.drawn_node (told_in tables.now) node.now)) }
    ensures enforce { IfOk result (λ drawing. drawing.1 ≡ enforced (told_in tables.now) node.now) }
{
    let mut draft = Draft::new(tables.alloc)?;
    let enforce = draw_node(tables, node, &mut draft)?;
    Ok((draft.circuit(), enforce))
}
