//! Calls: the outputs of a node that is called are given, and its contract alone is drawn.
ghost use Rattle.std.specs.Prelude.{◌≡◌, Some, IfOk, OnOk};
ghost use Rattle.hp_tree.specs.Programs.{Node};
ghost use Rattle.hp_drawing.specs.declared.parts.Callee as callee;
ghost use Rattle.hp_drawing.specs.declared.parts.Place as place;
ghost use Rattle.hp_drawing.specs.DrawnExpressions as drawn;
ghost use Rattle.hp_drawing.specs.DrawnNodes as nodes;
ghost use Rattle.hp_drawing.specs.Places.{may_be_early};
ghost use Rattle.hp_drawing.specs.Seen.{sketch_of};
ghost use Rattle.hp_drawing.specs.Sketch.{Sketch};
ghost use Rattle.hp_drawing.specs.Told.{Told};
ghost use Rattle.hp_abstract.specs.Seen.{layer_of, scope_of, told_in};

use crate::lasts::add_lasts;
use crate::scope::{Layer, Scope};
use crate::table::Tables;
use hp_base::Name;
use hp_circuit::{Role, Shape};
use hp_drawing::{Callee, Draft, Entry, FALSE, Place};
use hp_tree::{Decl, Node};
use std::alloc::AllocError;

/// How the contracts of nodes are drawn that are called.
pub trait Callees {
    /// What the contract of a called node brings.
    ghost brings: { Told → place.Place → Node → callee.Callee → Sketch → Sketch };

    /// Draws the contract of a node that is called at the place, if it has one.
    fn draw<'a>(
        &self,
        tables: &Tables<'a>,
        place: Place,
        node: &'a Node,
        callee: Callee,
        draft: &mut Draft,
    ) -> Result<(), AllocError>
        ensures { OnOk result (sketch_of draft.new ≡ brings (told_in tables.now) place node.now callee (sketch_of draft.old)) };
}

/// What is called brings nothing.
#[derive(Clone, Copy)]
pub struct NoCallees;

impl Callees for NoCallees {
    ghost brings = { nodes.no_brings };

    fn draw<'a>(
        &self,
        _tables: &Tables<'a>,
        _place: Place,
        _node: &'a Node,
        _callee: Callee,
        _draft: &mut Draft,
    ) -> Result<(), AllocError> {
        Ok(())
    }
}

/// An output of a call, which reads a wire.
fn add_output(
    may_be_early: bool,
    shape: Shape,
    reads: usize,
    draft: &mut Draft,
) -> Result<(), AllocError>
    ensures { OnOk result (sketch_of draft.new ≡ drawn.add_output may_be_early shape reads (sketch_of draft.old)) }
{
    let wire = draft.given(Role::Free { may_be_early }, shape)?;
    draft.read(wire, reads)
}

/// The outputs of a call, which read one wire.
#[tactic(auto, using(crate::proofs::Rules::rows))]
fn add_outputs(
    tables: &Tables,
    place: Place,
    outputs: &[Decl],
    reads: usize,
    draft: &mut Draft,
) -> Result<(), AllocError>
    ensures { OnOk result (sketch_of draft.new ≡ drawn.add_outputs (told_in tables.now) (may_be_early place) outputs.now reads (sketch_of draft.old)) }
{
    let may_be_early = place.may_be_early();
    for output in outputs {
        add_output(may_be_early, tables.shape(&output.ty), reads, draft)?;
    }
    Ok(())
}

/// The wires of declared variables, which are said later.
#[tactic(auto, using(crate::proofs::Rules::rows))]
pub fn add_holes(tables: &Tables, decls: &[Decl], draft: &mut Draft) -> Result<(), AllocError>
    ensures { OnOk result (sketch_of draft.new ≡ drawn.add_holes (told_in tables.now) decls.now (sketch_of draft.old)) }
{
    for decl in decls {
        draft.hole(tables.shape(&decl.ty))?;
    }
    Ok(())
}

/// Says that declared variables have the wires from the first one on. There is no memory for so many wires that one has no number.
#[tactic(auto, using(crate::proofs::Rules::rows))]
pub fn put_row<'a>(
    tables: &Tables<'a>,
    decls: &'a [Decl],
    first: usize,
    layer: &mut Layer<'a>,
) -> Result<(), AllocError>
    ensures { OnOk result (layer_of layer.new ≡ nodes.put_row (told_in tables.now) decls.now first (layer_of layer.old)) }
{
    for i in 0..decls.len() {
        let decl = &decls[i];
        let Some(wire) = first.checked_add(i) else {
            return Err(AllocError);
        };
        layer.add(decl.name.bytes(), Entry::at(wire, tables.shape(&decl.ty)))?;
    }
    Ok(())
}

/// What a contract sees: inputs and outputs, and the last values of these.
#[tactic(auto, unfolding(hp_drawing::specs::DrawnNodes::contract_scope))]
pub fn contract_scope<'a>(
    tables: &Tables<'a>,
    place: Place,
    node: &'a Node,
    inputs: usize,
    outputs: usize,
    draft: &mut Draft,
) -> Result<Scope<'a>, AllocError>
    ensures sketch { OnOk result (sketch_of draft.new ≡ (nodes.contract_scope (told_in tables.now) place node.now inputs outputs (sketch_of draft.old)).1) }
    ensures scope { IfOk result (λ scope. scope_of scope ≡ (nodes.contract_scope (told_in tables.now) place node.now inputs outputs (sketch_of draft.old)).0) }
{
    let mut layer = Layer::new(tables.alloc);
    put_row(tables, &node.inputs, inputs, &mut layer)?;
    put_row(tables, &node.outputs, outputs, &mut layer)?;
    let mut lasts = Layer::new(tables.alloc);
    add_lasts(tables, place, &node.outputs, &layer, &mut lasts, draft)?;
    let mut scope = Scope::new(tables.alloc);
    scope.push(layer)?;
    scope.push_lasts(lasts)?;
    Ok(scope)
}

/// A call of a node but for its arguments.
fn begin_node<'a, C: Callees>(
    callees: &C,
    tables: &Tables<'a>,
    place: Place,
    node: &'a Node,
    draft: &mut Draft,
) -> Result<Callee, AllocError>
    ensures sketch { OnOk result (sketch_of draft.new ≡ (drawn.begin_with (told_in tables.now) C.brings place (Some node.now) (sketch_of draft.old)).1) }
    ensures callee { IfOk result (λ c. c ≡ (drawn.begin_with (told_in tables.now) C.brings place (Some node.now) (sketch_of draft.old)).0) }
{
    let reads = draft.mark()?;
    let outputs = draft.next_wire();
    add_outputs(tables, place, &node.outputs, reads, draft)?;
    let inputs = draft.next_wire();
    add_holes(tables, &node.inputs, draft)?;
    let callee = Callee {
        outputs,
        inputs,
        reads,
    };
    callees.draw(tables, place, node, callee, draft)?;
    Ok(callee)
}

/// A call but for its arguments. Where there is no node of the name, nothing is drawn.
#[tactic(auto, unfolding(hp_drawing::specs::DrawnExpressions::begin_call))]
pub fn begin_call<'a, C: Callees>(
    callees: &C,
    tables: &Tables<'a>,
    place: Place,
    name: &Name,
    draft: &mut Draft,
) -> Result<Callee, AllocError>
    ensures sketch { OnOk result (sketch_of draft.new ≡ (drawn.begin_call (told_in tables.now) C.brings place name.now (sketch_of draft.old)).1) }
    ensures callee { IfOk result (λ c. c ≡ (drawn.begin_call (told_in tables.now) C.brings place name.now (sketch_of draft.old)).0) }
{
    match tables.node(name) {
        None => Ok(Callee {
            outputs: FALSE,
            inputs: FALSE,
            reads: FALSE,
        }),
        Some(node) => begin_node(callees, tables, place, node, draft),
    }
}
