//! The clocked equations of a node.
ghost use Rattle.std.specs.Prelude.{◌≡◌, ◌+◌, ◌∷◌, [], length, map, All, IfErr, IfOk, OnOk};
ghost use Rattle.hp_tree.specs.Meaning.{controls_of};
ghost use Rattle.law_equations.specs.Meaning.Scheduling.{IsRanked};
ghost use Rattle.law_equations.specs.Made.Making.{next, numbers_from, sketch_node};
ghost use Rattle.hp_complete.specs.Drafting.{filled, signed_at, signed_made};
ghost use Rattle.hp_complete.specs.Drafts.{place_of, sketch_of};
ghost use Rattle.hp_complete.specs.Made.{IsMadeOf};
ghost use Rattle.hp_complete.specs.Ordering.{IsCircular, SaysTrue, unplaced};
ghost use Rattle.hp_complete.specs.Places.{saying};
ghost use Rattle.hp_complete.specs.Ranges.{EqnWithin};
ghost use Rattle.hp_complete.specs.Tables.{known_in};

use crate::block::Standing;
use crate::declared::Declared;
use crate::draft::Draft;
use crate::error::FlattenErr;
use crate::layer::Entry;
use crate::order::order_eqns;
use hp_base::Name;
use hp_flat::FlatNode;
use hp_tree::{Decl, Node, controls_of};
use std::alloc::{AllocError, Global};

impl<'d, 'a> Draft<'d, 'a> {
    /// A variable of the node's signature, which has its own name.
    fn add_signed(&mut self, decl: &'a Decl) -> Result<usize, AllocError>
        ensures sketch { OnOk result (sketch_of self.new ≡ (signed_at (decl.now ∷ []) (place_of self.old) (sketch_of self.old)).1) }
        ensures place { OnOk result (place_of self.new ≡ saying (signed_at (decl.now ∷ []) (place_of self.old) (sketch_of self.old)).0 (place_of self.old)) }
        ensures number { IfOk result (λ x. x ≡ next (sketch_of self.old)) }
    {
        let ty = self.flat_ty(&decl.ty);
        let variable = self.add_named(&decl.name, ty)?;
        self.put(
            decl.name.bytes(),
            Entry {
                ty,
                value: Some(variable),
                last: None,
                is_local: true,
            },
        )?;
        Ok(variable)
    }

    /// Variables of the node's signature, and their numbers.
    fn add_all_signed(&mut self, decls: &'a [Decl]) -> Result<Vec<usize>, AllocError>
        ensures sketch { OnOk result (sketch_of self.new ≡ (signed_at decls.now (place_of self.old) (sketch_of self.old)).1) }
        ensures place { OnOk result (place_of self.new ≡ saying (signed_at decls.now (place_of self.old) (sketch_of self.old)).0 (place_of self.old)) }
        ensures numbers { IfOk result (λ xs. xs.items ≡ numbers_from (next (sketch_of self.old)) decls.now) }
    {
        let mut numbers = Vec::new(self.alloc);
        for decl in decls {
            let number = self.add_signed(decl)?;
            numbers.push(number)?;
        }
        Ok(numbers)
    }

    /// The inputs, the controllable variables and the outputs of the node: how many the first two are, and the numbers of the outputs.
    fn sign(&mut self, node: &'a Node) -> Result<(usize, Vec<usize>), AllocError>
        ensures sketch { OnOk result (sketch_of self.new ≡ (signed_made (place_of self.old) node.now (sketch_of self.old)).1) }
        ensures place { OnOk result (place_of self.new ≡ saying (signed_made (place_of self.old) node.now (sketch_of self.old)).0 (place_of self.old)) }
        ensures inputs { IfOk result (λ r. r.0 ≡ next (sketch_of self.old) + length node.now.inputs + length (controls_of node.now.contract)) }
        ensures outputs { IfOk result (λ r. r.1.items ≡ numbers_from (next (sketch_of self.old) + length node.now.inputs + length (controls_of node.now.contract)) node.now.outputs) }
    {
        self.add_all_signed(&node.inputs)?;
        self.add_all_signed(controls_of(&node.contract))?;
        let inputs = self.len();
        let outputs = self.add_all_signed(&node.outputs)?;
        Ok((inputs, outputs))
    }

    /// The equations of the node.
    fn fill(&mut self, node: &'a Node) -> Result<(), AllocError>
        ensures { OnOk result (sketch_of self.new ≡ filled (place_of self.old) node.now (sketch_of self.old)) }
    {
        self.remember_all(&node.outputs)?;
        self.block(&node.body, Standing::Body)?;
        Ok(())
    }

    /// Gives the equations their places.
    #[tactic(auto, unfolding(crate::specs::Drafts::sketch_of))]
    fn order(&mut self) -> Result<(), FlattenErr>
        ensures variables { OnOk result ((sketch_of self.new).variables ≡ (sketch_of self.old).variables) }
        ensures eqns { OnOk result (map unplaced (sketch_of self.new).eqns ≡ map unplaced (sketch_of self.old).eqns) }
        ensures ranked { OnOk result (IsRanked (sketch_of self.new).eqns) }
        ensures circular { All (EqnWithin (next (sketch_of self.old))) (sketch_of self.old).eqns → IfErr result (SaysTrue (IsCircular (sketch_of self.old).eqns)) }
    {
        match order_eqns(self.alloc, self.variables.len(), &mut self.eqns) {
            Ok(()) => Ok(()),
            Err(error) => Err(error),
        }
    }
}

/// The node whose equations are made.
#[tactic(auto, unfolding(crate::specs::Drafts::sketch_of))]
fn finish(draft: Draft, name: Name, inputs: usize, outputs: Vec<usize>) -> FlatNode
    ensures name { result.name ≡ name }
    ensures variables { result.variables ≡ (sketch_of draft.entry).variables }
    ensures inputs { result.inputs ≡ inputs }
    ensures outputs { result.outputs ≡ outputs.items }
    ensures eqns { result.eqns ≡ (sketch_of draft.entry).eqns }
{
    let Draft {
        alloc: _,
        declared: _,
        variables,
        eqns,
        layers: _,
        own: _,
        clock: _,
        base: _,
        restart: _,
        flag: _,
    } = draft;
    FlatNode {
        name,
        variables,
        inputs,
        outputs,
        eqns,
    }
}

/// The equations of a node, in order.
pub fn flatten_node<'d, 'a>(
    alloc: Global,
    declared: &'d Declared<'a>,
    node: &'a Node,
) -> Result<FlatNode, FlattenErr>
    ensures made { IfOk result (IsMadeOf (known_in declared.now) node.now) }
    ensures circular { IfErr result (SaysTrue (IsCircular (sketch_node (known_in declared.now) node.now).eqns)) }
{
    let name = node.name.copy(alloc)?;
    let mut draft = Draft::new(alloc, declared);
    let (inputs, outputs) = draft.sign(node)?;
    draft.fill(node)?;
    match draft.order() {
        Ok(()) => Ok(finish(draft, name, inputs, outputs)),
        Err(error) => Err(error),
    }
}
