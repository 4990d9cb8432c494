//! Programs without past-time formulas.
ghost use Rattle.std.specs.Prelude.{◌≡◌, ◌<◌, ◌^◌, IfOk, OnOk};
ghost use Rattle.hp_past.specs.Unfolding.{in_node, in_item, in_items, unfolded, number_behind, next_number};

use crate::contracts::unfold_optional;
use crate::error::PastErr;
use crate::formula::Formulas;
use crate::names::names_of;
use crate::text::Text;
use hp_tree::{Item, Node, Program, copy_decls};
use std::alloc::{AllocError, Global};

fn unfold_node(text: &Text<'_>, node: &Node, next: &mut u64) -> Result<Node, AllocError>
    ensures node { IfOk result (λ other. other ≡ (in_node text.now.formulas text.now.names node.now next.old).0) }
    ensures next { OnOk result (next.new ≡ (in_node text.now.formulas text.now.names node.now next.old).1) }
{
    let contract = unfold_optional(text, &node.contract, next)?;
    let alloc = text.alloc;
    Ok(Node {
        name: node.name.copy(alloc)?,
        span: node.span,
        inputs: copy_decls(alloc, &node.inputs)?,
        outputs: copy_decls(alloc, &node.outputs)?,
        contract,
        body: node.body.copy(alloc)?,
    })
}

fn unfold_item(text: &Text<'_>, item: &Item, next: &mut u64) -> Result<Item, AllocError>
    ensures item { IfOk result (λ other. other ≡ (in_item text.now.formulas text.now.names item.now next.old).0) }
    ensures next { OnOk result (next.new ≡ (in_item text.now.formulas text.now.names item.now next.old).1) }
{
    match item {
        Item::TypeItem(declared) => Ok(Item::TypeItem(declared.copy(text.alloc)?)),
        Item::NodeItem(node) => Ok(Item::NodeItem(unfold_node(text, node, next)?)),
    }
}

#[tactic(auto, using(crate::proofs::Rules::items))]
fn unfold_items(text: &Text<'_>, items: &[Item], next: &mut u64) -> Result<Vec<Item>, AllocError>
    ensures items { IfOk result (λ others. others.items ≡ in_items text.now.formulas text.now.names items.now next.old) }
    ensures next { OnOk result (next.new ≡ number_behind text.now.formulas text.now.names items.now next.old) }
{
    let mut others = Vec::new(text.alloc);
    for item in items {
        others.push(unfold_item(text, item, next)?)?;
    }
    Ok(others)
}

/// A number of the code is one of 64 bits. It does nothing.
fn is_of_64_bits(number: u64)
    ensures { number < 2 ^ 64 }
{}

/// The program in which each past-time formula of a contract is a variable. `once(e)`, `historically(e)` and `since(e1, e2)` are
/// formulas where they stand in the assumption, the guarantee, or an equation or condition of the contract's own block, and no node
/// of the program has that name. What does not fit, as another number of arguments, is left as it is.
pub fn unfold(alloc: Global, program: &Program) -> Result<Program, PastErr>
    ensures unfolded { IfOk result (λ other. other ≡ unfolded program.now) }
    // The numbers of the new names stay small, as the laws ask.
    ensures small { OnOk result (next_number program.now < 2 ^ 64) }
{
    let text = Text {
        alloc,
        formulas: Formulas::of(&program.items),
        names: names_of(alloc, &program.items)?,
    };
    let mut next = 1;
    let items = unfold_items(&text, &program.items, &mut next)?;
    is_of_64_bits(next);
    Ok(Program { items })
}
