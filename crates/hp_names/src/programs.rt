//! The names of nodes and programs.
ghost use Rattle.std.specs.Prelude.{◌≡◌, None, OnOk, IfOk};
ghost use Rattle.hp_names.specs.Breaches.{found_after};
ghost use Rattle.hp_names.specs.Names.{with_names, names_at};
ghost use Rattle.hp_tree.specs.Meaning.{controls_of};
ghost use Rattle.hp_names.specs.Scopes.{behind};
ghost use Rattle.hp_names.specs.Claims.{new_names, in_condition, in_contract, in_body, in_node, in_item, claims};

use crate::blocks::{check_block, enter_block};
use crate::breach::{Breach, declare_name};
use crate::declarations::{check_decls, check_variables, declare_variables};
use crate::expressions::check_expr;
use crate::names::Names;
use crate::scope::Scope;
use hp_base::{Name, Span};
use hp_tree::{Block, Contract, Decl, Expr, Item, Node, controls_of};
use std::alloc::{AllocError, Global};

#[tactic(auto, using(crate::proofs::Rules::found))]
fn check_condition<'a>(
    scope: &Scope<'a>,
    condition: &'a Option<Expr>,
    found: &mut Option<Breach<'a>>,
)
    ensures { found.new ≡ found_after found.old (in_condition scope.now condition.now) }
{
    match condition {
        None => {}
        Some(expr) => check_expr(scope, expr, found),
    }
}

/// A contract sees the inputs and outputs of its node, and its own variables.
#[tactic(auto, using(crate::proofs::Rules::found_in_nodes))]
fn check_contract<'a>(
    alloc: Global,
    scope: &mut Scope<'a>,
    contract: &'a Option<Contract>,
    found: &mut Option<Breach<'a>>,
) -> Result<(), AllocError>
    ensures scope { OnOk result (scope.new ≡ scope.old) }
    ensures found { OnOk result (found.new ≡ found_after found.old (in_contract scope.old contract.now)) }
{
    match contract {
        None => Ok(()),
        Some(contract) => {
            let mark = scope.mark();
            enter_block(alloc, scope, &contract.body, found)?;
            check_condition(scope, &contract.assume, found);
            check_condition(scope, &contract.enforce, found);
            scope.leave(mark);
            Ok(())
        }
    }
}

/// The body of a node sees the controllable variables too.
#[tactic(auto, using(crate::proofs::Rules::found_in_nodes))]
fn check_body<'a>(
    alloc: Global,
    scope: &mut Scope<'a>,
    controls: &'a [Decl],
    body: &'a Block,
    found: &mut Option<Breach<'a>>,
) -> Result<(), AllocError>
    ensures scope { OnOk result (scope.new ≡ scope.old) }
    ensures found { OnOk result (found.new ≡ found_after found.old (in_body scope.old controls.now body.now)) }
{
    let mark = scope.mark();
    check_variables(scope, controls, found)?;
    check_block(alloc, scope, body, found)?;
    scope.leave(mark);
    Ok(())
}

#[tactic(auto, using(crate::proofs::Rules::found_in_nodes))]
fn check_node<'a>(
    alloc: Global,
    scope: &mut Scope<'a>,
    node: &'a Node,
    found: &mut Option<Breach<'a>>,
) -> Result<(), AllocError>
    ensures scope { OnOk result (scope.new ≡ scope.old) }
    ensures found { OnOk result (found.new ≡ found_after found.old (in_node scope.old node.now)) }
{
    let mark = scope.mark();
    declare_variables(scope, &node.inputs, found)?;
    declare_variables(scope, &node.outputs, found)?;
    check_decls(scope, &node.inputs, found);
    check_decls(scope, &node.outputs, found);
    check_contract(alloc, scope, &node.contract, found)?;
    check_body(alloc, scope, controls_of(&node.contract), &node.body, found)?;
    scope.leave(mark);
    Ok(())
}

/// The constructors of a type.
#[tactic(auto, using(crate::proofs::Rules::found_in_types))]
fn declare_constructors<'a>(
    names: &mut Names<'a>,
    constructors: &'a [Name],
    at: Span,
    found: &mut Option<Breach<'a>>,
) -> Result<(), AllocError>
    ensures names { OnOk result (names.new ≡ with_names names.old (names_at at constructors.now)) }
    ensures found { OnOk result (found.new ≡ found_after found.old (new_names names.old (names_at at constructors.now))) }
{
    for constructor in constructors {
        declare_name(found, names, constructor, at);
        names.add(constructor)?;
    }
    Ok(())
}

/// An item, which is known from here on. A node is not known in itself.
#[tactic(auto, using(crate::proofs::Rules::found_in_nodes))]
fn check_item<'a>(
    alloc: Global,
    scope: &mut Scope<'a>,
    item: &'a Item,
    found: &mut Option<Breach<'a>>,
) -> Result<(), AllocError>
    ensures scope { OnOk result (scope.new ≡ behind scope.old item.now) }
    ensures found { OnOk result (found.new ≡ found_after found.old (in_item scope.old item.now)) }
{
    match item {
        Item::TypeItem(decl) => {
            declare_name(found, &scope.types, &decl.name, decl.span);
            scope.types.add(&decl.name)?;
            declare_constructors(&mut scope.constructors, &decl.cons, decl.span, found)
        }
        Item::NodeItem(node) => {
            declare_name(found, &scope.nodes, &node.name, node.span);
            check_node(alloc, scope, node, found)?;
            scope.nodes.add(&node.name)
        }
    }
}

/// The first name of the items that is unknown or declared twice.
#[tactic(auto, using(crate::proofs::Rules::found_in_items))]
pub fn check_items<'a>(alloc: Global, items: &'a [Item]) -> Result<Option<Breach<'a>>, AllocError>
    ensures { IfOk result (λ found. found ≡ found_after None (claims items.now)) }
{
    let mut found = None;
    let mut scope = Scope::new(alloc);
    for item in items {
        check_item(alloc, &mut scope, item, &mut found)?;
    }
    Ok(found)
}
