//! Observers: nodes that hold the block of a contract, beside the nodes that have it.
ghost use Rattle.std.specs.Prelude.{◌≡◌, ◌++◌, ◌∷◌, [], ◌≤◌, length, map, IfOk, OnOk};
ghost use Rattle.hp_tree.specs.BlockView.{eqn_seen};
ghost use Rattle.hp_watch.specs.Observing as made;

use hp_base::{Name, Span, Ty};
use hp_tree::{Block, Const, Contract, Decl, Eqn, Expr, ExprKind, Item, Node, Program, copy_decls};
use itoa::Buffer;
use std::alloc::{AllocError, Global};

/// The outputs of an observer: what is assumed and what is enforced. No source name holds the sign `$`, and none is one of these words.
const ASSUMED: &[u8] = b"assume$0";

const ENFORCED: &[u8] = b"enforce$0";

/// What the name of an input begins with that stands for an output of the node; its number follows.
const INPUT: &[u8] = b"in$";

/// The name of the input that stands for an output of the node, by the output's number.
fn input_name(alloc: Global, output: usize) -> Result<Name, AllocError>
    ensures { IfOk result (λ name. name ≡ made.input_name output) }
{
    let mut bytes = Vec::from_slice(alloc, INPUT)?;
    let mut buffer = Buffer::new();
    bytes.extend_from_slice(buffer.format(output).as_bytes())?;
    Name::new(alloc, &bytes)
}

/// A declaration on the base clock.
fn declared(alloc: Global, name: Name, ty: Ty, span: Span) -> Decl
    ensures { result ≡ made.declared name ty span }
{
    Decl {
        name,
        ty,
        last: None,
        clock: Some(Vec::new(alloc)),
        span,
    }
}

/// The input that stands for an output of the node.
fn input_for(alloc: Global, number: usize, output: &Decl) -> Result<Decl, AllocError>
    ensures { IfOk result (λ input. input ≡ made.declared (made.input_name number) output.now.ty output.now.span) }
{
    let name = input_name(alloc, number)?;
    let ty = output.ty.copy(alloc)?;
    Ok(declared(alloc, name, ty, output.span))
}

/// Adds an input for each output of the node.
#[tactic(auto, using(crate::proofs::Rules::observings))]
fn add_inputs(alloc: Global, outputs: &[Decl], inputs: &mut Vec<Decl>) -> Result<(), AllocError>
    ensures { OnOk result (inputs.new.items ≡ inputs.old.items ++ made.inputs_for 0 outputs.now) }
{
    for i in 0..outputs.len() {
        inputs.push(input_for(alloc, i, &outputs[i])?)?;
    }
    Ok(())
}

/// The inputs of the observer: those of the node, and behind them one for each of its outputs.
fn inputs_of(alloc: Global, node: &Node) -> Result<Vec<Decl>, AllocError>
    ensures { IfOk result (λ inputs. inputs.items ≡ node.now.inputs ++ made.inputs_for 0 node.now.outputs) }
{
    let mut inputs = copy_decls(alloc, &node.inputs)?;
    add_inputs(alloc, &node.outputs, &mut inputs)?;
    Ok(inputs)
}

/// The outputs of the observer.
fn outputs_of(alloc: Global, span: Span) -> Result<Vec<Decl>, AllocError>
    ensures { IfOk result (λ outputs. outputs.items ≡ made.outputs_at span) }
{
    let mut outputs = Vec::new(alloc);
    let assumed = Name::new(alloc, ASSUMED)?;
    outputs.push(declared(alloc, assumed, Ty::Bool, span))?;
    let enforced = Name::new(alloc, ENFORCED)?;
    outputs.push(declared(alloc, enforced, Ty::Bool, span))?;
    Ok(outputs)
}

/// What is assumed or enforced, which is true where it is not said.
fn condition_of(alloc: Global, said: &Option<Expr>, span: Span) -> Result<Expr, AllocError>
    ensures { IfOk result (λ condition. condition ≡ made.condition_of said.now span) }
{
    match said {
        None => Expr::new(alloc, span, ExprKind::Const(Const::B(true))),
        Some(expr) => expr.copy(alloc),
    }
}

/// The equation of one name.
fn equation(alloc: Global, name: Name, span: Span, right: Expr) -> Result<Eqn, AllocError>
    ensures { IfOk result (λ eqn. eqn_seen eqn ≡ made.equation name span right) }
{
    let mut names = Vec::new(alloc);
    names.push((name, span))?;
    Ok(Eqn::Def { span, names, right })
}

/// The equation of what is assumed or enforced.
fn said_eqn(alloc: Global, name: &[u8], said: &Option<Expr>, span: Span) -> Result<Eqn, AllocError>
    requires { length name.now ≤ 9 }
    ensures { IfOk result (λ eqn. eqn_seen eqn ≡ made.equation name.now span (made.condition_of said.now span)) }
{
    let right = condition_of(alloc, said, span)?;
    let name = Name::new(alloc, name)?;
    equation(alloc, name, span, right)
}

/// The equation by which an output of the node has the value of its input.
fn handed_on(alloc: Global, number: usize, output: &Decl) -> Result<Eqn, AllocError>
    ensures { IfOk result (λ eqn. eqn_seen eqn ≡ made.handed_on number output.now) }
{
    let input = input_name(alloc, number)?;
    let right = Expr::new(alloc, output.span, ExprKind::Name(input))?;
    equation(alloc, output.name.copy(alloc)?, output.span, right)
}

/// Adds an equation.
#[tactic(auto, using(crate::proofs::Rules::observings))]
fn add_eqn(eqn: Eqn, eqns: &mut Vec<Eqn>) -> Result<(), AllocError>
    ensures { OnOk result (map eqn_seen eqns.new.items ≡ map eqn_seen eqns.old.items ++ eqn_seen eqn ∷ []) }
{
    eqns.push(eqn)?;
    Ok(())
}

/// Adds the equations by which the outputs of the node have the values of inputs.
#[tactic(auto, using(crate::proofs::Rules::observings))]
fn add_handed_on(alloc: Global, outputs: &[Decl], eqns: &mut Vec<Eqn>) -> Result<(), AllocError>
    ensures { OnOk result (map eqn_seen eqns.new.items ≡ map eqn_seen eqns.old.items ++ made.all_handed_on 0 outputs.now) }
{
    for i in 0..outputs.len() {
        add_eqn(handed_on(alloc, i, &outputs[i])?, eqns)?;
    }
    Ok(())
}

/// Adds what an observer has besides the block of the contract.
#[tactic(auto, using(crate::proofs::Rules::observings))]
fn add_lines(
    alloc: Global,
    node: &Node,
    contract: &Contract,
    eqns: &mut Vec<Eqn>,
) -> Result<(), AllocError>
    ensures { OnOk result (map eqn_seen eqns.new.items ≡ map eqn_seen eqns.old.items ++ made.lines_of node.now contract.now) }
{
    let assume = said_eqn(alloc, ASSUMED, &contract.assume, contract.span)?;
    add_eqn(assume, eqns)?;
    let enforce = said_eqn(alloc, ENFORCED, &contract.enforce, contract.span)?;
    add_eqn(enforce, eqns)?;
    add_handed_on(alloc, &node.outputs, eqns)?;
    Ok(())
}

/// Adds copies of declarations.
#[tactic(auto, using(crate::proofs::Rules::observings))]
fn add_decls(alloc: Global, decls: &[Decl], into: &mut Vec<Decl>) -> Result<(), AllocError>
    ensures { OnOk result (into.new.items ≡ into.old.items ++ decls.now) }
{
    for i in 0..decls.len() {
        into.push(decls[i].copy(alloc)?)?;
    }
    Ok(())
}

/// The body of the observer: the block of the contract, and in it the outputs of the node, which have the values of the inputs that stand for them.
fn body_of(alloc: Global, node: &Node, contract: &Contract) -> Result<Block, AllocError>
    ensures { IfOk result (λ body. body ≡ made.with_lines contract.now.body node.now.outputs (made.lines_of node.now contract.now)) }
{
    let Block {
        mut locals,
        mut eqns,
    } = contract.body.copy(alloc)?;
    add_decls(alloc, &node.outputs, &mut locals)?;
    add_lines(alloc, node, contract, &mut eqns)?;
    Ok(Block { locals, eqns })
}

/// The observer of a contract. It has the name of the node.
fn observer_of(alloc: Global, node: &Node, contract: &Contract) -> Result<Node, AllocError>
    ensures { IfOk result (λ observer. observer ≡ made.observer_of node.now contract.now) }
{
    let inputs = inputs_of(alloc, node)?;
    let outputs = outputs_of(alloc, contract.span)?;
    let body = body_of(alloc, node, contract)?;
    Ok(Node {
        name: node.name.copy(alloc)?,
        span: node.span,
        inputs,
        outputs,
        contract: None,
        body,
    })
}

/// Adds the observer of a node, if it has a contract.
fn add_observer(alloc: Global, node: &Node, items: &mut Vec<Item>) -> Result<(), AllocError>
    ensures { OnOk result (items.new.items ≡ items.old.items ++ made.observer_if node.now node.now.contract) }
{
    match &node.contract {
        None => Ok(()),
        Some(contract) => {
            items.push(Item::NodeItem(observer_of(alloc, node, contract)?))?;
            Ok(())
        }
    }
}

/// Adds what stands for an item: a type, or the observer of a node that has a contract.
fn add_item(alloc: Global, item: &Item, items: &mut Vec<Item>) -> Result<(), AllocError>
    ensures { OnOk result (items.new.items ≡ items.old.items ++ made.item_of item.now) }
{
    match item {
        Item::TypeItem(decl) => {
            items.push(Item::TypeItem(decl.copy(alloc)?))?;
            Ok(())
        }
        Item::NodeItem(node) => add_observer(alloc, node, items),
    }
}

/// Adds what stands for each item.
#[tactic(auto, using(crate::proofs::Rules::observings))]
fn add_items(alloc: Global, all: &[Item], items: &mut Vec<Item>) -> Result<(), AllocError>
    ensures { OnOk result (items.new.items ≡ items.old.items ++ made.observers all.now) }
{
    for i in 0..all.len() {
        add_item(alloc, &all[i], items)?;
    }
    Ok(())
}

/// The observers of the contracts of a program, in order, with its types. A contract holds no calls, so they need no other node.
pub fn observers(alloc: Global, program: &Program) -> Result<Program, AllocError>
    ensures { IfOk result (λ seen. seen ≡ made.observers program.now) }
{
    let mut items = Vec::new(alloc);
    add_items(alloc, &program.items, &mut items)?;
    Ok(Program { items })
}
