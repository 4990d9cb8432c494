//! The names that occur in a text.
ghost use Rattle.std.specs.Prelude.{◌≡◌, [], ◌∷◌, ◌++◌, map, Some, OnOk, IfOk};
ghost use Rattle.hp_tree.specs.Expressions.{exprs_of, parts_of};
ghost use Rattle.hp_tree.specs.BlockView.{eqn_seen, arm_seen, state_seen};
ghost use Rattle.hp_tree.specs.DeclView.{clock_seen};
ghost use Rattle.hp_tree.specs.Blocks.{eqns_of, arms_of, states_of};
ghost use Rattle.hp_past.specs.Names.{noted, names_in, names_in_all, names_in_parts, names_in_type, names_in_clock, names_in_path, names_in_decl, names_in_decls, names_in_transitions, names_in_block, names_in_eqns, names_in_eqn, names_in_arms, names_in_states, names_in_state, names_in_condition, names_in_contract, names_in_node, names_in_item, names_of};

use hp_base::known::Known;
use hp_base::{Name, Span, Ty};
use hp_tree::{Arm, Block, Cons, Contract, Decl, Eqn, Expr, ExprKind, Item, Node, State, Trans};
use std::alloc::{AllocError, Global};

/// Names, each with itself as what is known of it.
pub type Names<'a> = Known<'a, Name>;

fn note<'a>(name: &'a Name, names: &mut Names<'a>) -> Result<(), AllocError>
    ensures { OnOk result (names.new ≡ noted names.old (name.now ∷ [])) }
{
    names.add(name, name)
}

#[cycle(expr)]
#[tactic(auto, using(crate::proofs::Rules::noted_exprs))]
fn note_expr<'a>(expr: &'a Expr, names: &mut Names<'a>) -> Result<(), AllocError>
    ensures { OnOk result (names.new ≡ noted names.old (names_in expr.now)) }
{
    match &*expr.kind {
        ExprKind::Const(_) => Ok(()),
        ExprKind::Name(x) => note(x, names),
        ExprKind::Last(x) => note(x, names),
        ExprKind::One(_, a) => note_expr(a, names),
        ExprKind::Two(_, a, b) => note_two(a, b, names),
        ExprKind::If(a, b, c) => {
            note_expr(a, names)?;
            note_two(b, c, names)
        }
        ExprKind::Pre(a) => note_expr(a, names),
        ExprKind::Fby(a, b) => note_two(a, b, names),
        ExprKind::Arrow(a, b) => note_two(a, b, names),
        ExprKind::When(a, _, x) => {
            note(x, names)?;
            note_expr(a, names)
        }
        ExprKind::Merge(x, parts) => {
            note(x, names)?;
            note_parts(parts, names)
        }
        ExprKind::Call { node, args, .. } => {
            note(node, names)?;
            note_all(args, names)
        }
    }
}

#[cycle(expr)]
#[tactic(auto, using(crate::proofs::Rules::noted_exprs))]
fn note_two<'a>(a: &'a Expr, b: &'a Expr, names: &mut Names<'a>) -> Result<(), AllocError>
    ensures { OnOk result (names.new ≡ noted names.old (names_in a.now ++ names_in b.now)) }
{
    note_expr(a, names)?;
    note_expr(b, names)
}

#[cycle(expr)]
#[tactic(auto, using(crate::proofs::Rules::noted_exprs))]
fn note_all<'a>(exprs: &'a [Expr], names: &mut Names<'a>) -> Result<(), AllocError>
    ensures { OnOk result (names.new ≡ noted names.old (names_in_all (exprs_of exprs.now))) }
{
    for expr in exprs {
        note_expr(expr, names)?;
    }
    Ok(())
}

#[cycle(expr)]
#[tactic(auto, using(crate::proofs::Rules::noted_exprs))]
fn note_parts<'a>(parts: &'a [(Cons, Expr)], names: &mut Names<'a>) -> Result<(), AllocError>
    ensures { OnOk result (names.new ≡ noted names.old (names_in_parts (parts_of parts.now))) }
{
    for (_, expr) in parts {
        note_expr(expr, names)?;
    }
    Ok(())
}

fn note_type<'a>(ty: &'a Ty, names: &mut Names<'a>) -> Result<(), AllocError>
    ensures { OnOk result (names.new ≡ noted names.old (names_in_type ty.now)) }
{
    match ty {
        Ty::Bool => Ok(()),
        Ty::Int => Ok(()),
        Ty::Enum(x) => note(x, names),
    }
}

#[tactic(auto, using(crate::proofs::Rules::noted_decls))]
fn note_path<'a>(path: &'a [(Cons, Name)], names: &mut Names<'a>) -> Result<(), AllocError>
    ensures { OnOk result (names.new ≡ noted names.old (names_in_path path.now)) }
{
    for (_, x) in path {
        note(x, names)?;
    }
    Ok(())
}

fn note_clock<'a>(
    clock: &'a Option<Vec<(Cons, Name)>>,
    names: &mut Names<'a>,
) -> Result<(), AllocError>
    ensures { OnOk result (names.new ≡ noted names.old (names_in_clock (clock_seen clock.now))) }
{
    match clock {
        None => Ok(()),
        Some(path) => note_path(path, names),
    }
}

#[tactic(auto, using(crate::proofs::Rules::noted_decls))]
fn note_decl<'a>(decl: &'a Decl, names: &mut Names<'a>) -> Result<(), AllocError>
    ensures { OnOk result (names.new ≡ noted names.old (names_in_decl decl.now)) }
{
    note(&decl.name, names)?;
    note_type(&decl.ty, names)?;
    note_clock(&decl.clock, names)
}

#[tactic(auto, using(crate::proofs::Rules::noted_decls))]
fn note_decls<'a>(decls: &'a [Decl], names: &mut Names<'a>) -> Result<(), AllocError>
    ensures { OnOk result (names.new ≡ noted names.old (names_in_decls decls.now)) }
{
    for decl in decls {
        note_decl(decl, names)?;
    }
    Ok(())
}

#[tactic(auto, using(crate::proofs::Rules::noted_decls))]
fn note_transitions<'a>(transitions: &'a [Trans], names: &mut Names<'a>) -> Result<(), AllocError>
    ensures { OnOk result (names.new ≡ noted names.old (names_in_transitions transitions.now)) }
{
    for transition in transitions {
        note_expr(&transition.cond, names)?;
    }
    Ok(())
}

#[tactic(auto, using(crate::proofs::Rules::noted_decls))]
fn note_left<'a>(left: &'a [(Name, Span)], names: &mut Names<'a>) -> Result<(), AllocError>
    ensures { OnOk result (names.new ≡ noted names.old (map (λ x. x.0) left.now)) }
{
    for (x, _) in left {
        note(x, names)?;
    }
    Ok(())
}

#[cycle(block)]
#[tactic(auto, using(crate::proofs::Rules::noted_blocks))]
fn note_block<'a>(block: &'a Block, names: &mut Names<'a>) -> Result<(), AllocError>
    ensures { OnOk result (names.new ≡ noted names.old (names_in_block block.now)) }
{
    note_decls(&block.locals, names)?;
    note_eqns(&block.eqns, names)
}

#[cycle(block)]
#[tactic(auto, using(crate::proofs::Rules::noted_blocks))]
fn note_eqns<'a>(eqns: &'a [Eqn], names: &mut Names<'a>) -> Result<(), AllocError>
    ensures { OnOk result (names.new ≡ noted names.old (names_in_eqns (eqns_of (map eqn_seen eqns.now)))) }
{
    for eqn in eqns {
        note_eqn(eqn, names)?;
    }
    Ok(())
}

#[cycle(block)]
#[tactic(auto, using(crate::proofs::Rules::noted_blocks))]
fn note_eqn<'a>(eqn: &'a Eqn, names: &mut Names<'a>) -> Result<(), AllocError>
    ensures { OnOk result (names.new ≡ noted names.old (names_in_eqn (eqn_seen eqn.now))) }
{
    match eqn {
        Eqn::Def {
            names: left,
            right,
            ..
        } => {
            note_left(left, names)?;
            note_expr(right, names)
        }
        Eqn::Switch { cond, arms, .. } => {
            note_expr(cond, names)?;
            note_arms(arms, names)
        }
        Eqn::Reset { body, cond, .. } => {
            note_block(body, names)?;
            note_expr(cond, names)
        }
        Eqn::Automaton { states, .. } => note_states(states, names),
    }
}

#[cycle(block)]
#[tactic(auto, using(crate::proofs::Rules::noted_blocks))]
fn note_arms<'a>(arms: &'a [Arm], names: &mut Names<'a>) -> Result<(), AllocError>
    ensures { OnOk result (names.new ≡ noted names.old (names_in_arms (arms_of (map arm_seen arms.now)))) }
{
    for arm in arms {
        note_block(&arm.body, names)?;
    }
    Ok(())
}

#[cycle(block)]
#[tactic(auto, using(crate::proofs::Rules::noted_blocks))]
fn note_states<'a>(states: &'a [State], names: &mut Names<'a>) -> Result<(), AllocError>
    ensures { OnOk result (names.new ≡ noted names.old (names_in_states (states_of (map state_seen states.now)))) }
{
    for state in states {
        note_state(state, names)?;
    }
    Ok(())
}

#[cycle(block)]
#[tactic(auto, using(crate::proofs::Rules::noted_blocks))]
fn note_state<'a>(state: &'a State, names: &mut Names<'a>) -> Result<(), AllocError>
    ensures { OnOk result (names.new ≡ noted names.old (names_in_state (state_seen state.now))) }
{
    note_block(&state.body, names)?;
    note_transitions(&state.until, names)?;
    note_transitions(&state.unless, names)
}

fn note_condition<'a>(condition: &'a Option<Expr>, names: &mut Names<'a>) -> Result<(), AllocError>
    ensures { OnOk result (names.new ≡ noted names.old (names_in_condition condition.now)) }
{
    match condition {
        None => Ok(()),
        Some(expr) => note_expr(expr, names),
    }
}

#[tactic(auto, using(crate::proofs::Rules::noted_decls))]
fn note_clauses<'a>(contract: &'a Contract, names: &mut Names<'a>) -> Result<(), AllocError>
    ensures { OnOk result (names.new ≡ noted names.old (names_in_contract (Some contract.now))) }
{
    note_block(&contract.body, names)?;
    note_condition(&contract.assume, names)?;
    note_condition(&contract.enforce, names)?;
    note_decls(&contract.controls, names)
}

fn note_contract<'a>(
    contract: &'a Option<Contract>,
    names: &mut Names<'a>,
) -> Result<(), AllocError>
    ensures { OnOk result (names.new ≡ noted names.old (names_in_contract contract.now)) }
{
    match contract {
        None => Ok(()),
        Some(contract) => note_clauses(contract, names),
    }
}

#[tactic(auto, using(crate::proofs::Rules::noted_decls))]
fn note_node<'a>(node: &'a Node, names: &mut Names<'a>) -> Result<(), AllocError>
    ensures { OnOk result (names.new ≡ noted names.old (names_in_node node.now)) }
{
    note(&node.name, names)?;
    note_decls(&node.inputs, names)?;
    note_decls(&node.outputs, names)?;
    note_contract(&node.contract, names)?;
    note_block(&node.body, names)
}

fn note_item<'a>(item: &'a Item, names: &mut Names<'a>) -> Result<(), AllocError>
    ensures { OnOk result (names.new ≡ noted names.old (names_in_item item.now)) }
{
    match item {
        Item::TypeItem(declared) => note(&declared.name, names),
        Item::NodeItem(node) => note_node(node, names),
    }
}

/// The names that occur in a program, but for those that begin with a capital letter.
#[tactic(auto, using(crate::proofs::Rules::noted_decls))]
pub fn names_of<'a>(alloc: Global, items: &'a [Item]) -> Result<Names<'a>, AllocError>
    ensures { IfOk result (λ names. names ≡ names_of items.now) }
{
    let mut names = Known::new(alloc);
    for item in items {
        note_item(item, &mut names)?;
    }
    Ok(names)
}
